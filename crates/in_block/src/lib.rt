// Where a place stands in its block: steps 5 and 6 of document 01, "The look-up, step by step".
#![tactic(auto)]

ghost use Rattle.std.specs.Prelude.{◌≡◌, ℕ, ◌+◌, ◌-◌, ◌*◌, ◌/◌, ◌%◌, ◌^◌, ◌≤◌, ◌<◌, cond, ltb, length, drop};
ghost use Rattle.std.specs.Int.Count.{ones_in};
ghost use Rattle.format.specs.Limits.{Power, block_places, dense_count, bitmap_bytes};
ghost use Rattle.format.specs.Ids.{kind_of, rank_bytes, data_bytes};
ghost use Rattle.format.specs.IdsRead.{shorts};
ghost use Rattle.format.specs.LookUp.{halve, halving, halved, probes_at, stride_long, stride_rank, dense_at, place_at};
ghost use Rattle.blocks.specs.Kinds.{kind_is};
ghost use Rattle.in_block.specs.Place.{place_of, probes_of, Below, in_one_word, Searched};

use blocks::Block;

mod by_count;

pub use by_count::index_in;

// A place's index in its block, the words counted and the entries probed; not there, with both; or a failed step. (32 bits for the
// index: both cases then have words and probes in the same place, and nothing goes through memory.)
// An enum of its own and no Option: three ways, and document 01 has each look-up step return an enum.
#[derive(Clone, Copy, Debug, PartialEq, Eq)]
pub enum Inner {
    At { inner: u32, words: u64, probes: u64 },
    Absent { words: u64, probes: u64 },
    Broken,
}

// ---- step 5, sparse (document 02, [8])

// The index of a place that is not there: no block has so many.
pub const NOWHERE: u64 = 65536;

// What is chosen after a probe that gave x: `past` where x is below r, and `before` otherwise. (Both ends move by it, so that neither
// is guessed: which half is left cannot be foretold.)
fn left(x: u32, r: u32, past: usize, before: usize) -> usize
    ensures { result ≡ cond (ltb x r) past before }
{
    if x < r {
        return past;
    }
    before
}

// r among the entries lo to hi (hi not included) of those at `at`, after some probes: each probe halves what is left of the entries. The
// slice by reference and the result in one word (16 times the index, or `NOWHERE`, and the probes), so that
// nothing goes through memory and the call of itself is a jump.
// It calls itself, and is no loop: document 01 names this form.
fn halve(s: &&[u8], at: usize, lo: usize, hi: usize, r: u32, probes: u64) -> u64
    requires { (lo ≤ hi) × (hi < block_places) × (at + 2 * hi ≤ length s.now.now) × (at + 2 * hi < 2 ^ 64)
        × (probes + (hi - lo) < block_places) }
    ensures { (c : ℕ) → hi ≤ c → result ≡ in_one_word (halve r (shorts c (drop at s.now.now)) lo hi probes) }
{
    if lo == hi {
        return 16 * NOWHERE + probes;
    }
    let m = (lo + hi) / 2;
    let x = numbers::short_at(*s, at + 2 * m) as u32;
    if x == r {
        return 16 * numbers::long(m) + probes + 1;
    }
    halve(
        s,
        at,
        left(x, r, m + 1, lo),
        left(x, r, hi, m),
        r,
        probes + 1,
    )
}

// r among the entries of a sparse block.
fn sparse(s: &[u8], at: usize, count: usize, r: u64) -> Inner
    requires { (at + 2 * count ≤ length s.now) × (count < dense_count) × (r < block_places) }
    ensures { (Searched (halving r (shorts count (drop at s.now))) result) × (Below count result) × (probes_of result ≤ 12) }
{
    let w = halve(&s, at, 0, count, r as u32, 0);
    if w < 16 * NOWHERE {
        return Inner::At {
            inner: (w / 16) as u32,
            words: 0,
            probes: w % 16,
        };
    }
    Inner::Absent {
        words: 0,
        probes: w % 16,
    }
}

// ---- step 6, dense

pub fn bit_of(long: u64, b: usize) -> u64
    requires { b < 64 }
    ensures { result ≡ long / 2 ^ b % 2 }
{
    (long >> b) & 1
}

// The ones below bit b.
pub fn ones_under(long: u64, b: usize) -> u64
    requires { b < 64 }
    ensures { (result ≡ ones_in 64 (long % 2 ^ b)) × (result ≤ 64) }
{
    blocks::ones_of(long & (numbers::pow2(b) - 1))
}

// The first long of the stride of place r.
pub fn stride_long(p: usize, r: usize) -> usize
    requires { (Power p) × (r < block_places) }
    ensures { (result ≡ stride_long p r) × (result ≤ r / 64) }
{
    if p == 0 {
        return 0;
    }
    (r >> p) * blocks::stride(p)
}

// The rank of the stride of place r, from the table at t.
pub fn stride_rank(s: &[u8], t: usize, p: usize, r: usize) -> u64
    requires { (Power p) × (r < block_places) × (t + rank_bytes p ≤ length s.now) }
    ensures { (result ≡ stride_rank p s.now t r) × (result < block_places) }
{
    if p == 0 {
        return 0;
    }
    numbers::rank_at(s, t + 2 * (r >> p))
}

// Place r of a dense block of `count` ids whose data start at t.
pub fn dense(s: &[u8], t: usize, p: usize, count: usize, r: usize) -> Inner
    requires { (Power p) × (r < block_places) × (t + rank_bytes p + bitmap_bytes ≤ length s.now) }
    ensures { (place_of result ≡ dense_at p s.now t count r) × (Below count result) × (probes_of result ≡ 0) }
{
    let m = t + blocks::rank_bytes(p);
    let k = r / 64;
    let b = r % 64;
    let long = numbers::long_at(s, m + 8 * k);
    if bit_of(long, b) == 0 {
        return Inner::Absent {
            words: 1,
            probes: 0,
        };
    }
    let f = stride_long(p, r);
    let n = k - f;
    let before = stride_rank(s, t, p, r) + blocks::ones_from(s, m, n, f);
    let i = before + ones_under(long, b);
    if i < numbers::long(count) {
        Inner::At {
            inner: i as u32,
            words: numbers::long(n + 1),
            probes: 0,
        }
    } else {
        Inner::Broken
    }
}

// ---- steps 5 and 6

// Where place r stands in the block. It goes by the count, and not by the kind that was made of it: then neither is kept in a register.
pub fn inner_of(s: &[u8], block: Block, p: usize, r: usize) -> Inner
    requires { (Power p) × (r < block_places) × (kind_is block.kind ≡ kind_of block.count)
        × (block.start + data_bytes p block.count ≤ length s.now) }
    ensures { (place_of result ≡ place_at halved p s.now block.start block.count r) × (Below block.count result)
        × (probes_of result ≡ probes_at s.now block.start block.count r) }
{
    let start = block.start;
    let count = block.count;
    if count < Block::DENSE_COUNT {
        return sparse(s, start, count, numbers::long(r));
    }
    if count < Block::PLACES {
        return dense(s, start, p, count, r);
    }
    Inner::At {
        inner: r as u32,
        words: 0,
        probes: 0,
    }
}
