// The first place of a block, from a place on, that is not absent (document 02, [1]): one scan of a sparse block, the longs of a dense
// block from the place's own on, a full block at once.
#![tactic(auto)]

ghost use Rattle.std.specs.Prelude.{◌≡◌, false, ℕ, ◌+◌, ◌-◌, ◌*◌, ◌/◌, ◌^◌, ◌≤◌, ◌<◌, length, MatchOption};
ghost use Rattle.std.specs.Int.Count.{count_trailing_zeros};
ghost use Rattle.format.specs.Bytes.{low_at};
ghost use Rattle.format.specs.Limits.{Power, block_places, bitmap_bytes};
ghost use Rattle.format.specs.Ids.{kind_of, rank_bytes, data_bytes};
ghost use Rattle.format.specs.LookUp.{scanned, dense_at, place_at};
ghost use Rattle.blocks.specs.Kinds.{kind_is};
ghost use Rattle.next_in_block.specs.First.{first_in, scan_at, entry_in, inner_in, Below, FirstEntry, FirstBit, FirstOne, first_of, Within};

use blocks::{Block, Kind};

// A place and its index in the block, none, or a failed step.
#[derive(Clone, Copy)]
pub enum First {
    At { place: usize, inner: u64 },
    Nothing,
    Broken,
}

// ---- step 5, sparse: document 01's scan, once for all places

// Entries as the format has them, so that eight fit one machine word of sixteen bytes.
fn entry_at(s: &[u8], i: usize) -> u16
    requires { i + 2 ≤ length s.now }
    ensures { result ≡ low_at 2 s.now i }
{
    u16::from(s[i]) + u16::from(s[i + 1]) * 256
}

// Whether one of sixteen entries at `at` is r or above. All are asked, by `|` and not by `any`: no branch.
fn some_from(s: &[u8], at: usize, r: u16) -> bool
    requires { at + 32 ≤ length s.now }
    ensures { result ≡ false → (k : ℕ) → k < 16 → entry_in s.now at k < r }
{
    let mut some = false;
    for k in 0..16 {
        some |= r <= entry_at(s, at + 2 * k);
    }
    some
}

// How many entries, by sixteens, the scan may pass over at once.
fn skipped(s: &[u8], at: usize, count: usize, r: u16) -> usize
    requires { at + 2 * count ≤ length s.now }
    ensures { Below s.now at count r result }
{
    let sixteens = count / 16;
    for k in 0..sixteens {
        if some_from(s, at + 32 * k, r) {
            return 16 * k;
        }
    }
    16 * sixteens
}

// The first of the entries at `at` that is r or above; `count`, if there is none.
pub fn first_entry(s: &[u8], at: usize, count: usize, r: u16) -> usize
    requires { at + 2 * count ≤ length s.now }
    ensures { FirstEntry s.now at count r result }
{
    let start = skipped(s, at, count, r);
    for i in start..count {
        if r <= entry_at(s, at + 2 * i) {
            return i;
        }
    }
    count
}

// That entry stands for the first place.
fn sparse(s: &[u8], at: usize, count: usize, r: usize) -> First
    requires { (at + 2 * count ≤ length s.now) × (r < block_places) }
    ensures { (first_of result ≡ first_in (block_places - r) (scan_at s.now at count) r) × (Within count result) }
{
    let i = first_entry(s, at, count, r as u16);
    if i == count {
        return First::Nothing;
    }
    First::At {
        place: numbers::size(numbers::short_at(s, at + 2 * i)),
        inner: numbers::long(i),
    }
}

// ---- step 6, dense

pub fn zeros_below(x: u64) -> usize
    ensures { (result ≡ count_trailing_zeros 64 x) × (result ≤ 64) }
{
    numbers::size(numbers::wide32(u64::trailing_zeros(x)))
}

// The bits above bit z.
pub fn bits_above(x: u64, z: usize) -> u64
    requires { z < 64 }
    ensures { result ≡ x / 2 ^ (z + 1) }
{
    (x >> z) >> 1
}

// The first set bit of the long from b on.
fn first_bit(long: u64, b: usize) -> Option<usize>
    requires { b < 64 }
    ensures { MatchOption result (FirstBit long b 64) (λ j. (j < 64) × (FirstBit long b j)) }
{
    let j = b + zeros_below(long >> b);
    if j < 64 { Some(j) } else { None }
}

// The first place from r on whose bit is set, of the longs at m.
fn first_one(s: &[u8], m: usize, r: usize) -> Option<usize>
    requires { (m + bitmap_bytes ≤ length s.now) × (r < block_places) }
    ensures { MatchOption result (FirstOne s.now m r block_places) (λ x. (x < block_places) × (FirstOne s.now m r x)) }
{
    let mut b = r % 64;
    for k in r / 64..Block::LONGS {
        if let Some(j) = first_bit(numbers::long_at(s, m + 8 * k), b) {
            return Some(64 * k + j);
        }
        b = 0;
    }
    None
}

// The index of place r, by its stride's rank and the ones before it.
pub fn index_of(s: &[u8], t: usize, p: usize, r: usize) -> u64
    requires { (Power p) × (r < block_places) × (t + rank_bytes p + bitmap_bytes ≤ length s.now) }
    ensures { result ≡ inner_in p s.now t r }
{
    let m = t + blocks::rank_bytes(p);
    let k = r / 64;
    let f = in_block::stride_long(p, r);
    let before = in_block::stride_rank(s, t, p, r) + blocks::ones_from(s, m, k - f, f);
    before + in_block::ones_under(numbers::long_at(s, m + 8 * k), r % 64)
}

// From place r on in a dense block of `count` ids whose data start at t.
fn dense(s: &[u8], t: usize, p: usize, count: usize, r: usize) -> First
    requires { (Power p) × (r < block_places) × (t + rank_bytes p + bitmap_bytes ≤ length s.now) }
    ensures { (first_of result ≡ first_in (block_places - r) (dense_at p s.now t count) r) × (Within count result) }
{
    let Some(place) = first_one(s, t + blocks::rank_bytes(p), r) else {
        return First::Nothing;
    };
    let inner = index_of(s, t, p, place);
    if inner < numbers::long(count) {
        First::At { place, inner }
    } else {
        First::Broken
    }
}

// ---- a block

// From place r on in the block.
pub fn first_in(s: &[u8], block: Block, p: usize, r: usize) -> First
    requires { (Power p) × (r < block_places) × (kind_is block.kind ≡ kind_of block.count)
        × (block.start + data_bytes p block.count ≤ length s.now) }
    ensures { (first_of result ≡ first_in (block_places - r) (place_at scanned p s.now block.start block.count) r) × (Within block.count result) }
{
    let kind = block.kind;
    let start = block.start;
    let count = block.count;
    match kind {
        Kind::Sparse => sparse(s, start, count, r),
        Kind::Dense => dense(s, start, p, count, r),
        Kind::All => First::At {
            place: r,
            inner: numbers::long(r),
        },
    }
}
