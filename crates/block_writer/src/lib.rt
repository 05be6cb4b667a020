// One block of ids: its head, and then places, or ranks and words, or nothing (document 01, "Id section").
#![tactic(auto)]

ghost use Rattle.std.specs.Prelude.{◌≡◌, ◌+◌, ◌-◌, ◌*◌, ◌/◌, ◌%◌, ◌^◌, ◌≤◌, ◌<◌, ◌++◌, length};
ghost use Rattle.std.proofs.lemmas.List.Edits.{sets};
ghost use Rattle.std.specs.Int.Count.{ones};
ghost use Rattle.format.specs.Limits.{Power, min_power, max_power, bitmap_longs, bitmap_bytes};
ghost use Rattle.format.specs.Bytes.{low, bytes_of};
ghost use Rattle.format.specs.Ids.{rank_bytes, block_bytes, block_data, block_of};
ghost use Rattle.format.specs.Runs.{Fine};
ghost use Rattle.block_writer.specs.Part.{places_from, run_of, bits_from, bits_of, From, Gone};

use blocks::{Block, Kind};

// ---- sparse

// Puts the places as shorts.
pub fn put_sparse(part: &[u32], out: &mut [u8], at: usize)
    requires { at + 2 * length part.now ≤ length out.old }
    ensures { out.new ≡ sets out.old at (bytes_of (low 2) (places_from part.now 0)) }
{
    for (i, id) in part.iter().enumerate() {
        let place = blocks::place_of(*id);
        numbers::put_short(out, at + 2 * i, numbers::long(place));
    }
}

// ---- dense

#[derive(Clone, Copy, Debug, PartialEq, Eq)]
struct Word {
    pub bits: u64,
    pub next: usize,
}

// Word k, from the ids from index `from` on, and the index of the first id past it.
fn word_of(part: &[u32], from: usize, k: usize) -> Word
    requires { (From part.now from k) × (k < bitmap_longs) }
    ensures { (result.bits ≡ bits_from part.now from k % 2 ^ 64) × (Gone part.now from k 1 result.next) }
{
    let n = part.len();
    let mut bits: u64 = 0;
    for m in from..n {
        let r = blocks::place_of(part[m]);
        if r / 64 != k {
            return Word { bits, next: m };
        }
        bits += numbers::pow2(r % 64);
    }
    Word { bits, next: n }
}

#[derive(Clone, Copy, Debug, PartialEq, Eq)]
struct Laid {
    pub ones: u64,
    pub next: usize,
}

// Puts n words from word k on, made of the ids from index `from` on.
fn put_words(part: &[u32], from: usize, k: usize, n: usize, out: &mut [u8], at: usize) -> Laid
    requires { (From part.now from k) × (k + n ≤ bitmap_longs) × (at + 8 * n ≤ length out.old) }
    ensures { (out.new ≡ sets out.old at (low (8 * n) (bits_from part.now from k)))
        × (result.ones ≡ ones (bits_from part.now from k % 2 ^ (64 * n))) × (result.ones ≤ 64 * n)
        × (Gone part.now from k n result.next) }
{
    let mut m = from;
    let mut sum: u64 = 0;
    for t in 0..n {
        let w = word_of(part, m, k + t);
        numbers::put_long(out, at + 8 * t, w.bits);
        sum += blocks::ones_of(w.bits);
        m = w.next;
    }
    Laid { ones: sum, next: m }
}

// Puts the rank table and the words, a rank at the start of each stride.
fn put_ranked(part: &[u32], p: usize, out: &mut [u8], at: usize)
    requires { (From part.now 0 0) × (min_power ≤ p) × (p ≤ max_power) × (at + rank_bytes p + bitmap_bytes ≤ length out.old) }
    ensures { out.new ≡ sets out.old at (bits_of p (places_from part.now 0)) }
{
    let stride = blocks::stride(p);
    let strides = blocks::strides(p);
    let base = at + 2 * strides;
    let mut m = 0;
    let mut sum: u64 = 0;
    for t in 0..strides {
        let k = t * stride;
        numbers::put_rank(out, at + 2 * t, sum);
        let laid = put_words(part, m, k, stride, out, base + 8 * k);
        sum += laid.ones;
        m = laid.next;
    }
}

pub fn put_dense(part: &[u32], p: usize, out: &mut [u8], at: usize)
    requires { (From part.now 0 0) × (Power p) × (at + rank_bytes p + bitmap_bytes ≤ length out.old) }
    ensures { out.new ≡ sets out.old at (bits_of p (places_from part.now 0)) }
{
    if p == 0 {
        put_words(part, 0, 0, Block::LONGS, out, at);
    } else {
        put_ranked(part, p, out, at);
    }
}

// ---- a block

// Puts the block's number, and its count less one.
fn put_head(part: &[u32], out: &mut [u8], at: usize)
    requires { (0 < length part.now) × (at + 4 ≤ length out.old) }
    ensures { out.new
        ≡ sets out.old at (low 2 (run_of part.now).block ++ low 2 (length (run_of part.now).places - 1)) }
{
    let number = blocks::number_of(part[0]);
    numbers::put_short(out, at, numbers::long(number));
    numbers::put_short(out, at + 2, (part.len() - 1) as u64);
}

fn put_data(part: &[u32], p: usize, out: &mut [u8], at: usize)
    requires { (Fine (run_of part.now)) × (Power p) × (at + block_bytes p (length part.now) ≤ 4 + length out.old) }
    ensures { out.new ≡ sets out.old at (block_data p (run_of part.now).places) }
{
    match blocks::kind_of(part.len()) {
        Kind::Sparse => put_sparse(part, out, at),
        Kind::Dense => put_dense(part, p, out, at),
        Kind::All => {}
    }
}

// Puts the block that the ids of one block make.
pub fn put_block(part: &[u32], p: usize, out: &mut [u8], at: usize)
    requires { (Fine (run_of part.now)) × (Power p) × (at + block_bytes p (length part.now) ≤ length out.old) }
    ensures { out.new ≡ sets out.old at (block_of p (run_of part.now)) }
{
    put_head(part, out, at);
    put_data(part, p, out, at + 4);
}
