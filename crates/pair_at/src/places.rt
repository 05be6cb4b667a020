// The place with an index in a block: a sparse block's entry, a dense block's bit by ranks and longs, a full block's own.
ghost use Rattle.std.specs.Prelude.{◌≡◌, ◌+◌, ◌-◌, ◌*◌, ◌/◌, ◌%◌, ◌^◌, ◌≤◌, ◌<◌, length};
ghost use Rattle.std.specs.Int.Count.{ones_in};
ghost use Rattle.format.specs.Bytes.{high_at};
ghost use Rattle.format.specs.Limits.{Power, block_places, bitmap_bytes, bitmap_longs};
ghost use Rattle.format.specs.Ids.{kind_of, rank_bytes, data_bytes};
ghost use Rattle.blocks.specs.Kinds.{kind_is};
ghost use Rattle.format.specs.PairAt.{bit_after, dense_with, place_with};
ghost use Rattle.pair_at.specs.Held.{PlaceIs, stride_of, stride_places};

use blocks::{Block, Kind};

// The bit of the long that is set after j others.
fn nth_one(long: u64, j: u64) -> usize
    requires { j < ones_in 64 long }
    ensures { (result < 64) × (long / 2 ^ result % 2 ≡ 1) × (ones_in 64 (long % 2 ^ result) ≡ j) }
{
    let mut bits = long;
    let mut y = 0;
    for passed in 0..j {
        let z = next_in_block::zeros_below(bits);
        bits = next_in_block::bits_above(bits, z);
        y = y + z + 1;
    }
    y + next_in_block::zeros_below(bits)
}

// The place, in the longs at m from `first` up to `end`, whose bit is set after `index` others.
fn in_longs(s: &[u8], m: usize, first: usize, end: usize, index: u64) -> Option<usize>
    requires { (first ≤ end) × (end ≤ bitmap_longs) × (m + bitmap_bytes ≤ length s.now) }
    ensures { PlaceIs result (bit_after s.now m (64 * (end - first)) (64 * first) index) }
{
    let mut j = index;
    for k in first..end {
        let long = numbers::long_at(s, m + 8 * k);
        let ones = blocks::ones_of(long);
        if j < ones {
            return Some(64 * k + nth_one(long, j));
        }
        j -= ones;
    }
    None
}

// The first place of the stride that holds index i, by the ranks at t.
fn stride_of(s: &[u8], t: usize, p: usize, i: u64) -> usize
    requires { (Power p) × (t + rank_bytes p ≤ length s.now) }
    ensures { (result ≡ stride_of p s.now t i * 2 ^ p) × (result + stride_places p ≤ block_places) }
{
    if p == 0 {
        return 0;
    }
    let rank = |q: usize| -> u64
        requires { t + 2 * q + 2 ≤ length s.now }
        ensures { result ≡ high_at 2 s.entry.now (t + 2 * q) }
    { numbers::rank_at(s, t + 2 * q) };
    crate::halving::last_up_to(rank, blocks::strides(p), i) << p
}

// The longs of a stride, or of the block without ranks.
fn longs_of(p: usize) -> usize
    requires { Power p }
    ensures { 64 * result ≡ stride_places p }
{
    if p == 0 {
        return Block::LONGS;
    }
    blocks::stride(p)
}

fn in_dense(s: &[u8], t: usize, p: usize, i: u64) -> Option<usize>
    requires { (Power p) × (t + rank_bytes p + bitmap_bytes ≤ length s.now) }
    ensures { PlaceIs result (dense_with p s.now t i) }
{
    let x = stride_of(s, t, p, i);
    let rank = in_block::stride_rank(s, t, p, x);
    if i < rank {
        return None;
    }
    let k = x / 64;
    in_longs(s, t + blocks::rank_bytes(p), k, k + longs_of(p), i - rank)
}

// The place with index i, below the block's count.
pub fn place_with(s: &[u8], block: Block, p: usize, i: u64) -> Option<usize>
    requires { (Power p) × (kind_is block.kind ≡ kind_of block.count) × (block.start + data_bytes p block.count ≤ length s.now)
        × (i < block.count) × (block.count ≤ block_places) }
    ensures { PlaceIs result (place_with p s.now block.start block.count i) }
{
    let kind = block.kind;
    let start = block.start;
    match kind {
        Kind::Sparse => Some(numbers::size(numbers::short_at(s, start + 2 * numbers::size(i)))),
        Kind::Dense => in_dense(s, start, p, i),
        Kind::All => Some(numbers::size(i)),
    }
}
