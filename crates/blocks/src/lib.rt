// A block of the id section: its kind, its sizes, the ones of its longs (document 01, "Id section").
#![tactic(auto)]

ghost use Rattle.std.specs.Prelude.{◌≡◌, ◌+◌, ◌-◌, ◌*◌, ◌/◌, ◌%◌, ◌^◌, ◌≤◌, ◌<◌, length};
ghost use Rattle.std.specs.Int.Count.{ones, ones_in};
ghost use Rattle.format.specs.Limits.{Power, block_places, bitmap_longs};
ghost use Rattle.format.specs.Bytes.{low_at};
ghost use Rattle.format.specs.Ids.{kind_of, rank_bytes, data_bytes, block_bytes};
ghost use Rattle.format.specs.LookUp.{ones_from};
ghost use Rattle.blocks.specs.Kinds.{kind_is};

// How a block's ids are kept.
#[derive(Clone, Copy, Debug, PartialEq, Eq)]
pub enum Kind {
    Sparse,
    Dense,
    All,
}

// A block's kind travels with its place and its count: where its data start, the ids before it, how many it has.
#[derive(Clone, Copy, Debug, PartialEq, Eq)]
pub struct Block {
    pub start: usize,
    pub ordinal: u64,
    pub count: usize,
    pub kind: Kind,
}

impl Block {
    // The places of a block.
    pub const PLACES: usize = 65536;
    // The least count of a dense block.
    pub const DENSE_COUNT: usize = 4096;
    // The longs of a dense block's bitmap, and their bytes.
    pub const LONGS: usize = 1024;

    pub const BITMAP_BYTES: usize = 8192;
    // The end block's number.
    pub const END: u64 = 32767;
}

// ---- an id's block, and its place there

pub fn number_of(id: u32) -> usize
    ensures { (result ≡ id / block_places) × (result < block_places) }
{
    (id as usize) / Block::PLACES
}

pub fn place_of(id: u32) -> usize
    ensures { (result ≡ id % block_places) × (result < block_places) }
{
    (id as usize) % Block::PLACES
}

// ---- kinds

pub fn kind_of(count: usize) -> Kind
    ensures { kind_is result ≡ kind_of count }
{
    if count < Block::DENSE_COUNT {
        Kind::Sparse
    } else if count < Block::PLACES {
        Kind::Dense
    } else {
        Kind::All
    }
}

// ---- sizes

// The bytes of a rank table.
pub fn rank_bytes(p: usize) -> usize
    requires { Power p }
    ensures { (result ≡ rank_bytes p) × (result ≤ 1024) }
{
    if p == 0 {
        0
    } else {
        numbers::size(numbers::pow2(17 - p))
    }
}

// The longs of a stride.
pub fn stride(p: usize) -> usize
    requires { (6 ≤ p) × (p ≤ 15) }
    ensures { (result ≡ 2 ^ (p - 6)) × (result ≤ 512) }
{
    numbers::size(numbers::pow2(p - 6))
}

// The strides of a block.
pub fn strides(p: usize) -> usize
    requires { p ≤ 16 }
    ensures { (result ≡ 2 ^ (16 - p)) × (result ≤ block_places) }
{
    numbers::size(numbers::pow2(16 - p))
}

// The bytes of a block after its head.
pub fn data_bytes(p: usize, c: usize) -> usize
    requires { Power p }
    ensures { (result ≡ data_bytes p c) × (result ≤ 9216) }
{
    if c < Block::DENSE_COUNT {
        return 2 * c;
    }
    if c < Block::PLACES {
        return rank_bytes(p) + Block::BITMAP_BYTES;
    }
    0
}

pub fn block_bytes(p: usize, c: usize) -> usize
    requires { Power p }
    ensures { (result ≡ block_bytes p c) × (result ≤ 9220) }
{
    4 + data_bytes(p, c)
}

// ---- ones

pub fn ones_of(w: u64) -> u64
    ensures { (result ≡ ones_in 64 w) × (result ≤ 64) × (result ≡ ones w) }
{
    u64::from(w.count_ones())
}

// The ones of long i of those at m.
fn ones_at(s: &[u8], m: usize, i: usize) -> u64
    requires { m + 8 * (i + 1) ≤ length s.now }
    ensures { (result ≡ ones_in 64 (low_at 8 s.now (m + 8 * i))) × (result ≤ 64) }
{
    ones_of(numbers::long_at(s, m + 8 * i))
}

// The ones of n longs from long `first` on, of those at m.
pub fn ones_from(s: &[u8], m: usize, n: usize, first: usize) -> u64
    requires { (m + 8 * (first + n) ≤ length s.now) × (n ≤ bitmap_longs) }
    ensures { (result ≡ ones_from s.now m n first) × (result ≤ 64 * n) }
{
    let mut sum: u64 = 0;
    for i in 0..n {
        sum += ones_at(s, m, first + i);
    }
    sum
}

fn four_ones(s: &[u8], m: usize, first: usize) -> u64
    requires { m + 8 * (first + 4) ≤ length s.now }
    ensures { (result ≡ ones_from s.now m 4 first) × (result ≤ 256) }
{
    ones_at(s, m, first)
        + ones_at(s, m, first + 1)
        + ones_at(s, m, first + 2)
        + ones_at(s, m, first + 3)
}

// The ones of a stride's longs, `first` on. At power 9, which is Lucene's, they are eight and need no loop; above 7 a multiple of four, and the loop
// over them leaves none for a second one.
pub fn stride_ones(s: &[u8], m: usize, p: usize, first: usize) -> u64
    requires { (7 ≤ p) × (p ≤ 15) × (m + 8 * (first + 2 ^ (p - 6)) ≤ length s.now) }
    ensures { (result ≡ ones_from s.now m (2 ^ (p - 6)) first) × (result ≤ 64 * 2 ^ (p - 6)) }
{
    if p == 7 {
        return ones_from(s, m, 2, first);
    }
    if p == 9 {
        return four_ones(s, m, first) + four_ones(s, m, first + 4);
    }
    ones_from(s, m, 4 * numbers::size(numbers::pow2(p - 8)), first)
}
