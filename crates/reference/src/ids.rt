// The id section (document 01, "Id section"), block number after block number and place after place.
use super::bytes;
use super::bytes::{put, put_low};

// Where a section goes: its start, where its jump entries stand if it has some, and its rank power.
#[derive(Clone, Copy, Debug, Default, PartialEq, Eq)]
pub struct Section {
    pub base: usize,
    pub table: Option<usize>,
    pub power: u32,
}

// Where the next block goes: its start within the section, and how many ids stand before it.
#[derive(Clone, Copy, Debug, Default, PartialEq, Eq)]
struct Next {
    start: usize,
    before: usize,
}

// A block whose data are put: where they start, the id of its place 0, the index of its first id, and how they are laid out.
#[derive(Clone, Copy, Debug, Default, PartialEq, Eq)]
struct Block {
    at: usize,
    first: u32,
    before: usize,
    dense: bool,
    power: u32,
}

// The number after the last block's.
pub fn blocks(ids: &[u32]) -> u32 {
    match ids.last() {
        Some(id) => *id / 65536 + 1,
        None => 0,
    }
}

// J: an entry for each block to the last and one for the end block, but none where that would be two.
pub fn entries(blocks: u32) -> usize {
    match blocks {
        0 => 1,
        1 => 0,
        _ => blocks as usize + 1,
    }
}

// The bytes of a rank table: 2^(17-p), none without ranks.
fn rank_bytes(power: u32) -> usize {
    if power == 0 {
        0
    } else {
        131072usize.wrapping_shr(power)
    }
}

// The bytes of a block's data.
fn data_bytes(count: usize, power: u32) -> usize {
    match count {
        0..=4095 => 2 * count,
        4096..=65535 => rank_bytes(power).wrapping_add(8192),
        _ => 0,
    }
}

// A stride's rank, high byte first: the ids of the block before its first place.
fn put_rank(out: &mut [u8], b: Block, x: u32, rank: usize) {
    let stride = x.wrapping_shr(b.power);
    if b.power > 0 && stride.wrapping_shl(b.power) == x {
        let at = b.at.wrapping_add(2 * stride as usize);
        let next = put(out, at, (rank / 256 % 256) as u8);
        put(out, next, (rank % 256) as u8);
    }
}

// Place x of a dense block: bit x mod 64 of long x div 64, low byte first, so bit x mod 8 of byte x div 8.
fn put_dense(out: &mut [u8], b: Block, x: u32, rank: usize, listed: bool) {
    put_rank(out, b, x, rank);
    let words = b.at.wrapping_add(rank_bytes(b.power));
    let at = words.wrapping_add(x as usize / 8);
    bytes::put_bit(out, at, x % 8 == 0, x % 8, listed);
}

// Place x, which the id at index i has or a later place. Answers with the index of the next id after it.
fn put_place(out: &mut [u8], ids: &[u32], b: Block, x: u32, i: usize) -> usize {
    let listed = ids.get(i).copied() == Some(b.first.wrapping_add(x));
    let rank = i.wrapping_sub(b.before);
    if b.dense {
        put_dense(out, b, x, rank, listed);
    } else if listed {
        let at = b.at.wrapping_add(rank.wrapping_mul(2));
        put_low(out, at, 2, u64::from(x));
    }
    i.wrapping_add(usize::from(listed))
}

// Puts a block's data, and answers with the index after its last id.
fn put_places(out: &mut [u8], ids: &[u32], b: Block) -> usize {
    let mut i = b.before;
    for x in 0..65536u32 {
        i = put_place(out, ids, b, x, i);
    }
    i
}

// How many ids the block has: its places, put nowhere.
fn count_of(ids: &[u32], first: u32, before: usize) -> usize {
    let b = Block {
        first,
        before,
        ..Block::default()
    };
    put_places(&mut [0u8; 0], ids, b).wrapping_sub(before)
}

// Puts a block that has an id. A full one has no data.
fn put_block(out: &mut [u8], s: Section, ids: &[u32], number: u32, next: Next) -> Next {
    let first = number << 16;
    let before = next.before;
    let power = s.power;
    let count = count_of(ids, first, before);
    let at = s.base.wrapping_add(next.start);
    let at = put_low(out, at, 2, u64::from(number));
    let at = put_low(out, at, 2, count.wrapping_sub(1) as u64);
    if count <= 65535 {
        let b = Block {
            at,
            first,
            before,
            dense: count > 4095,
            power,
        };
        put_places(out, ids, b);
    }
    let bytes = data_bytes(count, power).wrapping_add(4);
    Next {
        start: next.start.wrapping_add(bytes),
        before: before.wrapping_add(count),
    }
}

fn put_entry(out: &mut [u8], s: Section, number: u32, next: Next) {
    if let Some(table) = s.table {
        let at = table.wrapping_add(8 * number as usize);
        let at = put_low(out, at, 4, next.before as u64);
        put_low(out, at, 4, next.start as u64);
    }
}

// A block number's jump entry, which for a missing block is that of the next one, and its block.
fn put_numbered(out: &mut [u8], s: Section, ids: &[u32], number: u32, next: Next) -> Next {
    put_entry(out, s, number, next);
    match ids.get(next.before) {
        Some(id) if *id / 65536 == number => put_block(out, s, ids, number, next),
        _ => next,
    }
}

// Puts the blocks, the end block and the jump entries, and answers with the bytes of the blocks and the end block.
pub fn put_section(out: &mut [u8], s: Section, ids: &[u32]) -> usize {
    let mut next = Next::default();
    let end = blocks(ids);
    for number in 0..end {
        next = put_numbered(out, s, ids, number, next);
    }
    put_entry(out, s, end, next);
    // Number 32767, count 1 and the place 65535.
    put_low(out, s.base.wrapping_add(next.start), 6, 0xFFFF00007FFF);
    next.start.wrapping_add(6)
}

// Those bytes, put nowhere.
pub fn section_bytes(ids: &[u32], power: u32) -> usize {
    let s = Section {
        power,
        ..Section::default()
    };
    put_section(&mut [0u8; 0], s, ids)
}
