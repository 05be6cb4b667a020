// One block of a set on disk (document 02, [14]): its numbers, each held to its limits at once, its data, and its count; or the first
// fault of its bytes.
#![tactic(auto)]

ghost use Rattle.std.specs.Prelude.{◌≡◌, true, false, cond, ◌&&◌, ◌+◌, ◌*◌, ◌≤◌, leb, eqb, length, drop, MatchOption};
ghost use Rattle.format.specs.Limits.{max_block, max_listed, max_kind, bitmap_longs, bitmap_bytes};
ghost use Rattle.format.specs.IdsRead.{shorts};
ghost use Rattle.format.specs.LookUp.{ones_from};
ghost use Rattle.format.specs.Pairs.{asc_from};
ghost use Rattle.format.specs.SetBytes.{set_kind};
ghost use Rattle.format.specs.SetCalls.{list_length_ok, set_data_bytes, set_data_ok, set_places, data_from, length_from, kind_from, block_from};
ghost use Rattle.set_blocks.specs.Kinds.{kind_number};
ghost use Rattle.set_blocks.specs.Found.{head_of, Counted};

use answers::{ByteOrder, Refusal};
use blocks::Block;

// How a block's ids are kept: listed, the missing ones listed, or in a bitmap.
#[derive(Clone, Copy, Debug, PartialEq, Eq)]
pub enum SetKind {
    Listed,
    Missing,
    Bitmap,
}

impl SetKind {
    // The number that it has on disk.
    pub fn number(self) -> u64
        ensures { result ≡ kind_number self }
    {
        match self {
            SetKind::Listed => 0,
            SetKind::Missing => 1,
            SetKind::Bitmap => 2,
        }
    }

    // The kind of a number.
    fn numbered(n: u64) -> Option<SetKind>
        ensures { MatchOption result (leb n max_kind ≡ false) (λ kind. (kind_number kind ≡ n) × (leb n max_kind ≡ true)) }
    {
        match n {
            0 => Some(SetKind::Listed),
            1 => Some(SetKind::Missing),
            2 => Some(SetKind::Bitmap),
            _ => None,
        }
    }
}

// A block's number, its kind, the length of its list, where its data start, and how many ids it has.
#[derive(Clone, Copy, Debug, PartialEq, Eq)]
pub struct SetBlock {
    pub block: u64,
    pub kind: SetKind,
    pub long: usize,
    pub start: usize,
    pub count: u64,
}

impl SetBlock {
    // The most ids that are listed; fewer missing ones than this are.
    pub const MAX_LISTED: u64 = 4096;
    // The most ids of a bitmap: with one more, fewer than 4096 are missing.
    pub const MAX_BITMAP: u64 = 61440;
}

// ---- the data, by their kind

// The kind of a block of c ids.
pub fn kind_of(c: u64) -> SetKind
    ensures { kind_number result ≡ set_kind c }
{
    if c <= SetBlock::MAX_LISTED {
        return SetKind::Listed;
    }
    if c > SetBlock::MAX_BITMAP {
        return SetKind::Missing;
    }
    SetKind::Bitmap
}

// Whether a list of this kind can have this length.
fn length_ok(kind: SetKind, c: u64) -> bool
    ensures { result ≡ list_length_ok (kind_number kind) c }
{
    match kind {
        SetKind::Listed => 1 <= c && c <= SetBlock::MAX_LISTED,
        SetKind::Missing => c < SetBlock::MAX_LISTED,
        SetKind::Bitmap => c == 0,
    }
}

// The bytes of the data.
pub fn data_bytes(kind: SetKind, c: usize) -> usize
    requires { c ≤ max_listed }
    ensures { (result ≡ set_data_bytes (kind_number kind) c) × (result ≤ bitmap_bytes) }
{
    match kind {
        SetKind::Listed => 2 * c,
        SetKind::Missing => 2 * c,
        SetKind::Bitmap => Block::BITMAP_BYTES,
    }
}

// How many ids a bitmap holds; 0 if that is another kind's count.
fn bitmap_count(s: &[u8], at: usize) -> u64
    requires { at + bitmap_bytes ≤ length s.now }
    ensures { result ≡ cond (eqb (set_kind (ones_from s.now at bitmap_longs 0)) 2) (ones_from s.now at bitmap_longs 0) 0 }
{
    let ones = blocks::ones_from(s, at, Block::LONGS, 0);
    match kind_of(ones) {
        SetKind::Bitmap => ones,
        _ => 0,
    }
}

// How many ids a list of c shorts stands for, which are n if it ascends; 0 if it does not.
fn list_count(s: &[u8], at: usize, c: usize, n: usize) -> u64
    requires { at + 2 * c ≤ length s.now }
    ensures { result ≡ cond (asc_from 0 (shorts c (drop at s.now))) n 0 }
{
    if section_check::ascending(s, ByteOrder::LowFirst, at, c) {
        numbers::long(n)
    } else {
        0
    }
}

// How many ids the data hold; 0, which no block has, if they are cut off, or a list does not ascend, or a bitmap's count is another kind's.
fn data_count(s: &[u8], at: usize, kind: SetKind, c: usize) -> u64
    requires { list_length_ok (kind_number kind) c ≡ true }
    ensures { result
        ≡ cond (set_data_ok (kind_number kind) c s.now at) (length (set_places (kind_number kind) c (drop at s.now))) 0 }
{
    if at > s.len() {
        return 0;
    }
    if s.len() - at < data_bytes(kind, c) {
        return 0;
    }
    match kind {
        SetKind::Listed => list_count(s, at, c, c),
        SetKind::Missing => list_count(s, at, c, Block::PLACES - c),
        SetKind::Bitmap => bitmap_count(s, at),
    }
}

// ---- the block, from its last step to its first

// The data.
fn data_from(s: &[u8], at: usize, block: u64, kind: SetKind, c: usize) -> Result<SetBlock, Refusal>
    requires { list_length_ok (kind_number kind) c ≡ true }
    ensures { (head_of result ≡ data_from block (kind_number kind) c s.now at) × Counted s.now result }
{
    let count = data_count(s, at, kind, c);
    if count == 0 {
        return Err(Refusal::Damaged);
    }
    Ok(SetBlock {
        block,
        kind,
        long: c,
        start: at,
        count,
    })
}

// The list length, and what follows.
fn length_from(s: &[u8], at: usize, block: u64, kind: SetKind) -> Result<SetBlock, Refusal>
    ensures { (head_of result ≡ length_from block (kind_number kind) s.now at) × Counted s.now result }
{
    let number = column::number_at(s, at)?;
    if !length_ok(kind, number.value) {
        return Err(Refusal::Damaged);
    }
    data_from(s, number.next, block, kind, numbers::size(number.value))
}

// The kind, and what follows.
fn kind_from(s: &[u8], at: usize, block: u64) -> Result<SetBlock, Refusal>
    ensures { (head_of result ≡ kind_from block s.now at) × Counted s.now result }
{
    let number = column::number_at(s, at)?;
    let Some(kind) = SetKind::numbered(number.value) else {
        return Err(Refusal::Damaged);
    };
    length_from(s, number.next, block, kind)
}

// Whether a block may have this number, where the numbers before it are below `least`.
fn block_ok(least: u64, block: u64) -> bool
    ensures { result ≡ (leb least block && leb block max_block) }
{
    if block < least {
        return false;
    }
    block <= limits::MAX_BLOCK
}

// The block at a place, numbered `least` or above.
pub fn block_from(s: &[u8], at: usize, least: u64) -> Result<SetBlock, Refusal>
    ensures { (head_of result ≡ block_from least s.now at) × Counted s.now result }
{
    let number = column::number_at(s, at)?;
    if !block_ok(least, number.value) {
        return Err(Refusal::Damaged);
    }
    kind_from(s, number.next, number.value)
}
