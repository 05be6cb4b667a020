// The next scored candidate (document 02, [1]): the first listed id at or above a target, block by block.
#![tactic(auto)]

ghost use Rattle.std.specs.Prelude.{◌≡◌, true, ℕ, ◌+◌, ◌*◌, ◌≤◌, ◌<◌, length, ltb};
ghost use Rattle.format.specs.Limits.{max_id, max_block, block_places};
ghost use Rattle.format.specs.Editions.{editions};
ghost use Rattle.format.specs.Opening.{head_ok, length_ok, value_of};
ghost use Rattle.format.specs.Next.{next_steps, next, next_in};
ghost use Rattle.answers.specs.Replies.{refused_as, candidate_of};
ghost use Rattle.values.specs.Edition.{fetched_of};
ghost use Rattle.column.specs.Opened.{column_of};
ghost use Rattle.lookup.specs.Steps.{Fair};
ghost use Rattle.next.specs.Blocks.{BlockAs, PassedTo, WalkedAs, Told};

use answers::{Cursor, Next, Pair, Refusal};
use blocks::Block;
use column::Column;
use lookup::{Ask, Step};
use next_in_block::First;
use scaled_values::Slot;

// The blocks that ids have, as a number to count them by.
pub const BLOCKS: usize = limits::MAX_BLOCKS as usize;

// An id of the id section with its ordinal.
#[derive(Clone, Copy, Debug, PartialEq, Eq)]
struct Met {
    id: u32,
    ordinal: u64,
}

pub fn id_of(b: usize, place: usize) -> u32
    requires { (b ≤ max_block) × (place < block_places) }
    ensures { result ≡ b * block_places + place }
{
    (b * Block::PLACES + place) as u32
}

// The first id of block b from place r on; a failed step is a refusal.
fn in_block(s: &[u8], q: Ask, b: usize, r: usize) -> Result<Option<Met>, Refusal>
    requires { (Fair (length s.now) q) × (b ≤ max_block) × (r < block_places) }
    ensures { BlockAs s.now q b r result }
{
    let a = q.entries;
    let j = q.jumps;
    let p = q.power;
    let met = lookup::step_at(s, a, j, b, lookup::entry_at(s, a, j, b));
    let Step::At(block) = met else {
        return match met {
            Step::Absent => Ok(None),
            _ => Err(Refusal::Broken),
        };
    };
    let Some(block) = lookup::room_for(block, a, p, q.count) else {
        return Err(Refusal::Broken);
    };
    let first = next_in_block::first_in(s, block, p, r);
    let First::At { place, inner } = first else {
        return match first {
            First::Nothing => Ok(None),
            _ => Err(Refusal::Broken),
        };
    };
    Ok(Some(Met {
        id: id_of(b, place),
        ordinal: block.ordinal + inner,
    }))
}

// From block b on, the first that is not passed over at once: from the last jump entry on all blocks go by one entry, and without
// entries all do.
pub fn next_block(s: &[u8], q: Ask, b: usize) -> usize
    requires { (Fair (length s.now) q) × (b ≤ max_block + 1) }
    ensures { PassedTo s.now q b result }
{
    let a = q.entries;
    let j = q.jumps;
    if b + 1 < j {
        return b;
    }
    let e = lookup::entry_at(s, a, j, b);
    let at = e.start;
    if a < at + 4 {
        return b;
    }
    let k = numbers::size(numbers::short_at(s, at));
    if b < k {
        return k.min(BLOCKS);
    }
    if b == k {
        return b;
    }
    if j == 0 {
        return BLOCKS;
    }
    b
}

// The first id from the asked one on, block by block.
fn walk(s: &[u8], q: Ask) -> Result<Option<Met>, Refusal>
    requires { (Fair (length s.now) q) × (q.block ≤ max_block) }
    ensures { WalkedAs s.now q result }
{
    let mut b = q.block;
    let mut r = q.place;
    while b < BLOCKS {
        if let Some(met) = in_block(s, q, b, r)? {
            return Ok(Some(met));
        }
        b = next_block(s, q, b + 1);
        r = 0;
    }
    Ok(None)
}

// ---- the answer

// The value of one ordinal (step 7). (Inlined: three crates call it, one of them for each pair.)
#[inline(always)]
pub fn value_at(bytes: &[u8], column: Column, ordinal: u64) -> Option<i64>
    requires { (head_ok (column_of column).head ≡ true) × (length_ok bytes.now (column_of column) ≡ true) × (ordinal < column.head.count) }
    ensures { fetched_of result ≡ value_of bytes.now (column_of column) ordinal }
{
    let head = column.head;
    let end = numbers::size(column.start) + numbers::size(head.id_bytes);
    let section = &bytes[end..];
    let edition = head.edition;
    let fields = head.fields;
    let slot: Option<Slot> = values::slot_of(section, edition, head.count, fields, ordinal);
    let stored = values::number_in(section, edition, slot);
    values::value_of(section, edition, fields, slot, stored)
}

// On a column that keeps the header rules and fits these bytes.
pub fn steps_from(bytes: &[u8], column: Column, target: u32) -> Result<Option<Pair>, Refusal>
    requires { (head_ok (column_of column).head ≡ true) × (length_ok bytes.now (column_of column) ≡ true) × (target ≤ max_id) }
    ensures { candidate_of result ≡ next_steps bytes.now (column_of column) target }
{
    let head = column.head;
    let start = numbers::size(column.start);
    let end = start + numbers::size(head.id_bytes);
    let Some(met) = walk(&bytes[start..end], lookup::ask_of(column, target))? else {
        return Ok(None);
    };
    let Some(value) = value_at(bytes, column, met.ordinal) else {
        return Err(Refusal::Broken);
    };
    Ok(Some(Pair {
        id: met.id,
        ordinal: met.ordinal,
        value,
    }))
}

// ---- the calls

// A refusal keeps the cursor.
fn refused(cursor: Cursor, why: Refusal) -> Next
    ensures { (t : ℕ) → Told (refused_as why) cursor.last t result }
{
    Next {
        cursor,
        candidate: Err(why),
    }
}

// An answer moves it to the target.
fn answered(cursor: Cursor, target: u32, candidate: Result<Option<Pair>, Refusal>) -> Next
    ensures { Told (candidate_of candidate) cursor.last target result }
{
    match candidate {
        Ok(pair) => Next {
            cursor: Cursor {
                last: u64::from(target),
            },
            candidate: Ok(pair),
        },
        Err(why) => refused(cursor, why),
    }
}

// Whether the target lies below the last one answered.
fn goes_back(cursor: Cursor, target: u32) -> bool
    ensures { result ≡ ltb target cursor.last }
{
    u64::from(target) < cursor.last
}

// In a column that was opened before: 14, 16, then 10 or 11 where the column's numbers break a header rule or do not fit these bytes,
// then 15.
pub fn next_in(column: Column, cursor: Cursor, bytes: &[u8], target: u32) -> Next
    ensures { Told (next_in bytes.now (column_of column) cursor.last target) cursor.last target result }
{
    if !column::id_ok(target) {
        return refused(cursor, Refusal::Id);
    }
    if goes_back(cursor, target) {
        return refused(cursor, Refusal::Back);
    }
    if !column::head_ok(column.head) {
        return refused(cursor, Refusal::Header);
    }
    if !column::length_ok(bytes, column) {
        return refused(cursor, Refusal::Length);
    }
    answered(cursor, target, steps_from(bytes, column, target))
}

// 14, then 16, then 7 to 11, then 15.
pub fn next(cursor: Cursor, bytes: &[u8], target: u32) -> Next
    ensures { Told (next editions bytes.now cursor.last target) cursor.last target result }
{
    if !column::id_ok(target) {
        return refused(cursor, Refusal::Id);
    }
    if goes_back(cursor, target) {
        return refused(cursor, Refusal::Back);
    }
    match Column::open(bytes) {
        Err(why) => refused(cursor, why),
        Ok(column) => answered(cursor, target, steps_from(bytes, column, target)),
    }
}
