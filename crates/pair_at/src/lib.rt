// The pair with an ordinal: its block by halving the jump entries, its place there by its index, its value by step 7.
#![tactic(auto)]

ghost use Rattle.std.specs.Prelude.{◌≡◌, true, ◌+◌, ◌*◌, ◌≤◌, ◌<◌, length};
ghost use Rattle.format.specs.Bytes.{low_at};
ghost use Rattle.format.specs.Editions.{editions};
ghost use Rattle.format.specs.Opening.{head_ok, length_ok};
ghost use Rattle.answers.specs.Replies.{candidate_of};
ghost use Rattle.column.specs.Opened.{column_of};
ghost use Rattle.lookup.specs.Steps.{Fair};
ghost use Rattle.format.specs.PairAt.{pair_steps, pair_at, pair_at_in};
ghost use Rattle.pair_at.specs.Held.{NumberAt, HeldAs};

use answers::{Pair, Refusal};
use blocks::Block;
use column::Column;
use lookup::Ask;

mod halving;
mod places;

// ---- steps 1 to 4

// The number of the block whose head stands at `at`, before a: any block of ids, and with jump entries the one of entry b.
fn number_at(s: &[u8], a: usize, jumps: usize, b: usize, at: usize) -> Option<usize>
    requires { (a ≤ length s.now) × (at < 4294967296) }
    ensures { NumberAt s.now a jumps b at result }
{
    if a < at + 4 {
        return None;
    }
    let k = numbers::size(numbers::short_at(s, at));
    if next::BLOCKS <= k {
        return None;
    }
    if 0 < jumps {
        if k != b {
            return None;
        }
    }
    Some(k)
}

// From the last jump entry at or below the ordinal: the block there with its number, if its data end in time and it holds the ordinal. None is a
// failed step.
fn held_in(s: &[u8], q: Ask, ordinal: u64) -> Option<(usize, Block)>
    requires { (Fair (length s.now) q) × (ordinal < q.count) }
    ensures { HeldAs s.now q ordinal result }
{
    let a = q.entries;
    let j = q.jumps;
    let entry = |k: usize| -> u64
        requires { a + 8 * k + 4 ≤ length s.now }
        ensures { result ≡ low_at 4 s.entry.now (a + 8 * k) }
    { numbers::int_at(s, a + 8 * k) };
    let b = halving::last_up_to(entry, j, ordinal);
    let e = lookup::entry_at(s, a, j, b);
    let at = e.start;
    let number = number_at(s, a, j, b, at)?;
    let count = numbers::size(numbers::short_at(s, at + 2) + 1);
    let kind = blocks::kind_of(count);
    let head = Block {
        start: at + 4,
        ordinal: e.ordinal,
        count,
        kind,
    };
    let block = lookup::room_for(head, a, q.power, q.count)?;
    if ordinal < block.ordinal {
        return None;
    }
    if block.ordinal + numbers::long(block.count) <= ordinal {
        return None;
    }
    Some((number, block))
}

// ---- the calls

// On a column that keeps the header rules and fits these bytes.
fn steps_at(bytes: &[u8], column: Column, ordinal: u64) -> Result<Option<Pair>, Refusal>
    requires { (head_ok (column_of column).head ≡ true) × (length_ok bytes.now (column_of column) ≡ true) }
    ensures { candidate_of result ≡ pair_steps bytes.now (column_of column) ordinal }
{
    let head = column.head;
    if head.count <= ordinal {
        return Ok(None);
    }
    let start = numbers::size(column.start);
    let end = start + numbers::size(head.id_bytes);
    let s = &bytes[start..end];
    let q = lookup::ask_of(column, 0);
    let Some((number, block)) = held_in(s, q, ordinal) else {
        return Err(Refusal::Broken);
    };
    let Some(place) = places::place_with(s, block, q.power, ordinal - block.ordinal) else {
        return Err(Refusal::Broken);
    };
    let Some(value) = next::value_at(bytes, column, ordinal) else {
        return Err(Refusal::Broken);
    };
    Ok(Some(Pair {
        id: next::id_of(number, place),
        ordinal,
        value,
    }))
}

// In a column that was opened before: 10 or 11 where the column's numbers break a header rule or do not fit these bytes, then 15.
pub fn pair_at_in(column: Column, bytes: &[u8], ordinal: u64) -> Result<Option<Pair>, Refusal>
    ensures { candidate_of result ≡ pair_at_in bytes.now (column_of column) ordinal }
{
    if !column::head_ok(column.head) {
        return Err(Refusal::Header);
    }
    if !column::length_ok(bytes, column) {
        return Err(Refusal::Length);
    }
    steps_at(bytes, column, ordinal)
}

// 7 to 11, then 15.
pub fn pair_at(bytes: &[u8], ordinal: u64) -> Result<Option<Pair>, Refusal>
    ensures { candidate_of result ≡ pair_at editions bytes.now ordinal }
{
    steps_at(bytes, Column::open(bytes)?, ordinal)
}
