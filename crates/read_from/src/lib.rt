// The pairs from an id on, block by block, into lent lists of ids and values.
#![tactic(auto)]

ghost use Rattle.std.specs.Prelude.{◌≡◌, true, false, ◌+◌, ◌*◌, ◌≤◌, ◌<◌, min, length};
ghost use Rattle.format.specs.Limits.{max_id, max_block, block_places};
ghost use Rattle.format.specs.Editions.{editions};
ghost use Rattle.format.specs.Opening.{head_ok, length_ok};
ghost use Rattle.format.specs.Next.{next_steps};
ghost use Rattle.column.specs.Opened.{column_of};
ghost use Rattle.lookup.specs.Steps.{Fair};
ghost use Rattle.next.specs.Blocks.{AskedOf};
ghost use Rattle.format.specs.ReadFrom.{is_none, read_steps, read_from, read_from_in};
ghost use Rattle.read_in_block.specs.Stretch.{Lent, StretchTo};
ghost use Rattle.read_from.specs.Blocks.{MetAs, EndIs, Roomy, FilledTo, Told, Leaves};

use answers::{Readout, Refusal};
use blocks::Block;
use column::Column;
use lookup::{Ask, Step};
use read_in_block::Stretch;

// Steps 1 to 4 for block b, and so for each of its places.
fn met_in(s: &[u8], q: Ask, b: usize) -> Step
    requires { (Fair (length s.now) q) × (b ≤ max_block) }
    ensures { MetAs s.now q b result }
{
    let a = q.entries;
    let j = q.jumps;
    let met = lookup::step_at(s, a, j, b, lookup::entry_at(s, a, j, b));
    let Step::At(block) = met else {
        return met;
    };
    let Some(block) = lookup::room_for(block, a, q.power, q.count) else {
        return Step::Broken;
    };
    Step::At(block)
}

// The pairs of block b from a place on.
fn block_from(
    ids: &mut [u32],
    values: &mut [i64],
    bytes: &[u8],
    column: Column,
    q: Ask,
    room: usize,
    from: usize,
    b: usize,
    place: usize,
) -> Stretch
    requires { (Lent bytes.now (column_of column) room from ids.old values.old) × (AskedOf (column_of column) q)
        × (Fair column.head.id_bytes q) × (b ≤ max_block) × (place < block_places) }
    ensures { StretchTo bytes.now (column_of column) room b from place ids.old values.old result ids.new
        values.new }
{
    let head = column.head;
    let start = numbers::size(column.start);
    let end = start + numbers::size(head.id_bytes);
    let met = met_in(&bytes[start..end], q, b);
    match met {
        Step::At(block) => read_in_block::pairs_in(
            ids, values, bytes, column, room, from, b, block, place,
        ),
        Step::Absent => Stretch {
            count: from,
            place: Block::PLACES,
            broken: false,
            left: false,
        },
        Step::Broken => Stretch {
            count: from,
            place,
            broken: true,
            left: false,
        },
    }
}

// Whether no id is left from a place of block b on; a failed step is a refusal.
fn ended_at(bytes: &[u8], column: Column, b: usize, place: usize) -> Result<bool, Refusal>
    requires { (head_ok (column_of column).head ≡ true) × (length_ok bytes.now (column_of column) ≡ true) × (b ≤ max_block) × (place ≤ block_places) }
    ensures { EndIs result 0 (next_steps bytes.now (column_of column) (b * block_places + place)) }
{
    let id = b * Block::PLACES + place;
    if id == next::BLOCKS * Block::PLACES {
        return Ok(true);
    }
    let next = next::steps_from(bytes, column, id as u32)?;
    Ok(next.is_none())
}

// The same after a stretch of block b. Where pairs are there and the block has an id left, it is not asked for: a failed step is then no refusal.
fn ended_after(bytes: &[u8], column: Column, b: usize, part: Stretch) -> Result<bool, Refusal>
    requires { (head_ok (column_of column).head ≡ true) × (length_ok bytes.now (column_of column) ≡ true) × (b ≤ max_block)
        × (part.place ≤ block_places) × (part.left ≡ true → is_none (next_steps bytes.now (column_of column) (b * block_places + part.place)) ≡ false) }
    ensures { EndIs result part.count (next_steps bytes.now (column_of column) (b * block_places + part.place)) }
{
    if part.left && 0 < part.count {
        return Ok(false);
    }
    ended_at(bytes, column, b, part.place)
}

// How many pairs the lists hold, and whether no id is left; a failed step is a refusal.
#[derive(Clone, Copy, Debug, PartialEq, Eq)]
struct Stop {
    count: usize,
    ended: Result<bool, Refusal>,
}

// All pairs from the target on, as many as there is room for.
fn fill(
    ids: &mut [u32],
    values: &mut [i64],
    bytes: &[u8],
    column: Column,
    room: usize,
    target: u32,
) -> Stop
    requires { (Roomy bytes.now (column_of column) room ids.old values.old) × (target ≤ max_id) }
    ensures { FilledTo bytes.now (column_of column) room target ids.old values.old result ids.new
        values.new }
{
    let head = column.head;
    let start = numbers::size(column.start);
    let end = start + numbers::size(head.id_bytes);
    let q = lookup::ask_of(column, target);
    let mut b = q.block;
    let mut r = q.place;
    let mut i: usize = 0;
    while b < next::BLOCKS {
        let part = block_from(ids, values, bytes, column, q, room, i, b, r);
        if part.broken {
            return Stop {
                count: part.count,
                ended: Err(Refusal::Broken),
            };
        }
        if part.count == room {
            return Stop {
                count: room,
                ended: ended_after(bytes, column, b, part),
            };
        }
        i = part.count;
        b = next::next_block(&bytes[start..end], q, b + 1);
        r = 0;
    }
    Stop {
        count: i,
        ended: Ok(true),
    }
}

// ---- the answer

// A failed step refuses the call where no pair comes before it.
fn told(stop: Stop) -> Result<Readout, Refusal>
    ensures { Told stop.ended stop.count result }
{
    let count = numbers::long(stop.count);
    match stop.ended {
        Ok(true) => Ok(Readout::Ended(count)),
        Ok(false) => Ok(Readout::More(count)),
        Err(why) => {
            if count == 0 {
                Err(why)
            } else {
                Ok(Readout::More(count))
            }
        }
    }
}

// On a column that keeps the header rules and fits these bytes, with room for so many pairs.
pub fn read_up_to(
    ids: &mut [u32],
    values: &mut [i64],
    bytes: &[u8],
    column: Column,
    room: usize,
    target: u32,
) -> Result<Readout, Refusal>
    requires { (Roomy bytes.now (column_of column) room ids.old values.old) × (target ≤ max_id) }
    ensures { Leaves (read_steps bytes.now (column_of column) target room) result ids.old ids.new values.old
        values.new }
{
    told(fill(ids, values, bytes, column, room, target))
}

// With room for as many as both lists take.
fn read_steps(
    ids: &mut [u32],
    values: &mut [i64],
    bytes: &[u8],
    column: Column,
    target: u32,
) -> Result<Readout, Refusal>
    requires { (head_ok (column_of column).head ≡ true) × (length_ok bytes.now (column_of column) ≡ true) × (target ≤ max_id) }
    ensures { Leaves (read_steps bytes.now (column_of column) target (min (length ids.old) (length values.old))) result
        ids.old ids.new values.old values.new }
{
    let room = ids.len().min(values.len());
    read_up_to(ids, values, bytes, column, room, target)
}

// ---- the calls

// In a column that was opened before: 14, then 10 or 11 where the column's numbers break a header rule or do not fit these bytes, then 15.
pub fn read_from_in(
    column: Column,
    bytes: &[u8],
    from: u32,
    ids: &mut [u32],
    values: &mut [i64],
) -> Result<Readout, Refusal>
    ensures { Leaves (read_from_in bytes.now (column_of column) from (min (length ids.old) (length values.old))) result
        ids.old ids.new values.old values.new }
{
    if !column::id_ok(from) {
        return Err(Refusal::Id);
    }
    if !column::head_ok(column.head) {
        return Err(Refusal::Header);
    }
    if !column::length_ok(bytes, column) {
        return Err(Refusal::Length);
    }
    read_steps(ids, values, bytes, column, from)
}

// 14, then 7 to 11, then 15.
pub fn read_from(
    bytes: &[u8],
    from: u32,
    ids: &mut [u32],
    values: &mut [i64],
) -> Result<Readout, Refusal>
    ensures { Leaves (read_from editions bytes.now from (min (length ids.old) (length values.old))) result
        ids.old ids.new values.old values.new }
{
    if !column::id_ok(from) {
        return Err(Refusal::Id);
    }
    let column = Column::open(bytes)?;
    read_steps(ids, values, bytes, column, from)
}
