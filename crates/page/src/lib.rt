// A page of ids looked up in one call (document 02, [3]): the header is opened once, and each place gets what the single look-up gives.
// Where an id stands is found in marks.rt; ids that ascend in one block go on from one to the next there (runs.rt).
#![tactic(auto)]

ghost use Rattle.std.specs.Prelude.{◌≡◌, ℕ, ◌+◌, ◌/◌, ◌<◌, ◌≤◌, true, ◌&&◌, List, map, length, ◌==◌, nat_le, slice_index};
ghost use Rattle.format.specs.Limits.{block_places};
ghost use Rattle.format.specs.Refusals.{done};
ghost use Rattle.format.specs.Editions.{editions};
ghost use Rattle.format.specs.Opening.{head_ok, length_ok, value_of};
ghost use Rattle.format.specs.LookUp.{absent};
ghost use Rattle.format.specs.Page.{page};
ghost use Rattle.answers.specs.Replies.{refused_as};
ghost use Rattle.column.specs.Opened.{column_of, opened_of};
ghost use Rattle.page.specs.Openings.{look_by, Sound, Fit};
ghost use Rattle.page.specs.Marks.{with_value, BlockIs};
ghost use Rattle.page.specs.Parts.{three, Filled};
ghost use Rattle.page.specs.Placed.{Holds, Stored, Room, Paged, Leaves};
ghost use Rattle.page.specs.Runs.{Run, Way};

use answers::Refusal;
use blocks::Block;
use column::Column;
use lookup::Step;
use marks::Mark;
use runs::Part;
use scaled_values::Slot;

mod fetching;
mod marks;
mod runs;

// ---- one place of the page

// The kinds of an answer as a page has them. (Numbers, and no enum: C lends the list of kinds as bytes.)
const FOUND: u8 = answers::FOUND as u8;

const ABSENT: u8 = answers::ABSENT as u8;

// What a place holds, and the words that count. (Ordinal and value stand apart, as in `answers::Pair`.)
#[derive(Clone, Copy, Debug, PartialEq, Eq)]
struct Held {
    ordinal: u64,
    kind: u8,
    value: i64,
    words: u64,
}

fn absent(words: u64) -> Held
    ensures { Holds (done (absent words)) result }
{
    Held {
        ordinal: 0,
        kind: ABSENT,
        value: 0,
        words,
    }
}

fn refused(why: Refusal) -> Held
    ensures { Holds (refused_as why) result }
{
    Held {
        ordinal: 0,
        kind: why.number() as u8,
        value: 0,
        words: 0,
    }
}

// Step 7, on a column that keeps the header rules and fits these bytes.
fn valued(bytes: &[u8], column: Column, ordinal: u64, words: u64) -> Held
    requires { (head_ok (column_of column).head ≡ true) × (length_ok bytes.now (column_of column) ≡ true) × (ordinal < column.head.count) }
    ensures { Holds (with_value (value_of bytes.now (column_of column) ordinal) ordinal words) result }
{
    let head = column.head;
    let end = numbers::size(column.start) + numbers::size(head.id_bytes);
    let section = &bytes[end..];
    let edition = head.edition;
    let fields = head.fields;
    let slot: Option<Slot> = values::slot_of(section, edition, head.count, fields, ordinal);
    let stored = fetching::number_of(section, edition, slot);
    let Some(value) = values::value_of(section, edition, fields, slot, stored) else {
        return refused(Refusal::Broken);
    };
    Held {
        ordinal,
        kind: FOUND,
        value,
        words,
    }
}

// As the single look-up, for an id of this block in the column that was opened: 14, then 15.
fn held_in(bytes: &[u8], column: Column, id: u32, met: Step) -> Held
    requires { (head_ok (column_of column).head ≡ true) × (length_ok bytes.now (column_of column) ≡ true)
        × (BlockIs bytes.now (column_of column) (id / block_places) met) }
    ensures { Holds (look_by bytes.now (done (column_of column)) id) result }
{
    if !column::id_ok(id) {
        return refused(Refusal::Id);
    }
    let mark = marks::find(bytes, column, id, met);
    match mark {
        Mark::At { ordinal, words } => valued(bytes, column, ordinal, words),
        Mark::Absent { words } => absent(words),
        Mark::Broken => refused(Refusal::Broken),
    }
}

// The same where the header was refused: 14, then 7 to 11.
fn unopened(why: Refusal, id: u32) -> Held
    ensures { (bytes : List ℕ) → Holds (look_by bytes (refused_as why) id) result }
{
    if column::id_ok(id) {
        return refused(why);
    }
    refused(Refusal::Id)
}

// ---- the page

// Ids of one block share what steps 1 to 4 gave for it: so many blocks are kept, each in the slot of its number.
const SLOTS: usize = 16;

// Whether the id at i, after some ids of a part, shares the block that its slot has, after some blocks were met anew. Once these are many, none is
// shared any more: of ids in any order, of which now one shares and now one does not, each would be guessed wrong.
fn shared(kept: usize, number: usize, anew: usize, i: usize) -> bool
    ensures { result ≡ (kept == number && nat_le anew (32 + i / 8)) }
{
    (kept == number) & (anew <= 32 + i / 8)
}

fn put(ordinals: &mut [u64], values: &mut [i64], kinds: &mut [u8], i: usize, held: Held)
    requires { (i < length ordinals.old) × (i < length values.old) × (i < length kinds.old) }
    ensures { Stored held i ordinals.old ordinals.new values.old values.new kinds.old
        kinds.new }
{
    let value = held.value;
    ordinals[i] = held.ordinal;
    values[i] = value;
    kinds[i] = held.kind;
}

// Stores the answers of ids i to e, each of which is looked up by itself, in lists that have room. Words are added modulo 2^64.
fn fill_any(
    ordinals: &mut [u64],
    values: &mut [i64],
    kinds: &mut [u8],
    ids: &[u32],
    from: usize,
    e: usize,
    bytes: &[u8],
    column: Column,
    counted: u64,
) -> u64
    requires { (Sound bytes.now (column_of column)) × (from ≤ e) × (e ≤ length ids.now)
        × (Room e (length ordinals.old) (length values.old) (length kinds.old)) }
    ensures { Filled (look_by bytes.now (done (column_of column))) ids.now from e
        (three ordinals.old values.old kinds.old)
        (three ordinals.new values.new kinds.new) counted result }
{
    let mut words = counted;
    let none = Step::Absent;
    let mut numbers = [Block::PLACES; SLOTS];
    let mut steps = [none; SLOTS];
    let mut anew: usize = 0;
    for i in from..e {
        let id = ids[i];
        let number = blocks::number_of(id);
        let slot = number % SLOTS;
        if !shared(numbers[slot], number, anew, i - from) {
            let met = marks::met_in(bytes, column, id);
            numbers[slot] = number;
            steps[slot] = met;
            anew += 1;
        }
        let met = steps[slot];
        let held = held_in(bytes, column, id, met);
        put(ordinals, values, kinds, i, held);
        words = std::num::wrapping_add_u64(words, held.words);
    }
    words
}

// Stores the answers of ids i to e, which ascend in this block: each goes on from where the one before stood.
fn fill_run(
    ordinals: &mut [u64],
    values: &mut [i64],
    kinds: &mut [u8],
    ids: &[u32],
    from: usize,
    e: usize,
    bytes: &[u8],
    column: Column,
    block: Block,
    counted: u64,
) -> u64
    requires { (Sound bytes.now (column_of column)) × (from ≤ e) × (e ≤ length ids.now)
        × (Room e (length ordinals.old) (length values.old) (length kinds.old))
        × (Run ids.now from e) × (Way bytes.now column (slice_index ids.now from) block) }
    ensures { Filled (look_by bytes.now (done (column_of column))) ids.now from e
        (three ordinals.old values.old kinds.old)
        (three ordinals.new values.new kinds.new) counted result }
{
    let mut words = counted;
    let mut entry: usize = 0;
    for i in from..e {
        let id = ids[i];
        entry = runs::next_entry(bytes, column, block, id, entry);
        let held = runs::held_next(bytes, column, block, id, entry);
        put(ordinals, values, kinds, i, held);
        words = std::num::wrapping_add_u64(words, held.words);
    }
    words
}

// Stores the answers of a part's ids.
fn fill_part(
    ordinals: &mut [u64],
    values: &mut [i64],
    kinds: &mut [u8],
    ids: &[u32],
    from: usize,
    part: Part,
    bytes: &[u8],
    column: Column,
    counted: u64,
) -> u64
    requires { (Sound bytes.now (column_of column)) × (from < part.end) × (part.end ≤ length ids.now)
        × (Room part.end (length ordinals.old) (length values.old) (length kinds.old))
        × (part.run ≡ true → Run ids.now from part.end) }
    ensures { Filled (look_by bytes.now (done (column_of column))) ids.now from part.end
        (three ordinals.old values.old kinds.old)
        (three ordinals.new values.new kinds.new) counted result }
{
    let e = part.end;
    if !part.run {
        return fill_any(
            ordinals, values, kinds, ids, from, e, bytes, column, counted,
        );
    }
    let way = runs::way_of(bytes, column, ids[from], e - from);
    let Step::At(block) = way else {
        return fill_any(
            ordinals, values, kinds, ids, from, e, bytes, column, counted,
        );
    };
    fill_run(
        ordinals, values, kinds, ids, from, e, bytes, column, block, counted,
    )
}

// Stores the answer of each id, part after part, in lists that have room, and hands back the sum of words modulo 2^64.
fn fill(
    ordinals: &mut [u64],
    values: &mut [i64],
    kinds: &mut [u8],
    ids: &[u32],
    bytes: &[u8],
    column: Column,
) -> u64
    requires { (head_ok (column_of column).head ≡ true) × (length_ok bytes.now (column_of column) ≡ true)
        × (Room (length ids.now) (length ordinals.old) (length values.old) (length kinds.old)) }
    ensures { Paged (map (look_by bytes.now (done (column_of column))) ids.now) ordinals.old ordinals.new
        values.old values.new kinds.old kinds.new result }
{
    let mut words: u64 = 0;
    let mut i: usize = 0;
    while i < ids.len() {
        let part: Part = runs::part_at(ids, i);
        words = fill_part(ordinals, values, kinds, ids, i, part, bytes, column, words);
        i = part.end;
    }
    words
}

// The same where the header was refused.
fn refuse(
    ordinals: &mut [u64],
    values: &mut [i64],
    kinds: &mut [u8],
    ids: &[u32],
    why: Refusal,
) -> u64
    requires { Room (length ids.now) (length ordinals.old) (length values.old) (length kinds.old) }
    ensures { (bytes : List ℕ) → Paged (map (look_by bytes (refused_as why)) ids.now) ordinals.old ordinals.new
        values.old values.new kinds.old kinds.new result }
{
    let mut words: u64 = 0;
    for (i, id) in ids.iter().enumerate() {
        let place = unopened(why, *id);
        put(ordinals, values, kinds, i, place);
        words = std::num::wrapping_add_u64(words, place.words);
    }
    words
}

// The answers by a header that was opened, or refused, in lists that have room; and the sum of words modulo 2^64.
pub fn fill_by(
    ordinals: &mut [u64],
    values: &mut [i64],
    kinds: &mut [u8],
    ids: &[u32],
    bytes: &[u8],
    opening: Result<Column, Refusal>,
) -> u64
    requires { (Fit bytes.now opening) × (Room (length ids.now) (length ordinals.old) (length values.old) (length kinds.old)) }
    ensures { Paged (map (look_by bytes.now (opened_of opening)) ids.now) ordinals.old ordinals.new
        values.old values.new kinds.old kinds.new result }
{
    match opening {
        Err(why) => refuse(ordinals, values, kinds, ids, why),
        Ok(c) => fill(ordinals, values, kinds, ids, bytes, c),
    }
}

// The page's lists filled, and the sum of words; 12 where a list is shorter than the ids, before a byte is read or written.
pub fn look_up_page(
    bytes: &[u8],
    ids: &[u32],
    ordinals: &mut [u64],
    values: &mut [i64],
    kinds: &mut [u8],
) -> Result<u64, Refusal>
    ensures { Leaves
        (page editions bytes.now ids.now (length ordinals.old) (length values.old)
        (length kinds.old)) result ordinals.old ordinals.new values.old values.new
        kinds.old kinds.new }
{
    let n = ids.len();
    if ordinals.len() < n {
        return Err(Refusal::Buffer(n as u64));
    }
    if values.len() < n {
        return Err(Refusal::Buffer(n as u64));
    }
    if kinds.len() < n {
        return Err(Refusal::Buffer(n as u64));
    }
    if n == 0 {
        return Ok(0);
    }
    let opening = Column::open(bytes);
    Ok(fill_by(ordinals, values, kinds, ids, bytes, opening))
}
