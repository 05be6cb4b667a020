// Ids of a page that ascend in one block of a column of edition 1: each goes on from where the one before stood. In a sparse block that is its
// entry: the entries are tested once to ascend, so that any search finds what halving them finds. In a full block nothing is searched.
ghost use Rattle.std.specs.Prelude.{◌≡◌, ℕ, ◌+◌, ◌*◌, ◌/◌, ◌%◌, ◌<◌, ◌≤◌, true, ◌&&◌, length, drop, ◌≢◌, nat_lt};
ghost use Rattle.format.specs.Limits.{max_count, block_places, dense_count};
ghost use Rattle.format.specs.Ids.{sparse, dense, kind_of, data_bytes};
ghost use Rattle.format.specs.Bytes.{low_at};
ghost use Rattle.format.specs.Refusals.{done};
ghost use Rattle.format.specs.Opening.{head_ok, length_ok, id_part, value_of};
ghost use Rattle.format.specs.LookUp.{halved, in_sparse, place_at, steps};
ghost use Rattle.format.specs.IdsRead.{shorts};
ghost use Rattle.blocks.specs.Kinds.{kind_is};
ghost use Rattle.column.specs.Opened.{column_of};
ghost use Rattle.values.specs.declared.Edition as Ed;
ghost use Rattle.page.specs.Marks.{with_value, mark_of, marked, Listed};
ghost use Rattle.page.specs.Openings.{look_by, Sound};
ghost use Rattle.page.specs.Placed.{Holds};
ghost use Rattle.page.specs.Runs.{Run, Climbs, Ready, Reached, ReadyIn, ReachedIn, Way, WayIs};

use super::marks::{Mark, id_section};
use super::{Held, absent, refused};
use answers::Refusal;
use blocks::{Block, Kind};
use column::Column;
use lookup::Step;
use scaled_values::Slot;
use values::Edition;

// ---- which ids are a run

// A part of the page: where it ends, and whether its ids are a run.
#[derive(Clone, Copy, Debug, PartialEq, Eq)]
pub struct Part {
    pub end: usize,
    pub run: bool,
}

// Whether y is of x's block and not below it.
fn follows(x: u32, y: u32) -> bool
    ensures { result ≡ true → (x ≤ y) × (y / block_places ≡ x / block_places) }
{
    (x <= y) & (blocks::number_of(x) == blocks::number_of(y))
}

// Where the ids end that ascend in one block from i on.
fn run_end(ids: &[u32], i: usize) -> usize
    requires { i < length ids.now }
    ensures { (i < result) × (result ≤ length ids.now) × (Run ids.now i result) }
{
    for e in i + 1..ids.len() {
        if !follows(ids[e - 1], ids[e]) {
            return e;
        }
    }
    ids.len()
}

// The part from i on: a run, if it is long enough to be worth it.
pub fn part_at(ids: &[u32], i: usize) -> Part
    requires { i < length ids.now }
    ensures { (i < result.end) × (result.end ≤ length ids.now) × (result.run ≡ true → Run ids.now i result.end) }
{
    let n = ids.len();
    let e = run_end(ids, i);
    if 16 < e - i {
        return Part { end: e, run: true };
    }
    if 1024 < n - i {
        return Part {
            end: i + 1024,
            run: false,
        };
    }
    Part { end: n, run: false }
}

// ---- a sparse block's entries

// Whether all was right, and x is above y. Both are asked at once: no branch.
fn above(right: bool, x: u64, y: u64) -> bool
    ensures { result ≡ (right && nat_lt y x) }
{
    right & (y < x)
}

// The entries ascend. The loop does not stop at one that does not, and so takes several at once.
fn climb(s: &[u8], at: usize, count: usize) -> bool
    requires { at + 2 * count ≤ length s.now }
    ensures { result ≡ true → Climbs s.now at count }
{
    let mut right = true;
    for i in 1..count {
        let x = numbers::short_at(s, at + 2 * i);
        let y = numbers::short_at(s, at + 2 * (i - 1));
        right = above(right, x, y);
    }
    right
}

// The first entry from `from` on that is not below r.
fn reached(s: &[u8], at: usize, count: usize, from: usize, r: u64) -> usize
    requires { (at + 2 * count ≤ length s.now) × (from ≤ count) × (Ready s.now at from r) }
    ensures { Reached s.now at count result r }
{
    for j in from..count {
        if r <= numbers::short_at(s, at + 2 * j) {
            return j;
        }
    }
    count
}

// Place r of a sparse block, where j is the first entry that is not below it.
fn entry_mark(s: &[u8], block: Block, j: usize, r: u64) -> Mark
    requires { (block.start + 2 * block.count ≤ length s.now) × (block.count < dense_count) × (block.ordinal + block.count ≤ max_count)
        × (Climbs s.now block.start block.count) × (Reached s.now block.start block.count j r) }
    ensures { (result ≡ mark_of block.ordinal (in_sparse (halved r (shorts block.count (drop block.start s.now)))))
        × (Listed (block.ordinal + block.count) result) }
{
    let at = block.start;
    if block.count <= j {
        return Mark::Absent { words: 0 };
    }
    if numbers::short_at(s, at + 2 * j) == r {
        return Mark::At {
            ordinal: block.ordinal + numbers::long(j),
            words: 0,
        };
    }
    Mark::Absent { words: 0 }
}

// ---- an id of a run

// The entry to which place r comes from that of a place before. (Only a sparse block has entries.)
fn entry_from(s: &[u8], block: Block, r: usize, from: usize) -> usize
    requires { (kind_is block.kind ≡ kind_of block.count)
        × (kind_of block.count ≡ sparse → (block.start + 2 * block.count ≤ length s.now) × (from ≤ block.count) × (Ready s.now block.start from r)) }
    ensures { kind_of block.count ≡ sparse → Reached s.now block.start block.count result r }
{
    let kind = block.kind;
    let at = block.start;
    match kind {
        Kind::Sparse => reached(s, at, block.count, from, numbers::long(r)),
        Kind::Dense => from,
        Kind::All => from,
    }
}

pub fn next_entry(bytes: &[u8], column: Column, block: Block, id: u32, from: usize) -> usize
    requires { (Sound bytes.now (column_of column)) × (Way bytes.now column id block)
        × (ReadyIn bytes.now (column_of column) block from (id % block_places)) }
    ensures { ReachedIn bytes.now (column_of column) block result (id % block_places) }
{
    entry_from(id_section(bytes, column), block, blocks::place_of(id), from)
}

// Place r of a block, which comes to this entry. (No run is in a dense block.)
fn mark_at(s: &[u8], block: Block, r: usize, entry: usize) -> Mark
    requires { (r < block_places) × (kind_is block.kind ≡ kind_of block.count) × (kind_of block.count ≢ dense)
        × (block.ordinal + block.count ≤ max_count)
        × (kind_of block.count ≡ sparse → (block.start + 2 * block.count ≤ length s.now) × (Climbs s.now block.start block.count)
        × (Reached s.now block.start block.count entry r)) }
    ensures { ((p : ℕ) → result ≡ mark_of block.ordinal (place_at halved p s.now block.start block.count r))
        × (Listed (block.ordinal + block.count) result) }
{
    let kind = block.kind;
    match kind {
        Kind::Sparse => entry_mark(s, block, entry, numbers::long(r)),
        Kind::Dense => Mark::Broken,
        Kind::All => Mark::At {
            ordinal: block.ordinal + numbers::long(r),
            words: 0,
        },
    }
}

// Where an id of this block stands, which comes to this entry.
fn mark_next(bytes: &[u8], column: Column, block: Block, id: u32, entry: usize) -> Mark
    requires { (Sound bytes.now (column_of column)) × (Way bytes.now column id block)
        × (ReachedIn bytes.now (column_of column) block entry (id % block_places)) }
    ensures { (marked bytes.now (column_of column) result ≡ steps halved bytes.now (column_of column) id)
        × (Listed column.head.count result) }
{
    mark_at(
        id_section(bytes, column),
        block,
        blocks::place_of(id),
        entry,
    )
}

// Step 7 for an id of a run. (Beside `page::valued`: what two loops call is compiled into neither. That the edition is 1 makes it shorter.)
fn plain_valued(bytes: &[u8], column: Column, ordinal: u64, words: u64) -> Held
    requires { (head_ok (column_of column).head ≡ true) × (length_ok bytes.now (column_of column) ≡ true) × (ordinal < column.head.count)
        × (column.head.edition ≡ Ed.Edition.Plain) }
    ensures { Holds (with_value (value_of bytes.now (column_of column) ordinal) ordinal words) result }
{
    let head = column.head;
    let end = numbers::size(column.start) + numbers::size(head.id_bytes);
    let section = &bytes[end..];
    let fields = head.fields;
    let slot: Option<Slot> = values::slot_of(section, Edition::Plain, head.count, fields, ordinal);
    let stored = super::fetching::plain_in(section, slot);
    let Some(value) = values::value_of(section, Edition::Plain, fields, slot, stored) else {
        return refused(Refusal::Broken);
    };
    Held {
        ordinal,
        kind: super::FOUND,
        value,
        words,
    }
}

// As the single look-up, for an id of a run.
pub fn held_next(bytes: &[u8], column: Column, block: Block, id: u32, entry: usize) -> Held
    requires { (Sound bytes.now (column_of column)) × (Way bytes.now column id block)
        × (ReachedIn bytes.now (column_of column) block entry (id % block_places)) }
    ensures { Holds (look_by bytes.now (done (column_of column)) id) result }
{
    let mark = mark_next(bytes, column, block, id, entry);
    match mark {
        Mark::At { ordinal, words } => plain_valued(bytes, column, ordinal, words),
        Mark::Absent { words } => absent(words),
        Mark::Broken => refused(Refusal::Broken),
    }
}

// ---- whether it is worth it

// Whether n ids can go on from one to the next in this block. The test of a sparse block's entries must be worth it, and in a dense one the
// ranks lead to a place as quickly.
fn worth(bytes: &[u8], column: Column, block: Block, n: usize) -> bool
    requires { (head_ok (column_of column).head ≡ true) × (length_ok bytes.now (column_of column) ≡ true)
        × (kind_is block.kind ≡ kind_of block.count)
        × (block.start + data_bytes (column_of column).head.power block.count ≤ length (id_part bytes.now (column_of column))) }
    ensures { result ≡ true → (kind_of block.count ≢ dense)
        × (kind_of block.count ≡ sparse → Climbs (id_part bytes.now (column_of column)) block.start block.count) }
{
    let kind = block.kind;
    let count = block.count;
    let at = block.start;
    match kind {
        Kind::Sparse => {
            if n < count / 16 {
                return false;
            }
            climb(id_section(bytes, column), at, count)
        }
        Kind::Dense => false,
        Kind::All => true,
    }
}

// The block of a run of n ids, the first of which is this one, if they can go on from one to the next there.
pub fn way_of(bytes: &[u8], column: Column, id: u32, n: usize) -> Step
    requires { (head_ok (column_of column).head ≡ true) × (length_ok bytes.now (column_of column) ≡ true) }
    ensures { WayIs bytes.now column id result }
{
    if !column::id_ok(id) {
        return Step::Absent;
    }
    let head = column.head;
    let edition = head.edition;
    let Edition::Plain = edition else {
        return Step::Absent;
    };
    let met = super::marks::met_in(bytes, column, id);
    let Step::At(block) = met else {
        return Step::Absent;
    };
    if worth(bytes, column, block, n) {
        return Step::At(block);
    }
    Step::Absent
}
