// A page of ids looked up in one call in a machine column with a correction on top (document 02, [10] and [3]; the page itself is no request of
// document 02: docs/DECISIONS.md). The correction's page is stored in the lent lists; the ids that are absent there are looked up in the machine
// column, part by part (under.rt), and each answer goes to its place.
#![tactic(auto)]

ghost use Rattle.std.specs.Prelude.{◌≡◌, ◌≤◌, ◌&&◌, ◌||◌, map, length, take, ◌==◌, nat_le};
ghost use Rattle.std.proofs.lemmas.List.Edits.{sets};
ghost use Rattle.format.specs.Editions.{editions};
ghost use Rattle.format.specs.LayeredPage.{layered_page, layered_page_in};
ghost use Rattle.column.specs.Opened.{column_of, opened_of, judged_as};
ghost use Rattle.layered_page.specs.Absent.{column_by, some_absent};
ghost use Rattle.layered_page.specs.Pages.{Leaves};

use answers::Refusal;
use column::Column;
use layered::LayeredWords;

mod under;

// The kind of an absent id, as a page has it.
const ABSENT: u8 = answers::ABSENT as u8;

// The columns' numbers as a list of columns has them. (Numbers, and no `layered::Layer`: C lends the list as bytes.)
const MACHINE: u8 = 0;

const CORRECTION: u8 = 1;

// ---- the correction's page

// The column that answers an id whose kind in the correction is this one.
fn column_by(kind: u8) -> u8
    ensures { result ≡ column_by kind }
{
    if kind == ABSENT { MACHINE } else { CORRECTION }
}

// Whether an id is absent, or one before it was. (No branch: the loop of `mark` takes several kinds at once.)
fn either(some: bool, kind: u8) -> bool
    ensures { result ≡ (some || kind == 1) }
{
    some | (kind == ABSENT)
}

// The column of each place, by the correction's kinds; and whether an id is absent there.
fn mark(columns: &mut [u8], kinds: &[u8], n: usize) -> bool
    requires { (n ≤ length columns.old) × (n ≤ length kinds.now) }
    ensures { (result ≡ some_absent (take n kinds.now))
        × (columns.new ≡ sets columns.old 0 (map column_by (take n kinds.now))) }
{
    let mut some = false;
    for i in 0..n {
        let kind = kinds[i];
        columns[i] = column_by(kind);
        some = either(some, kind);
    }
    some
}

// ---- the calls

// Whether four lists have room for n.
fn roomy(n: usize, ordinals: usize, values: usize, kinds: usize, columns: usize) -> bool
    ensures { result ≡ (nat_le n ordinals && nat_le n values && nat_le n kinds && nat_le n columns) }
{
    (n <= ordinals) & (n <= values) & (n <= kinds) & (n <= columns)
}

// A column that was opened before, or any numbers in its place: 10, then 11. (`column`'s own test of it is not called: with a second caller it
// would be inlined into neither; docs/DECISIONS.md, "Speed".)
fn tested(bytes: &[u8], column: Column) -> Result<Column, Refusal>
    ensures { opened_of result ≡ judged_as bytes.now (column_of column) }
{
    if !column::head_ok(column.head) {
        return Err(Refusal::Header);
    }
    if !column::length_ok(bytes, column) {
        return Err(Refusal::Length);
    }
    Ok(column)
}

// Each place by the correction, and where the id is absent there by the machine column, which is not opened where none is; and the sums of words.
pub fn look_up_layered_page(
    machine: &[u8],
    correction: &[u8],
    ids: &[u32],
    ordinals: &mut [u64],
    values: &mut [i64],
    kinds: &mut [u8],
    columns: &mut [u8],
) -> Result<LayeredWords, Refusal>
    ensures { Leaves (layered_page editions machine.now correction.now ids.now (length ordinals.old)
        (length values.old) (length kinds.old) (length columns.old)) result ordinals.old
        ordinals.new values.old values.new kinds.old kinds.new columns.old
        columns.new }
{
    let n = ids.len();
    if !roomy(n, ordinals.len(), values.len(), kinds.len(), columns.len()) {
        return Err(Refusal::Buffer(n as u64));
    }
    let top = Column::open(correction);
    let counted = page::fill_by(ordinals, values, kinds, ids, correction, top);
    if !mark(columns, kinds, n) {
        return Ok(LayeredWords {
            machine_words: 0,
            correction_words: counted,
        });
    }
    let bottom = Column::open(machine);
    under::fill_under(
        ordinals, values, kinds, ids, machine, bottom, correction, top, counted,
    )
}

// The same from two columns that were opened before, or any numbers in their place.
pub fn look_up_layered_page_in(
    machine_column: Column,
    machine: &[u8],
    correction_column: Column,
    correction: &[u8],
    ids: &[u32],
    ordinals: &mut [u64],
    values: &mut [i64],
    kinds: &mut [u8],
    columns: &mut [u8],
) -> Result<LayeredWords, Refusal>
    ensures { Leaves (layered_page_in machine.now (column_of machine_column) correction.now (column_of correction_column)
        ids.now (length ordinals.old) (length values.old) (length kinds.old)
        (length columns.old)) result ordinals.old ordinals.new values.old values.new
        kinds.old kinds.new columns.old columns.new }
{
    let n = ids.len();
    if !roomy(n, ordinals.len(), values.len(), kinds.len(), columns.len()) {
        return Err(Refusal::Buffer(n as u64));
    }
    let top = tested(correction, correction_column);
    let counted = page::fill_by(ordinals, values, kinds, ids, correction, top);
    if !mark(columns, kinds, n) {
        return Ok(LayeredWords {
            machine_words: 0,
            correction_words: counted,
        });
    }
    let bottom = tested(machine, machine_column);
    under::fill_under(
        ordinals, values, kinds, ids, machine, bottom, correction, top, counted,
    )
}
