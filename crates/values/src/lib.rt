// Values by edition: this crate alone knows what an edition does with values. Each function hands on to the edition's own crates.
#![tactic(auto)]

ghost use Rattle.std.specs.Prelude.{◌≡◌, true, false, cond, List, ◌++◌, ◌+◌, ◌-◌, ◌*◌, ◌≤◌, ◌<◌, ℤ, eqb, length, drop};
ghost use Rattle.std.proofs.Math.Option.{some};
ghost use Rattle.std.proofs.lemmas.List.Edits.{sets};
ghost use Rattle.format.specs.Limits.{max_count, max_width};
ghost use Rattle.format.specs.Pairs.{Each, Fits};
ghost use Rattle.format.specs.Editions.{plain, runs, table, codec};
ghost use Rattle.format.specs.Check.{all_values};
ghost use Rattle.format.specs.Drawn.{drawn};
ghost use Rattle.scaled_values.specs.Slots.{Stands, slot_number};
ghost use Rattle.values.specs.Edition.{edition_of, layout_of, order_of, Readable, stored_value, SlotOf, fields_of, fetched_of, tests, PlanFor};

pub use answers::Fields;
use packings::Order;
use scaled_values::Slot;

// The editions of a column.
#[derive(Clone, Copy, Debug, PartialEq, Eq)]
pub enum Edition {
    // Document 01's, edition 1.
    Plain,
    // Lucene 9's packing, edition 2 (document 02, [6]).
    Lucene,
    // Runs of values with a summary each, edition 3 (document 02, [11]).
    Runs,
    // A table of few distinct values, edition 4 (document 02, [12]).
    Table,
}

// How an edition's values are laid out: with one smallest value, divisor and width, by a packing; in runs; or by a table.
#[derive(Clone, Copy)]
enum Layout {
    Whole(Order),
    Runs,
    Table,
}

fn layout_of(edition: Edition) -> Layout
    ensures { result ≡ layout_of (edition_of edition) }
{
    match edition {
        Edition::Plain => Layout::Whole(Order::High),
        Edition::Lucene => Layout::Whole(Order::Low),
        Edition::Runs => Layout::Runs,
        Edition::Table => Layout::Table,
    }
}

// Whether the header's fields, and v as the value section's length, keep the header rules on the n values.
pub fn rules(edition: Edition, n: u64, fields: Fields, v: u64) -> bool
    requires { (n ≤ max_count) × (fields.width ≤ max_width) }
    ensures { result ≡ (codec (edition_of edition)).fields_ok n (fields_of fields) v }
{
    let packed = packing::packed_bytes(n, fields.width);
    match layout_of(edition) {
        Layout::Whole(order) => scaled_values::rules(order, fields, packed, v),
        Layout::Runs => run_values::rules(n, fields, v),
        Layout::Table => table_values::rules(fields, packed, v),
    }
}

// ---- writing: values that the edition takes, and the table of a plan, which edition 4 alone asks for (document 02, [12])

// Whether the edition is written by a plan.
pub fn by_plan(edition: Edition) -> bool
    ensures { (result ≡ true → edition_of edition ≡ table) × (result ≡ false → edition_of edition ≡ table → ⊥) }
{
    matches!(edition, Edition::Table)
}

// The edition that a plan of so many entries is written in: plain, which has none, gives edition 1.
pub fn edition_of_plan(entries: usize) -> Edition
    ensures { edition_of result ≡ cond (eqb entries 0) plain table }
{
    if entries == 0 {
        return Edition::Plain;
    }
    Edition::Table
}

// What the header says of the values.
pub fn plan(edition: Edition, values: &[i64], table: &[i64]) -> Fields
    requires { PlanFor (edition_of edition) table.now values.now }
    ensures { (fields_of result ≡ (codec (edition_of edition)).fields values.now) × Each Fits values.now }
{
    match layout_of(edition) {
        Layout::Whole(order) => scaled_values::plan(order, values),
        Layout::Runs => run_writer::plan(values),
        Layout::Table => table_values::fields_of(table.len() as u64),
    }
}

// The value section's length, by the fields that were planned.
pub fn length(edition: Edition, values: &[i64], fields: Fields) -> u64
    requires { (fields_of fields ≡ (codec (edition_of edition)).fields values.now) × Each Fits values.now × (length values.now ≤ max_count)
        × ((codec (edition_of edition)).takes values.now ≡ true) }
    ensures { (result ≡ length ((codec (edition_of edition)).section values.now)) × (result ≤ 33 * length values.now) }
{
    match layout_of(edition) {
        Layout::Whole(order) => scaled_values::length(order, values, fields),
        Layout::Runs => run_writer::length(values, fields),
        Layout::Table => table_values::bytes_of(fields.divisor, values.len() as u64),
    }
}

// Writes the value section to the front of out, the part of the output that starts where the section starts.
pub fn put(out: &mut [u8], edition: Edition, values: &[i64], fields: Fields, table: &[i64])
    requires { (fields_of fields ≡ (codec (edition_of edition)).fields values.now) × Each Fits values.now
        × PlanFor (edition_of edition) table.now values.now × (length ((codec (edition_of edition)).section values.now) ≤ length out.old) }
    ensures { out.new ≡ (codec (edition_of edition)).section values.now
        ++ drop (length ((codec (edition_of edition)).section values.now)) out.old }
{
    match layout_of(edition) {
        Layout::Whole(order) => scaled_values::put(out, order, values, fields),
        Layout::Runs => run_writer::put(out, values, fields),
        Layout::Table => table_writer::put(out, table, values),
    }
}

// ---- reading: a section that keeps the header rules

// The packing of an edition's numbers.
fn order_of(edition: Edition) -> Order
    ensures { result ≡ order_of (edition_of edition) }
{
    match edition {
        Edition::Plain => Order::High,
        Edition::Lucene => Order::Low,
        Edition::Runs => Order::High,
        Edition::Table => Order::High,
    }
}

// Step 7, in three calls that are compiled into the look-up, the next candidate and the page: where the number stored for ordinal i, of n,
// stands,
pub fn slot_of(section: &[u8], edition: Edition, n: u64, fields: Fields, i: u64) -> Option<Slot>
    requires { (n ≤ max_count) × ((codec (edition_of edition)).fields_ok n (fields_of fields) (length section.now) ≡ true) × (i < n) }
    ensures { SlotOf (edition_of edition) n (fields_of fields) section.now i result }
{
    match edition {
        Edition::Plain | Edition::Lucene => {
            scaled_values::whole(fields.width, fields.smallest, i)
        }
        Edition::Runs => run_values::slot_at(section, n, i),
        Edition::Table => table_values::slot_at(fields.width, fields.divisor, i),
    }
}

// the number there,
pub fn number_in(section: &[u8], edition: Edition, slot: Option<Slot>) -> u64
    requires { Stands (order_of (edition_of edition)) section.now slot }
    ensures { result ≡ slot_number (order_of (edition_of edition)) section.now slot }
{
    scaled_values::number_in(section, order_of(edition), slot)
}

// and its value, which must fit in 64 bits.
pub fn value_of(
    section: &[u8],
    edition: Edition,
    fields: Fields,
    slot: Option<Slot>,
    stored: u64,
) -> Option<i64>
    requires { Readable (edition_of edition) (fields_of fields) (length section.now) }
    ensures { fetched_of result ≡ stored_value (edition_of edition) (fields_of fields) section.now slot stored }
{
    if by_plan(edition) {
        return table_values::value_of(section, fields.divisor, stored);
    }
    scaled_values::value_of(fields.divisor, slot, stored)
}

// Whether the section is that of its n values, and the fields are theirs.
pub fn check(section: &[u8], edition: Edition, n: u64, fields: Fields) -> bool
    requires { (n ≤ max_count) × ((codec (edition_of edition)).fields_ok n (fields_of fields) (length section.now) ≡ true) }
    ensures { result ≡ tests (edition_of edition) n (fields_of fields) section.now }
{
    match layout_of(edition) {
        Layout::Whole(order) => scaled_check::values_ok(section, order, n, fields),
        Layout::Runs => run_check::values_ok(section, n, fields),
        Layout::Table => table_check::values_ok(section, n, fields),
    }
}

// The n values, each of which is there, from the buffer's front on.
pub fn fill(values: &mut [i64], section: &[u8], edition: Edition, n: u64, fields: Fields)
    requires { (n ≤ max_count) × ((codec (edition_of edition)).fields_ok n (fields_of fields) (length section.now) ≡ true) × (n ≤ length values.old)
        × ((vs : List ℤ) × (all_values n ((codec (edition_of edition)).value n (fields_of fields) section.now) ≡ some vs)) }
    ensures { (vs : List ℤ) → all_values n ((codec (edition_of edition)).value n (fields_of fields) section.now) ≡ some vs
        → values.new ≡ vs ++ drop n values.old }
{
    match layout_of(edition) {
        Layout::Whole(order) => scaled_reader::fill(values, section, order, n as usize, fields),
        Layout::Runs => run_reader::fill(values, section, n as usize, fields),
        Layout::Table => table_values::fill(values, section, n as usize, fields),
    }
}

// ---- values of ordinals that follow each other

// The values of the ordinals from x on, of n, into places `from` to `end`, by step 7 for each, up to the first that has none. Says where it
// stopped.
fn draw_each(
    values: &mut [i64],
    section: &[u8],
    edition: Edition,
    n: u64,
    fields: Fields,
    x: u64,
    from: usize,
    end: usize,
) -> usize
    requires { (n ≤ max_count) × ((codec (edition_of edition)).fields_ok n (fields_of fields) (length section.now) ≡ true) × (x + (end - from) ≤ n)
        × (from ≤ end) × (end ≤ length values.old) }
    ensures { (result ≡ from + length (drawn ((codec (edition_of edition)).value n (fields_of fields) section.now) (end - from) x))
        × (values.new
        ≡ sets values.old from (drawn ((codec (edition_of edition)).value n (fields_of fields) section.now) (end - from) x)) }
{
    for i in from..end {
        let slot = slot_of(section, edition, n, fields, x + ((i - from) as u64));
        let stored = number_in(section, edition, slot);
        let Some(value) = value_of(section, edition, fields, slot, stored) else {
            return i;
        };
        values[i] = value;
    }
    end
}

// The same in runs: those of x's own run number after number, and what comes after them by step 7 for each.
fn draw_runs(
    values: &mut [i64],
    section: &[u8],
    n: u64,
    fields: Fields,
    x: u64,
    from: usize,
    end: usize,
) -> usize
    requires { (n ≤ max_count) × ((codec runs).fields_ok n (fields_of fields) (length section.now) ≡ true) × (x + (end - from) ≤ n)
        × (from ≤ end) × (end ≤ length values.old) }
    ensures { (result ≡ from + length (drawn ((codec runs).value n (fields_of fields) section.now) (end - from) x))
        × (values.new
        ≡ sets values.old from (drawn ((codec runs).value n (fields_of fields) section.now) (end - from) x)) }
{
    let i = run_reader::draw(values, section, n as usize, fields, x as usize, from, end);
    let o = x + ((i - from) as u64);
    draw_each(values, section, Edition::Runs, n, fields, o, i, end)
}

// The same by the edition.
pub fn draw(
    values: &mut [i64],
    section: &[u8],
    edition: Edition,
    n: u64,
    fields: Fields,
    x: u64,
    from: usize,
    end: usize,
) -> usize
    requires { (n ≤ max_count) × ((codec (edition_of edition)).fields_ok n (fields_of fields) (length section.now) ≡ true) × (x + (end - from) ≤ n)
        × (from ≤ end) × (end ≤ length values.old) }
    ensures { (result ≡ from + length (drawn ((codec (edition_of edition)).value n (fields_of fields) section.now) (end - from) x))
        × (values.new
        ≡ sets values.old from (drawn ((codec (edition_of edition)).value n (fields_of fields) section.now) (end - from) x)) }
{
    match layout_of(edition) {
        Layout::Whole(order) => scaled_reader::draw(
            values, section, order, n as usize, fields, x as usize, from, end,
        ),
        Layout::Runs => draw_runs(values, section, n, fields, x, from, end),
        Layout::Table => table_values::draw(
            values, section, n as usize, fields, x as usize, from, end,
        ),
    }
}
