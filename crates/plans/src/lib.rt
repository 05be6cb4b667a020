// Plans (document 02, [12]): the small check of one, and the planner, which nobody need trust.
#![tactic(auto)]

ghost use Rattle.std.specs.Prelude.{◌≡◌, true, false, ◌++◌, map, ◌≤◌, length, drop};
ghost use Rattle.format.specs.Limits.{max_count};
ghost use Rattle.format.specs.Pairs.{Each, Fits};
ghost use Rattle.format.specs.Table.{max_entries, code_in, ascends, all_in};
ghost use Rattle.format.specs.Plan.{plan_ok, planned, plan};
ghost use Rattle.format.specs.Writer.{write_reply, write_out};
ghost use Rattle.answers.specs.Replies.{reply_of};
ghost use Rattle.tables.specs.Marks.{marked};

use answers::Refusal;

// ---- the small check

// Sets a mark at each value's place, with G guesses. Whether each value is there.
fn mark_by<const G: usize>(marks: &mut [u8], table: &[i64], values: &[i64]) -> bool
    requires { (ascends table.now ≡ true) × (length table.now ≤ length marks.old) × (1 ≤ G) × (G ≤ 4096) }
    ensures { (result ≡ all_in table.now values.now)
        × (result ≡ true → marks.new ≡ marked marks.old (map (code_in table.now) values.now)) }
{
    let mut guesses = [0u8; G];
    for x in values {
        let b = signed::biased(*x);
        let k = tables::place_of(&mut guesses, table, b);
        if !tables::has(table, k, b) {
            return false;
        }
        marks[k] = 1;
    }
    true
}

// The same, with as many guesses as so many values are worth.
fn mark(marks: &mut [u8], table: &[i64], values: &[i64]) -> bool
    requires { (ascends table.now ≡ true) × (length table.now ≤ length marks.old) }
    ensures { (result ≡ all_in table.now values.now)
        × (result ≡ true → marks.new ≡ marked marks.old (map (code_in table.now) values.now)) }
{
    if values.len() < tables::MANY {
        mark_by::<{ tables::FEW_GUESSES }>(marks, table, values)
    } else {
        mark_by::<{ tables::GUESSES }>(marks, table, values)
    }
}

// Whether the entries, which ascend, are the values, and no other.
fn same_members(table: &[i64], values: &[i64]) -> bool
    requires { (ascends table.now ≡ true) × (length table.now ≤ max_entries) }
    ensures { (result ≡ true → (all_in table.now values.now ≡ true) × (all_in values.now table.now ≡ true))
        × (result ≡ false → all_in table.now values.now ≡ true → all_in values.now table.now ≡ false) }
{
    let mut marks = [0u8; limits::MAX_ENTRIES];
    if !mark(&mut marks, table, values) {
        return false;
    }
    tables::all_marked(&marks, table.len())
}

// Plain, which is no entry at all, always; a table of 2 to 256 entries, strictly ascending, that holds every value, has no unused entry and
// makes the column shorter than edition 1's.
pub fn accepts(table: &[i64], values: &[i64]) -> bool
    requires { length values.now ≤ max_count }
    ensures { (result ≡ plan_ok table.now values.now) × (result ≡ true → Each Fits table.now) }
{
    let t = table.len();
    if t == 0 {
        return true;
    }
    if t < limits::MIN_ENTRIES {
        return false;
    }
    if t > limits::MAX_ENTRIES {
        return false;
    }
    if !tables::ascending(table) {
        return false;
    }
    if !same_members(table, values) {
        return false;
    }
    table_values::saves(table, numbers::long(values.len()))
}

// ---- the planner

// The plan for the values: a table wherever the small check takes one, else plain, which is no entry. How many entries.
pub fn plan(out: &mut [i64], values: &[i64]) -> usize
    requires { max_entries ≤ length out.old }
    ensures { (result ≡ length (planned values.now)) × (result ≤ max_entries) × Each Fits (planned values.now)
        × (out.new ≡ planned values.now ++ drop (length (planned values.now)) out.old) }
{
    if values.len() > limits::MAX_COUNT as usize {
        return 0;
    }
    let mut table = [0i64; limits::MAX_ENTRIES];
    let t = tables::distinct(&mut table, values);
    if t < limits::MIN_ENTRIES {
        return 0;
    }
    if limits::MAX_ENTRIES < t {
        return 0;
    }
    if !table_values::saves(&table[..t], numbers::long(values.len())) {
        return 0;
    }
    out[..t].copy_from_slice(&table[..t]);
    t
}

// The same into a lent table of any length: 12 with 256 where it has fewer places than a table may have entries.
pub fn propose(out: &mut [i64], values: &[i64]) -> Result<u64, Refusal>
    ensures replies { reply_of result ≡ write_reply (plan values.now (length out.old)) }
    ensures proposed { out.new ≡ write_out (plan values.now (length out.old)) out.old }
{
    if out.len() < limits::MAX_ENTRIES {
        return Err(Refusal::Buffer(limits::MAX_ENTRIES as u64));
    }
    Ok(numbers::long(plan(out, values)))
}
