// The first value in a range, in a column of edition 3 (document 02, [11]), from an ordinal on.
#![tactic(auto)]

ghost use Rattle.std.specs.Prelude.{◌≡◌, true, cond, [], ◌∷◌};
ghost use Rattle.format.specs.Refusals.{refused, EDITION};
ghost use Rattle.format.specs.Editions.{runs, editions};
ghost use Rattle.format.specs.Opening.{head_ok, length_ok, open_column};
ghost use Rattle.format.specs.FirstBetween.{first_between, first_between_in};
ghost use Rattle.format.specs.BetweenFrom.{between_steps_from, first_between_from, first_between_from_in};
ghost use Rattle.answers.specs.Replies.{between_of};
ghost use Rattle.values.specs.Edition.{edition_of};
ghost use Rattle.column.specs.Opened.{column_of};

use answers::Refusal;
use column::Column;

// Whether the bytes are of another edition, by the first header number: a reader that knows edition 3 alone refuses them, and else opens
// them as every reader does.
fn other_edition(bytes: &[u8]) -> bool
    ensures { open_column (runs ∷ []) bytes.now ≡ cond result (refused EDITION 0) (open_column editions bytes.now) }
{
    match column::number_at(bytes, 0) {
        Ok(first) => first.value != column::RUNS,
        Err(_) => false,
    }
}

// On a column of edition 3 that keeps the header rules and fits these bytes.
fn steps_in(
    bytes: &[u8],
    column: Column,
    from: u64,
    low: i64,
    high: i64,
) -> Result<Option<u64>, Refusal>
    requires { (head_ok (column_of column).head ≡ true) × (length_ok bytes.now (column_of column) ≡ true) × (edition_of column.head.edition ≡ runs) }
    ensures { between_of result ≡ between_steps_from bytes.now (column_of column) from low high }
{
    let a = signed::biased(low);
    let b = signed::biased(high);
    if b < a {
        return Ok(None);
    }
    let head = column.head;
    if head.count <= from {
        return Ok(None);
    }
    let end = (column.start + head.id_bytes) as usize;
    let fields = head.fields;
    run_search::first_from(&bytes[end..], head.count, fields, from, a, b)
}

// ---- the calls from an ordinal on

// From a column that was opened before: 9 for another edition, then 10 or 11 where the column's numbers break a header rule or do not fit
// these bytes, then 15.
pub fn first_between_from_in(
    column: Column,
    bytes: &[u8],
    from: u64,
    low: i64,
    high: i64,
) -> Result<Option<u64>, Refusal>
    ensures { between_of result ≡ first_between_from_in bytes.now (column_of column) from low high }
{
    let head = column.head;
    let edition = head.edition;
    if column::number_of(edition) != column::RUNS {
        return Err(Refusal::Edition);
    }
    if !column::head_ok(head) {
        return Err(Refusal::Header);
    }
    if !column::length_ok(bytes, column) {
        return Err(Refusal::Length);
    }
    steps_in(bytes, column, from, low, high)
}

// 7 to 11, 9 for another edition, then 15.
pub fn first_between_from(
    bytes: &[u8],
    from: u64,
    low: i64,
    high: i64,
) -> Result<Option<u64>, Refusal>
    ensures { between_of result ≡ first_between_from bytes.now from low high }
{
    if other_edition(bytes) {
        return Err(Refusal::Edition);
    }
    let column = Column::open(bytes)?;
    first_between_from_in(column, bytes, from, low, high)
}

// ---- document 02's question: from 0 on

pub fn first_between_in(
    column: Column,
    bytes: &[u8],
    low: i64,
    high: i64,
) -> Result<Option<u64>, Refusal>
    ensures { between_of result ≡ first_between_in bytes.now (column_of column) low high }
{
    first_between_from_in(column, bytes, 0, low, high)
}

pub fn first_between(bytes: &[u8], low: i64, high: i64) -> Result<Option<u64>, Refusal>
    ensures { between_of result ≡ first_between bytes.now low high }
{
    first_between_from(bytes, 0, low, high)
}
