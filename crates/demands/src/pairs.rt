// Demands 1 and 3 for pairs from an id on, the pair with an ordinal, and the first value in a range from an ordinal on (no requests of document 02:
// docs/DECISIONS.md). Bytes that hold a list are those that the check accepts (`check_then_read`).
ghost use Rattle.std.specs.Prelude.{◌≡◌, [], ◌∷◌, ℕ, min, ◌≤◌, length, drop};
ghost use Rattle.format.specs.Limits.{max_id};
ghost use Rattle.format.specs.Refusals.{done, refused, EDITION};
ghost use Rattle.format.specs.Editions.{runs, editions};
ghost use Rattle.format.specs.FirstBetween.{first_in, first_between};
ghost use Rattle.format.specs.PairAt.{list_pair};
ghost use Rattle.answers.specs.Replies.{candidate_of, readout_of, between_of};
ghost use Rattle.format.specs.Says.{ReadFromSays, PairAtSays};
ghost use Rattle.demands.specs.Terms.{ReadFromTold, HeaderTold, Holds, pairs_of, ReadFromAnswers};
ghost use Rattle.demands.specs.Tables.{ReadFromInSays, PairAtInSays, BetweenFromSays, BetweenFromInSays};
ghost use Rattle.column.specs.Opened.{column_of};

use answers::{Pair, Readout, Refusal};
use column::Column;

// Refused only where the very first candidate is, and then nothing is changed. On bytes that hold a list its own pairs from the id on, as many as both
// lists have places; ended exactly where no more are left.
pub fn read_from(
    bytes: &[u8],
    id: u32,
    ids: &mut [u32],
    values: &mut [i64],
) -> Result<Readout, Refusal>
    ensures says { ReadFromTold (ReadFromSays editions bytes.now id (min (length ids.old) (length values.old)))
        ids.old ids.new values.old values.new result }
    ensures refused { (why w : ℕ) → readout_of result ≡ refused why w → (ids.new ≡ ids.old) × (values.new ≡ values.old) }
    ensures header { HeaderTold editions bytes.now (id ≤ max_id) (λ why w. readout_of result ≡ refused why w) }
    ensures answers { (n : ℕ) (x : Holds bytes.now n)
        → ReadFromAnswers x id ids.old ids.new values.old values.new result }
{
    signalfern::read_from(bytes, id, ids, values)
}

// On bytes that hold a list its own pair, and none for an ordinal of n or more.
pub fn pair_at(bytes: &[u8], ordinal: u64) -> Result<Option<Pair>, Refusal>
    ensures says { PairAtSays editions bytes.now ordinal (candidate_of result) }
    ensures header { HeaderTold editions bytes.now (Unit {0}) (λ why w. candidate_of result ≡ refused why w) }
    ensures answers { (n : ℕ) (x : Holds bytes.now n) → candidate_of result ≡ done (list_pair (pairs_of x) ordinal) }
{
    signalfern::pair_at(bytes, ordinal)
}

// In a column of edition 3 the plain scan of its list from the ordinal on, in any other EDITION. From 0 on it is document 02's question.
pub fn first_between_from(
    bytes: &[u8],
    from: u64,
    low: i64,
    high: i64,
) -> Result<Option<u64>, Refusal>
    ensures says { BetweenFromSays bytes.now from low high (between_of result) }
    ensures header { HeaderTold (runs ∷ []) bytes.now (Unit {0}) (λ why w. between_of result ≡ refused why w) }
    ensures scans { (n : ℕ) (x : Holds bytes.now n) → x.edition ≡ runs → between_of result ≡ done (first_in low high from (drop from x.values)) }
    ensures others { (n : ℕ) (x : Holds bytes.now n) → (x.edition ≡ runs → ⊥) → between_of result ≡ refused EDITION 0 }
    ensures from_zero { from ≡ 0 → between_of result ≡ first_between bytes.now low high }
{
    signalfern::first_between_from(bytes, from, low, high)
}

// ---- in a column that was opened before, or any numbers in its place

pub fn read_from_in(
    column: Column,
    bytes: &[u8],
    id: u32,
    ids: &mut [u32],
    values: &mut [i64],
) -> Result<Readout, Refusal>
    ensures says { ReadFromTold (ReadFromInSays bytes.now (column_of column) id (min (length ids.old) (length values.old)))
        ids.old ids.new values.old values.new result }
    ensures refused { (why w : ℕ) → readout_of result ≡ refused why w → (ids.new ≡ ids.old) × (values.new ≡ values.old) }
{
    signalfern::read_from_in(column, bytes, id, ids, values)
}

pub fn pair_at_in(column: Column, bytes: &[u8], ordinal: u64) -> Result<Option<Pair>, Refusal>
    ensures says { PairAtInSays bytes.now (column_of column) ordinal (candidate_of result) }
{
    signalfern::pair_at_in(column, bytes, ordinal)
}

pub fn first_between_from_in(
    column: Column,
    bytes: &[u8],
    from: u64,
    low: i64,
    high: i64,
) -> Result<Option<u64>, Refusal>
    ensures says { BetweenFromInSays bytes.now (column_of column) from low high (between_of result) }
{
    signalfern::first_between_from_in(column, bytes, from, low, high)
}

// ---- demand 3 in an opened column

pub fn open_then_read_from(
    bytes: &[u8],
    id: u32,
    ids: &mut [u32],
    values: &mut [i64],
) -> Result<Readout, Refusal>
    ensures { (n : ℕ) (x : Holds bytes.now n)
        → ReadFromAnswers x id ids.old ids.new values.old values.new result }
{
    let opened = Column::open(bytes)?;
    signalfern::read_from_in(opened, bytes, id, ids, values)
}

pub fn open_then_pair_at(bytes: &[u8], ordinal: u64) -> Result<Option<Pair>, Refusal>
    ensures { (n : ℕ) (x : Holds bytes.now n) → candidate_of result ≡ done (list_pair (pairs_of x) ordinal) }
{
    let opened = Column::open(bytes)?;
    signalfern::pair_at_in(opened, bytes, ordinal)
}

// In a column of edition 3 the plain scan of its list from the ordinal on, in any other EDITION.
pub fn open_then_first_between_from(
    bytes: &[u8],
    from: u64,
    low: i64,
    high: i64,
) -> Result<Option<u64>, Refusal>
    ensures scans { (n : ℕ) (x : Holds bytes.now n) → x.edition ≡ runs → between_of result ≡ done (first_in low high from (drop from x.values)) }
    ensures others { (n : ℕ) (x : Holds bytes.now n) → (x.edition ≡ runs → ⊥) → between_of result ≡ refused EDITION 0 }
{
    let opened = Column::open(bytes)?;
    signalfern::first_between_from_in(opened, bytes, from, low, high)
}
