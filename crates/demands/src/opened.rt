// A column that is opened once: `Column::open`, the calls that go on from what it gave, and that on bytes that hold a list they answer as the calls that
// open for themselves. Any other numbers in its place are safe (`says`).
ghost use Rattle.std.specs.Prelude.{◌≡◌, ℕ, ◌≤◌};
ghost use Rattle.format.specs.Limits.{max_id};
ghost use Rattle.format.specs.Refusals.{done, refused, EDITION};
ghost use Rattle.format.specs.Editions.{runs, editions};
ghost use Rattle.format.specs.LookUp.{look_up_in};
ghost use Rattle.format.specs.Page.{place_words};
ghost use Rattle.format.specs.Next.{last_after};
ghost use Rattle.format.specs.FirstBetween.{first_in};
ghost use Rattle.format.specs.Layered.{machine, correction};
ghost use Rattle.answers.specs.Replies.{answer_of, candidate_of, between_of};
ghost use Rattle.column.specs.Opened.{column_of, opened_of};
ghost use Rattle.layered.specs.Answers.{layered_of, words_in};
ghost use Rattle.demands.specs.Terms.{WordsBound, FewProbes, Holds, Answers, LayeredAnswers, NextAnswers};
ghost use Rattle.format.specs.Says.{OpenSays};
ghost use Rattle.demands.specs.Tables.{LookInSays, NextInSays, BetweenInSays, LayeredSays};

use answers::{Cursor, Look, Next, Refusal};
use column::Column;
use layered::{Layer, LayerRefusal, LayeredLook};

// ---- demand 1

// 7 to 11, each exactly in its case; 7 with the byte count and 8 with the place of the byte that decided it (document 02, [4]).
pub fn open(bytes: &[u8]) -> Result<Column, Refusal>
    ensures says { OpenSays editions bytes.now (opened_of result) }
{
    Column::open(bytes)
}

pub fn look_up_in(column: Column, bytes: &[u8], id: u32) -> Result<Look, Refusal>
    ensures says { LookInSays bytes.now (column_of column) id (answer_of result) }
    ensures words { WordsBound column.head.power (place_words (answer_of result)) }
    ensures probes { FewProbes result }
{
    signalfern::look_up_in(column, bytes, id)
}

// A refusal keeps the cursor, and an answer leaves the target there.
pub fn next_in(column: Column, cursor: Cursor, bytes: &[u8], target: u32) -> Next
    ensures says { NextInSays bytes.now (column_of column) cursor.last target (candidate_of result.candidate) }
    ensures cursor { result.cursor.last ≡ last_after (candidate_of result.candidate) cursor.last target }
{
    signalfern::next_in(column, cursor, bytes, target)
}

pub fn first_between_in(
    column: Column,
    bytes: &[u8],
    low: i64,
    high: i64,
) -> Result<Option<u64>, Refusal>
    ensures says { BetweenInSays bytes.now (column_of column) low high (between_of result) }
{
    signalfern::first_between_in(column, bytes, low, high)
}

// Each column's words by its own rank power.
pub fn look_up_layered_in(
    lower: Column,
    below: &[u8],
    upper: Column,
    above: &[u8],
    id: u32,
) -> Result<LayeredLook, LayerRefusal>
    ensures says { LayeredSays (look_up_in above.now (column_of upper) id) (look_up_in below.now (column_of lower) id) (layered_of result) }
    ensures words { (WordsBound lower.head.power (words_in machine result)) × (WordsBound upper.head.power (words_in correction result)) }
{
    signalfern::look_up_layered_in(lower, below, upper, above, id)
}

// ---- demand 3

pub fn open_then_look_up(bytes: &[u8], id: u32) -> Result<Look, Refusal>
    ensures { (n : ℕ) (x : Holds bytes.now n) → id ≤ max_id → Answers x id result }
{
    let opened = Column::open(bytes)?;
    signalfern::look_up_in(opened, bytes, id)
}

pub fn open_then_next(cursor: Cursor, bytes: &[u8], target: u32) -> Next
    ensures { (n : ℕ) (x : Holds bytes.now n) → NextAnswers x cursor.last target result }
{
    // `?` would answer a `Refusal`, and the answer here is a `Next`, which keeps the cursor.
    match Column::open(bytes) {
        Err(why) => Next {
            cursor,
            candidate: Err(why),
        },
        Ok(column) => signalfern::next_in(column, cursor, bytes, target),
    }
}

// In a column of edition 3 the plain scan of its list, in any other EDITION.
pub fn open_then_first_between(bytes: &[u8], low: i64, high: i64) -> Result<Option<u64>, Refusal>
    ensures scans { (n : ℕ) (x : Holds bytes.now n) → x.edition ≡ runs → between_of result ≡ done (first_in low high 0 x.values) }
    ensures others { (n : ℕ) (x : Holds bytes.now n) → (x.edition ≡ runs → ⊥) → between_of result ≡ refused EDITION 0 }
{
    let opened = Column::open(bytes)?;
    signalfern::first_between_in(opened, bytes, low, high)
}

pub fn open_then_look_up_layered(
    machine: &[u8],
    correction: &[u8],
    id: u32,
) -> Result<LayeredLook, LayerRefusal>
    ensures { (i j : ℕ) (x : Holds machine.now i) (y : Holds correction.now j) → id ≤ max_id → LayeredAnswers x y id (layered_of result) }
{
    let below = Column::open(machine);
    let above = Column::open(correction);
    // `?` would answer a `Refusal`, and the answer here is a `LayerRefusal`, which names the column.
    match below {
        Err(why) => Err(LayerRefusal {
            layer: Layer::Machine,
            why,
        }),
        Ok(lower) => match above {
            Err(why) => Err(LayerRefusal {
                layer: Layer::Correction,
                why,
            }),
            Ok(upper) => { signalfern::look_up_layered_in(lower, machine, upper, correction, id) }
        },
    }
}
