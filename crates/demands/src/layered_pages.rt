// Demands 1 and 3 for a page of ids with a correction on top of a machine column (no request of document 02: docs/DECISIONS.md). Bytes that hold a list
// are those that the check accepts (`check_then_read`).
ghost use Rattle.std.specs.Prelude.{◌≡◌, ℕ, ◌≤◌, length};
ghost use Rattle.format.specs.Refusals.{refused};
ghost use Rattle.format.specs.Editions.{editions};
ghost use Rattle.format.specs.Layered.{look_up_layered, look_up_layered_in};
ghost use Rattle.layered.specs.Answers.{layered_reply_of};
ghost use Rattle.column.specs.Opened.{column_of};
ghost use Rattle.demands.specs.Terms.{Holds};
ghost use Rattle.demands.specs.LayeredTerms.{LayeredPageTold, LayeredPageAnswers};

use answers::Refusal;
use column::Column;
use layered::LayeredWords;

// BUFFER with the number of ids, before a byte is read and whatever the bytes are. On bytes that hold lists the sums of the words by the formula, and in
// each place the two lists' answer for its id, ids above the limit included.
pub fn look_up_layered_page(
    below: &[u8],
    above: &[u8],
    ids: &[u32],
    ordinals: &mut [u64],
    values: &mut [i64],
    kinds: &mut [u8],
    columns: &mut [u8],
) -> Result<LayeredWords, Refusal>
    ensures says { LayeredPageTold (look_up_layered editions below.now above.now) ids.now ordinals.old
        ordinals.new values.old values.new kinds.old kinds.new columns.old
        columns.new result }
    ensures refused { (why w : ℕ) → layered_reply_of result ≡ refused why w → (ordinals.new ≡ ordinals.old) × (values.new ≡ values.old)
        × (kinds.new ≡ kinds.old) × (columns.new ≡ columns.old) }
    ensures answers { length ids.now ≤ length ordinals.old → length ids.now ≤ length values.old
        → length ids.now ≤ length kinds.old → length ids.now ≤ length columns.old
        → (i j : ℕ) (x : Holds below.now i) (y : Holds above.now j)
        → LayeredPageAnswers x y ids.now ordinals.old ordinals.new values.old values.new
        kinds.old kinds.new columns.old columns.new result }
{
    signalfern::look_up_layered_page(below, above, ids, ordinals, values, kinds, columns)
}

// ---- in two columns that were opened before, or any numbers in their place

pub fn look_up_layered_page_in(
    lower: Column,
    below: &[u8],
    upper: Column,
    above: &[u8],
    ids: &[u32],
    ordinals: &mut [u64],
    values: &mut [i64],
    kinds: &mut [u8],
    columns: &mut [u8],
) -> Result<LayeredWords, Refusal>
    ensures says { LayeredPageTold (look_up_layered_in below.now (column_of lower) above.now (column_of upper)) ids.now
        ordinals.old ordinals.new values.old values.new kinds.old kinds.new
        columns.old columns.new result }
    ensures refused { (why w : ℕ) → layered_reply_of result ≡ refused why w → (ordinals.new ≡ ordinals.old) × (values.new ≡ values.old)
        × (kinds.new ≡ kinds.old) × (columns.new ≡ columns.old) }
{
    signalfern::look_up_layered_page_in(
        lower, below, upper, above, ids, ordinals, values, kinds, columns,
    )
}

// ---- demand 3 in opened columns

pub fn open_then_look_up_layered_page(
    machine: &[u8],
    correction: &[u8],
    ids: &[u32],
    ordinals: &mut [u64],
    values: &mut [i64],
    kinds: &mut [u8],
    columns: &mut [u8],
) -> Result<LayeredWords, Refusal>
    ensures { length ids.now ≤ length ordinals.old → length ids.now ≤ length values.old
        → length ids.now ≤ length kinds.old → length ids.now ≤ length columns.old
        → (i j : ℕ) (x : Holds machine.now i) (y : Holds correction.now j)
        → LayeredPageAnswers x y ids.now ordinals.old ordinals.new values.old values.new
        kinds.old kinds.new columns.old columns.new result }
{
    let lower = Column::open(machine)?;
    let upper = Column::open(correction)?;
    signalfern::look_up_layered_page_in(
        lower, machine, upper, correction, ids, ordinals, values, kinds, columns,
    )
}
