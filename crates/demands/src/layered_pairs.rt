// Demands 1 and 3 for the pairs of a machine column with a correction on top, from an id on (no request of document 02: docs/DECISIONS.md). Bytes that
// hold a list are those that the check accepts (`check_then_read`).
ghost use Rattle.std.specs.Prelude.{◌≡◌, ℕ, min, ◌≤◌, length};
ghost use Rattle.format.specs.Limits.{max_id};
ghost use Rattle.format.specs.Refusals.{done};
ghost use Rattle.format.specs.Editions.{editions};
ghost use Rattle.format.specs.Next.{Candidate, new_cursor, next};
ghost use Rattle.format.specs.Layered.{Layer, machine, correction};
ghost use Rattle.format.specs.LayeredReading.{refused_count};
ghost use Rattle.format.specs.Says.{LayeredReadSays};
ghost use Rattle.layered.specs.Answers.{layered_readout_of};
ghost use Rattle.column.specs.Opened.{column_of};
ghost use Rattle.demands.specs.Terms.{LayeredReadTold, HeaderTold, Holds, LayeredReadAnswers};
ghost use Rattle.demands.specs.Tables.{LayeredReadInSays};

use answers::Readout;
use column::Column;
use layered::LayerRefusal;

// Refused only where the very first candidate of a column is, the correction's first, and then nothing is changed. On bytes that hold lists the pairs of
// both in the order of ids, the correction's where both list the id, with the column of each, as many as all three lists have places; ended exactly where
// no more are left.
pub fn read_layered_from(
    below: &[u8],
    above: &[u8],
    id: u32,
    ids: &mut [u32],
    values: &mut [i64],
    columns: &mut [u8],
) -> Result<Readout, LayerRefusal>
    ensures says { LayeredReadTold (LayeredReadSays editions below.now above.now id
        (min (length columns.old) (min (length ids.old) (length values.old)))) ids.old ids.new
        values.old values.new columns.old columns.new result }
    ensures refused { (layer : Layer) (why w : ℕ) → layered_readout_of result ≡ refused_count layer why w
        → (ids.new ≡ ids.old) × (values.new ≡ values.old) × (columns.new ≡ columns.old) }
    ensures top_header { HeaderTold editions above.now (id ≤ max_id) (λ why w. layered_readout_of result ≡ refused_count correction why w) }
    ensures below_header { HeaderTold editions below.now ((a : Candidate) × (next editions above.now new_cursor id ≡ done a))
        (λ why w. layered_readout_of result ≡ refused_count machine why w) }
    ensures answers { (i j : ℕ) (x : Holds below.now i) (y : Holds above.now j)
        → LayeredReadAnswers x y id ids.old ids.new values.old values.new columns.old
        columns.new result }
{
    signalfern::read_layered_from(below, above, id, ids, values, columns)
}

// ---- in two columns that were opened before, or any numbers in their place

pub fn read_layered_from_in(
    lower: Column,
    below: &[u8],
    upper: Column,
    above: &[u8],
    id: u32,
    ids: &mut [u32],
    values: &mut [i64],
    columns: &mut [u8],
) -> Result<Readout, LayerRefusal>
    ensures says { LayeredReadTold (LayeredReadInSays below.now (column_of lower) above.now (column_of upper) id
        (min (length columns.old) (min (length ids.old) (length values.old)))) ids.old ids.new
        values.old values.new columns.old columns.new result }
    ensures refused { (layer : Layer) (why w : ℕ) → layered_readout_of result ≡ refused_count layer why w
        → (ids.new ≡ ids.old) × (values.new ≡ values.old) × (columns.new ≡ columns.old) }
{
    signalfern::read_layered_from_in(lower, below, upper, above, id, ids, values, columns)
}

// ---- demand 3 in opened columns

pub fn open_then_read_layered_from(
    machine: &[u8],
    correction: &[u8],
    id: u32,
    ids: &mut [u32],
    values: &mut [i64],
    columns: &mut [u8],
) -> Result<Readout, LayerRefusal>
    ensures { (i j : ℕ) (x : Holds machine.now i) (y : Holds correction.now j)
        → LayeredReadAnswers x y id ids.old ids.new values.old values.new columns.old
        columns.new result }
{
    let below = Column::open(machine);
    let above = Column::open(correction);
    // `?` would answer a `Refusal`, and the answer here is a `LayerRefusal`, which names the column.
    match below {
        Err(why) => Err(LayerRefusal {
            layer: layered::Layer::Machine,
            why,
        }),
        Ok(lower) => match above {
            Err(why) => Err(LayerRefusal {
                layer: layered::Layer::Correction,
                why,
            }),
            Ok(upper) => signalfern::read_layered_from_in(
                lower, machine, upper, correction, id, ids, values, columns,
            ),
        },
    }
}
