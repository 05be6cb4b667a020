// A correction column on top of a machine column (document 02, [10]): a look-up prefers the correction, and hands back the value
// section of whichever column holds the id as a part of it.
#![tactic(auto)]

ghost use Rattle.std.specs.Prelude.{◌≡◌};
ghost use Rattle.format.specs.Refusals.{Outcome};
ghost use Rattle.format.specs.Editions.{editions};
ghost use Rattle.format.specs.Opening.{open_column};
ghost use Rattle.format.specs.LookUp as Lu;
ghost use Rattle.format.specs.LookUp.{look_up};
ghost use Rattle.format.specs.Layered.{underneath, on_top, look_up_layered, look_up_layered_in, no_part, section_in, layered_part, IsPart};
ghost use Rattle.answers.specs.Replies.{answer_of};
ghost use Rattle.column.specs.Opened.{column_of};
ghost use Rattle.layered.specs.Answers.{layer_of, layered_of, part_of, Topped};

use answers::{Look, Refusal};
use column::Column;

// Which of the two columns.
#[derive(Clone, Copy, Debug, PartialEq, Eq)]
pub enum Layer {
    Machine,
    Correction,
}

// What a look-up in both finds. Found names its column; both carry the words of each column apart, 0 for one not looked in.
#[derive(Clone, Copy, Debug, PartialEq, Eq)]
pub enum LayeredLook {
    Found {
        layer: Layer,
        ordinal: u64,
        value: i64,
        machine_words: u64,
        correction_words: u64,
    },
    Absent {
        machine_words: u64,
        correction_words: u64,
    },
}

// A refusal, and the column that gives it.
#[derive(Clone, Copy, Debug, PartialEq, Eq)]
pub struct LayerRefusal {
    pub layer: Layer,
    pub why: Refusal,
}

// The sums of words of a page, each column's apart.
#[derive(Clone, Copy, Debug, PartialEq, Eq)]
pub struct LayeredWords {
    pub machine_words: u64,
    pub correction_words: u64,
}

// ---- one column's answer

// Looks one id up: 14, then 7 to 11, then 15. It answers as `lookup::look_up`, but opens the column as every other call does: the header read
// at once stays with the single look-up (docs/DECISIONS.md, "Speed").
fn answer_from(bytes: &[u8], id: u32) -> Result<Look, Refusal>
    ensures { answer_of result ≡ look_up editions bytes.now id }
{
    if !column::id_ok(id) {
        return Err(Refusal::Id);
    }
    let column = Column::open(bytes)?;
    lookup::steps_in(bytes, column, id)
}

// ---- the look-up

// The correction's answer. It is the call's, but where the id is absent there the machine column is to be asked.
fn top_of(answer: Result<Look, Refusal>) -> Result<LayeredLook, LayerRefusal>
    ensures { (below : Outcome Lu.Look) → Topped result below (on_top (answer_of answer) below) }
{
    let layer = Layer::Correction;
    match answer {
        Ok(
            Look::Found {
                ordinal,
                value,
                words,
                ..
            },
        ) => {
            let machine_words = 0;
            let correction_words = words;
            Ok(LayeredLook::Found {
                layer,
                ordinal,
                value,
                machine_words,
                correction_words,
            })
        }
        Ok(Look::Absent { words, .. }) => Ok(LayeredLook::Absent {
            machine_words: 0,
            correction_words: words,
        }),
        Err(why) => Err(LayerRefusal { layer, why }),
    }
}

// The machine column's answer, with the words that were counted in the correction.
fn underneath(counted: u64, answer: Result<Look, Refusal>) -> Result<LayeredLook, LayerRefusal>
    ensures { layered_of result ≡ underneath counted (answer_of answer) }
{
    match answer {
        Ok(
            Look::Found {
                ordinal,
                value,
                words,
                ..
            },
        ) => Ok(LayeredLook::Found {
            layer: Layer::Machine,
            ordinal,
            value,
            machine_words: words,
            correction_words: counted,
        }),
        Ok(Look::Absent { words, .. }) => Ok(LayeredLook::Absent {
            machine_words: words,
            correction_words: counted,
        }),
        Err(why) => Err(LayerRefusal {
            layer: Layer::Machine,
            why,
        }),
    }
}

// Looks one id up in both columns; the machine column is not opened where the correction finds it or refuses.
pub fn look_up_layered(
    machine: &[u8],
    correction: &[u8],
    id: u32,
) -> Result<LayeredLook, LayerRefusal>
    ensures { layered_of result ≡ look_up_layered editions machine.now correction.now id }
{
    let top = top_of(answer_from(correction, id))?;
    let LayeredLook::Absent {
        correction_words,
        ..
    } = top
    else {
        return Ok(top);
    };
    underneath(correction_words, answer_from(machine, id))
}

// The same from two columns that were opened before, or any numbers in their place.
pub fn look_up_layered_in(
    machine_column: Column,
    machine: &[u8],
    correction_column: Column,
    correction: &[u8],
    id: u32,
) -> Result<LayeredLook, LayerRefusal>
    ensures { layered_of result
        ≡ look_up_layered_in machine.now (column_of machine_column) correction.now (column_of correction_column) id }
{
    let top = top_of(lookup::look_up_in(correction_column, correction, id))?;
    let LayeredLook::Absent {
        correction_words,
        ..
    } = top
    else {
        return Ok(top);
    };
    underneath(
        correction_words,
        lookup::look_up_in(machine_column, machine, id),
    )
}

// ---- the value section as a part of the lent column

// So many bytes of one of the columns, from a place on.
#[derive(Clone, Copy, Debug, PartialEq, Eq)]
pub struct Part {
    pub layer: Layer,
    pub start: usize,
    pub len: usize,
}

// An empty part of the machine column.
fn no_part() -> Part
    ensures { part_of result ≡ no_part }
{
    let layer = Layer::Machine;
    Part {
        layer,
        start: 0,
        len: 0,
    }
}

// The value section of one of the columns.
fn section_in(layer: Layer, bytes: &[u8]) -> Part
    ensures { part_of result ≡ section_in (layer_of layer) (open_column editions bytes.now) }
{
    let Ok(column) = Column::open(bytes) else {
        return no_part();
    };
    let head = column.head;
    Part {
        layer,
        start: numbers::size(column.start) + numbers::size(head.id_bytes),
        len: numbers::size(head.value_bytes),
    }
}

// Where the value section of whichever column holds the id stands (both: the correction's); absent or refused: an empty part of
// the machine column.
pub fn layered_part(machine: &[u8], correction: &[u8], id: u32) -> Part
    ensures { part_of result ≡ layered_part editions machine.now correction.now id }
{
    let Ok(look) = look_up_layered(machine, correction, id) else {
        return no_part();
    };
    let LayeredLook::Found { layer, .. } = look else {
        return no_part();
    };
    match layer {
        Layer::Machine => section_in(Layer::Machine, machine),
        Layer::Correction => section_in(Layer::Correction, correction),
    }
}

// That part itself.
pub fn layered_values<'a>(machine: &'a [u8], correction: &'a [u8], id: u32) -> &'a [u8]
    ensures { IsPart result machine.entry correction.entry (layered_part editions machine.now correction.now id) }
{
    let part = layered_part(machine, correction, id);
    let start = part.start;
    let end = start + part.len;
    let layer = part.layer;
    match layer {
        Layer::Machine => &machine[start..end],
        Layer::Correction => &correction[start..end],
    }
}
