// The steps as one function that stands apart: it is lent the column's numbers as twelve words and writes the answer as six, so that its
// callers hand pointers on and nothing has to be compiled into them (docs/DECISIONS.md, "Speed").
ghost use Rattle.std.specs.Prelude.{◌≡◌, true, ℕ};
ghost use Rattle.format.specs.Refusals.{Outcome};
ghost use Rattle.format.specs.Editions.{plain};
ghost use Rattle.format.specs.Opening.{head_ok, length_ok, value_of};
ghost use Rattle.format.specs.LookUp as Lu;
ghost use Rattle.format.specs.LookUp.{halved, steps, step_probes};
ghost use Rattle.answers.specs.Replies.{answer_of, Probed};
ghost use Rattle.answers.specs.Words.{numbers_in, laid_out, answer_words};
ghost use Rattle.values.specs.Edition.{edition_of, fetched_of};
ghost use Rattle.column.specs.Opened.{column_of};
ghost use Rattle.lookup.specs.Words.{Listing, ByStep};

use super::{Located, ask_of, locate};
use answers::{ABSENT, FOUND, Look, Refusal};
use column::{Column, Head};
use scaled_values::Slot;
use values::{Edition, Fields};

// ---- a column as words: the numbers 3 to 11 of C's struct

// In this edition, with stored numbers of this width.
pub fn laid_as(edition: Edition, width: u64, words: &[u64; 12]) -> Column
    ensures { column_of result ≡ numbers_in (edition_of edition) width words.now }
{
    Column {
        head: Head {
            edition,
            count: words[3],
            power: words[4],
            id_bytes: words[5],
            jump_count: words[6],
            fields: Fields {
                width,
                smallest: words[8],
                divisor: words[9],
            },
            value_bytes: words[10],
        },
        start: words[11],
    }
}

pub fn laid(edition: Edition, words: &[u64; 12]) -> Column
    ensures { column_of result ≡ laid_out (edition_of edition) words.now }
{
    laid_as(edition, words[7], words)
}

pub fn words_of(column: Column) -> [u64; 12]
    ensures { laid_out (edition_of column.head.edition) result ≡ column_of column }
{
    let h = column.head;
    let f = h.fields;
    [
        0,
        0,
        0,
        h.count,
        h.power,
        h.id_bytes,
        h.jump_count,
        f.width,
        f.smallest,
        f.divisor,
        h.value_bytes,
        column.start,
    ]
}

// ---- an answer as words: C's struct

pub fn put_answer(out: &mut [u64; 6], answer: Result<Look, Refusal>)
    ensures { (n : ℕ) → Probed n answer → out.new ≡ answer_words n (answer_of answer) }
{
    match answer {
        Ok(
            Look::Found {
                ordinal,
                value,
                words,
                probes,
            },
        ) => {
            *out = [FOUND, 0, ordinal, signed::bits_of(value), words, probes];
        }
        Ok(Look::Absent { words, probes }) => {
            *out = [ABSENT, 0, 0, 0, words, probes];
        }
        Err(why) => {
            *out = [why.number(), why.number_with(), 0, 0, 0, 0];
        }
    }
}

// The answer of the steps, which refuse with BROKEN alone.
pub fn answer_of(told: &[u64; 6]) -> Result<Look, Refusal>
    ensures { (n : ℕ) (o : Outcome Lu.Look) → ByStep o → told.now ≡ answer_words n o → (answer_of result ≡ o) × (Probed n result) }
{
    if told[0] == FOUND {
        return Ok(Look::Found {
            ordinal: told[2],
            value: signed::unbiased(signed::turned(told[3])),
            words: told[4],
            probes: told[5],
        });
    }
    if told[0] == ABSENT {
        return Ok(Look::Absent {
            words: told[4],
            probes: told[5],
        });
    }
    Err(Refusal::Broken)
}

// ---- step 7

// The value of ordinal i, where the value section starts at `end`. The column's numbers are read here and not before the other steps, and
// the section is cut here and not by the caller: each then takes a register only while it is needed.
fn value_at(bytes: &[u8], end: usize, edition: Edition, words: &[u64; 12], i: u64) -> Option<i64>
    requires { Listing bytes.now (laid_out (edition_of edition) words.now) end i }
    ensures { fetched_of result ≡ value_of bytes.now (laid_out (edition_of edition) words.now) i }
{
    let column = laid(edition, words);
    let head = column.head;
    let fields = head.fields;
    let section = &bytes[end..];
    let slot: Option<Slot> = values::slot_of(section, edition, head.count, fields, i);
    let stored = values::number_in(section, edition, slot);
    values::value_of(section, edition, fields, slot, stored)
}

// The same in edition 1. (A function of its own: two calls that differ in the edition alone would be joined again.)
fn plain_value_at(bytes: &[u8], end: usize, words: &[u64; 12], i: u64) -> Option<i64>
    requires { Listing bytes.now (laid_out plain words.now) end i }
    ensures { fetched_of result ≡ value_of bytes.now (laid_out plain words.now) i }
{
    value_at(bytes, end, Edition::Plain, words, i)
}

// Edition 1 is told apart once, and not in each part of step 7.
fn value_in(bytes: &[u8], end: usize, edition: Edition, words: &[u64; 12], i: u64) -> Option<i64>
    requires { Listing bytes.now (laid_out (edition_of edition) words.now) end i }
    ensures { fetched_of result ≡ value_of bytes.now (laid_out (edition_of edition) words.now) i }
{
    let Edition::Plain = edition else {
        return value_at(bytes, end, edition, words, i);
    };
    plain_value_at(bytes, end, words, i)
}

// ---- steps 1 to 7

// On a column that keeps the header rules and fits these bytes, laid out as words.
fn steps_of(bytes: &[u8], edition: Edition, words: &[u64; 12], id: u32) -> Result<Look, Refusal>
    requires { (head_ok (laid_out (edition_of edition) words.now).head ≡ true)
        × (length_ok bytes.now (laid_out (edition_of edition) words.now) ≡ true) }
    ensures { (answer_of result ≡ steps halved bytes.now (laid_out (edition_of edition) words.now) id)
        × (Probed (step_probes bytes.now (laid_out (edition_of edition) words.now) id) result) × (ByStep (answer_of result)) }
{
    let column = laid(edition, words);
    let head = column.head;
    let start = numbers::size(column.start);
    let end = start + numbers::size(head.id_bytes);
    let place = locate(&bytes[start..end], ask_of(column, id));
    let Located::At {
        ordinal,
        words: counted,
        probes,
    } = place
    else {
        let Located::Absent { words, probes } = place else {
            return Err(Refusal::Broken);
        };
        return Ok(Look::Absent { words, probes });
    };
    let ordinal = numbers::wide32(ordinal);
    let Some(value) = value_in(bytes, end, edition, words, ordinal) else {
        return Err(Refusal::Broken);
    };
    Ok(Look::Found {
        ordinal,
        value,
        words: counted,
        probes,
    })
}

// The same, written where the caller wants it.
pub fn put_steps(out: &mut [u64; 6], edition: Edition, words: &[u64; 12], lent: &&[u8], id: u32)
    requires { (head_ok (laid_out (edition_of edition) words.now).head ≡ true)
        × (length_ok lent.now.now (laid_out (edition_of edition) words.now) ≡ true) }
    ensures { (out.new
        ≡ answer_words (step_probes lent.now.now (laid_out (edition_of edition) words.now) id)
        (steps halved lent.now.now (laid_out (edition_of edition) words.now) id))
        × (ByStep (steps halved lent.now.now (laid_out (edition_of edition) words.now) id)) }
{
    let answer = steps_of(*lent, edition, words, id);
    put_answer(out, answer);
}
