// Signalfern: score columns written, checked, read back, looked up and walked. Each call can be handed any input at all; its promise
// fixes the reply and every lent buffer afterwards by the definitions of crate format (document 01, and document 02 for what it adds).
#![tactic(auto)]

ghost use Rattle.std.specs.Prelude.{◌≡◌, min, ◌≤◌, length};
ghost use Rattle.format.specs.Writer.{write, write_planned, write_reply, write_out};
ghost use Rattle.format.specs.Plan.{plan};
ghost use Rattle.format.specs.Check.{check, reading, read_reply, ids_after, values_after};
ghost use Rattle.format.specs.Refusals.{done};
ghost use Rattle.format.specs.Editions.{editions};
ghost use Rattle.format.specs.Opening.{Opened, open_column};
ghost use Rattle.format.specs.LookUp.{step_probes, look_up, look_up_probes, look_up_in};
ghost use Rattle.format.specs.Walk.{stride_words, FewWords};
ghost use Rattle.format.specs.Page.{place_kind, place_ordinal, place_value, page, page_reply, page_after};
ghost use Rattle.format.specs.Next.{next, next_in, last_after};
ghost use Rattle.format.specs.ReadFrom.{read_from, read_from_in, readout_reply, readout_after};
ghost use Rattle.format.specs.PairAt.{pair_at, pair_at_in};
ghost use Rattle.format.specs.FirstBetween.{first_between, first_between_in};
ghost use Rattle.format.specs.BetweenFrom.{first_between_from, first_between_from_in};
ghost use Rattle.format.specs.Layered.{Layer, of_layer, look_up_layered, look_up_layered_in, layered_part, IsPart};
ghost use Rattle.format.specs.LayeredPage.{layered_page, layered_page_in, layered_reply, layered_after};
ghost use Rattle.format.specs.LayeredPage.{layered_ordinal, layered_value, layered_kind, layered_column};
ghost use Rattle.format.specs.LayeredReading.{read_layered, read_layered_in, layered_read_reply, layered_read_after};
ghost use Rattle.format.specs.LayeredReading.{pair_id, pair_value, pair_column};
ghost use Rattle.format.specs.SetBytes.{set_write};
ghost use Rattle.format.specs.SetCalls.{set_check, set_find};
ghost use Rattle.format.specs.Judge.{judge_section};
ghost use Rattle.answers.specs.Replies.{reply_of, answer_of, candidate_of, readout_of, between_of, member_of, Probed, order_of, judgement_of};
ghost use Rattle.column.specs.Opened.{column_of};
ghost use Rattle.layered.specs.Answers.{layered_of, words_in, part_of};
ghost use Rattle.layered.specs.Answers.{layered_reply_of, layered_readout_of};

use answers::{ByteOrder, Cursor, Look, Next, Pair, Readout, Refusal, Rejection};
use column::Column;
use layered::{LayerRefusal, LayeredLook, LayeredWords, Part};

// Writes the column of the pairs (ids, values) in edition 1 to 4, by its number, at rank power `power` into `out` and hands back its byte
// count. Refusals 1, 9, 2 to 4 and 6 in order, each over the whole input before the next; a refusal changes nothing, and success exactly
// the column's bytes. Told edition 4 it plans for itself (document 02, [12]): edition 1, if no table makes the column shorter.
pub fn write(
    ids: &[u32],
    values: &[i64],
    edition: u32,
    power: u32,
    out: &mut [u8],
) -> Result<u64, Refusal>
    ensures replies { reply_of result ≡ write_reply (write edition power ids.now values.now (length out.old)) }
    ensures written { out.new
        ≡ write_out (write edition power ids.now values.now (length out.old)) out.old }
{
    writer::write(ids, values, edition, power, out)
}

// The same by a plan (document 02, [12]): `table`, the distinct values, ascending, gives edition 4, and plain, which is no entry, edition 1.
// Refusals 1 to 4, then 17 for a plan that the small check rejects, then 6.
pub fn write_planned(
    ids: &[u32],
    values: &[i64],
    table: &[i64],
    power: u32,
    out: &mut [u8],
) -> Result<u64, Refusal>
    ensures replies { reply_of result ≡ write_reply (write_planned power ids.now values.now table.now (length out.old)) }
    ensures written { out.new
        ≡ write_out (write_planned power ids.now values.now table.now (length out.old)) out.old }
{
    writer::write_planned(ids, values, table, power, out)
}

// Proposes a plan for the values into the first places of `table`: a table wherever the small check takes one, else plain. Hands back how many
// entries, 0 for plain; 12 with 256 where `table` has fewer places. Nobody need trust it: `write_planned` checks what it is given.
pub fn plan(values: &[i64], table: &mut [i64]) -> Result<u64, Refusal>
    ensures replies { reply_of result ≡ write_reply (plan values.now (length table.old)) }
    ensures proposed { table.new ≡ write_out (plan values.now (length table.old)) table.old }
{
    plans::propose(table, values)
}

// Checks that the bytes are the column of some pair list, and hands back its n. Refusals 7 to 11, then 13.
pub fn check(bytes: &[u8]) -> Result<u64, Refusal>
    ensures { reply_of result ≡ check editions bytes.now }
{
    checking::check(bytes)
}

// Reads a column's ids and values into the first n places of each buffer, and hands back n. Refusals 7 to 11, 12, 13; all is
// verified before a place is written, and a refusal changes nothing.
pub fn read(bytes: &[u8], ids: &mut [u32], values: &mut [i64]) -> Result<u64, Refusal>
    ensures replies { reply_of result ≡ read_reply (reading editions bytes.now (length ids.old) (length values.old)) }
    ensures ids_filled { ids.new
        ≡ ids_after (reading editions bytes.now (length ids.old) (length values.old)) ids.old }
    ensures values_filled { values.new
        ≡ values_after (reading editions bytes.now (length ids.old) (length values.old)) values.old }
{
    reader::read(bytes, ids, values)
}

// Looks one id up by jump entries and ranks: refusals 14, 7 to 11, 15. It reads the header, one jump entry, one block head, at most
// 12 entries or one stride of words (or one block's, without ranks) and one value. The answer tells the words and the entries probed.
pub fn look_up(bytes: &[u8], id: u32) -> Result<Look, Refusal>
    ensures answers { answer_of result ≡ look_up editions bytes.now id }
    ensures words { (c : Opened) → open_column editions bytes.now ≡ done c → FewWords c.head.power (answer_of result) }
    ensures probes { Probed (look_up_probes editions bytes.now id) result }
{
    lookup::look_up(bytes, id)
}

// The same from a column that `Column::open` gave for these bytes, without reading the header again. Any other numbers in its place
// are safe: 14, then 10 where they break a header rule, 11 where they do not fit these bytes, then 15.
pub fn look_up_in(column: Column, bytes: &[u8], id: u32) -> Result<Look, Refusal>
    ensures answers { answer_of result ≡ look_up_in bytes.now (column_of column) id }
    ensures words { FewWords column.head.power (answer_of result) }
    ensures probes { Probed (step_probes bytes.now (column_of column) id) result }
{
    lookup::look_up_in(column, bytes, id)
}

// Looks a page of ids up (document 02, [3]), the header opened once: into place i of each list what `look_up` answers for id i, with
// ordinal 0 and value 0 where the id is absent (kind 1) or its look-up is refused (its refusal number). Hands back the sum of words
// modulo 2^64. Where a list is shorter than the ids, 12 with their count, before a byte is read or written; places after the ids stay.
pub fn look_up_page(
    bytes: &[u8],
    ids: &[u32],
    ordinals: &mut [u64],
    values: &mut [i64],
    kinds: &mut [u8],
) -> Result<u64, Refusal>
    ensures replies { reply_of result
        ≡ page_reply (page editions bytes.now ids.now (length ordinals.old) (length values.old)
        (length kinds.old)) }
    ensures ordinals_placed { ordinals.new
        ≡ page_after place_ordinal (page editions bytes.now ids.now (length ordinals.old)
        (length values.old) (length kinds.old)) ordinals.old }
    ensures values_placed { values.new
        ≡ page_after place_value (page editions bytes.now ids.now (length ordinals.old)
        (length values.old) (length kinds.old)) values.old }
    ensures kinds_placed { kinds.new
        ≡ page_after place_kind (page editions bytes.now ids.now (length ordinals.old)
        (length values.old) (length kinds.old)) kinds.old }
{
    page::look_up_page(bytes, ids, ordinals, values, kinds)
}

// The next scored candidate (document 02, [1]): the first listed id at or above the target with its ordinal and value, or that there is
// none, and the cursor for the call after it. Refusals 14, then 16 for a target below the last one answered, 7 to 11, 15; a refusal
// keeps the cursor. Any cursor is fit, and a new one is `Cursor::new()`.
pub fn next(cursor: Cursor, bytes: &[u8], target: u32) -> Next
    ensures answers { candidate_of result.candidate ≡ next editions bytes.now cursor.last target }
    ensures cursor { result.cursor.last ≡ last_after (next editions bytes.now cursor.last target) cursor.last target }
{
    next::next(cursor, bytes, target)
}

// The same from a column that `Column::open` gave for these bytes, without reading the header again. Any other numbers in its place
// are safe: 14, 16, then 10 where they break a header rule, 11 where they do not fit these bytes, then 15.
pub fn next_in(column: Column, cursor: Cursor, bytes: &[u8], target: u32) -> Next
    ensures answers { candidate_of result.candidate ≡ next_in bytes.now (column_of column) cursor.last target }
    ensures cursor { result.cursor.last ≡ last_after (next_in bytes.now (column_of column) cursor.last target) cursor.last target }
{
    next::next_in(column, cursor, bytes, target)
}

// Pairs from an id on (no request of document 02: docs/DECISIONS.md): into the first places of both lists what `next` answers with a new cursor
// for `id`, then for the id after that one, and so on, as many as both lists have places; the places after them stay as they were. `Ended`:
// no listed id is left; `More`: go on from the last id + 1. Refused only where the very first candidate is, with room for it or not: 14, 7 to
// 11, 15; a refusal changes nothing.
pub fn read_from(
    bytes: &[u8],
    id: u32,
    ids: &mut [u32],
    values: &mut [i64],
) -> Result<Readout, Refusal>
    ensures replies { readout_of result ≡ readout_reply (read_from editions bytes.now id (min (length ids.old) (length values.old))) }
    ensures ids_placed { ids.new
        ≡ readout_after (λ w. w.ids) (read_from editions bytes.now id (min (length ids.old) (length values.old)))
        ids.old }
    ensures values_placed { values.new
        ≡ readout_after (λ w. w.values) (read_from editions bytes.now id (min (length ids.old) (length values.old)))
        values.old }
{
    read_from::read_from(bytes, id, ids, values)
}

// The same from a column that `Column::open` gave for these bytes, without reading the header again. Any other numbers in its place are safe:
// 14, then 10 where they break a header rule, 11 where they do not fit these bytes, then 15.
pub fn read_from_in(
    column: Column,
    bytes: &[u8],
    id: u32,
    ids: &mut [u32],
    values: &mut [i64],
) -> Result<Readout, Refusal>
    ensures replies { readout_of result
        ≡ readout_reply (read_from_in bytes.now (column_of column) id (min (length ids.old) (length values.old))) }
    ensures ids_placed { ids.new
        ≡ readout_after (λ w. w.ids) (read_from_in bytes.now (column_of column) id (min (length ids.old) (length values.old)))
        ids.old }
    ensures values_placed { values.new
        ≡ readout_after (λ w. w.values) (read_from_in bytes.now (column_of column) id (min (length ids.old) (length values.old)))
        values.old }
{
    read_from::read_from_in(column, bytes, id, ids, values)
}

// The pair with an ordinal (no request of document 02: docs/DECISIONS.md): its id and its value, or that there is none, for an ordinal of n or
// more. Refusals 7 to 11, then 15. It reads the header, up to 15 jump entries, one block head, one entry, or up to 9 ranks and a stride's
// words (a block's, without ranks), and one value.
pub fn pair_at(bytes: &[u8], ordinal: u64) -> Result<Option<Pair>, Refusal>
    ensures { candidate_of result ≡ pair_at editions bytes.now ordinal }
{
    pair_at::pair_at(bytes, ordinal)
}

// The same from a column that `Column::open` gave for these bytes, without reading the header again. Any other numbers in its place are safe:
// 10 where they break a header rule, 11 where they do not fit these bytes, then 15.
pub fn pair_at_in(column: Column, bytes: &[u8], ordinal: u64) -> Result<Option<Pair>, Refusal>
    ensures { candidate_of result ≡ pair_at_in bytes.now (column_of column) ordinal }
{
    pair_at::pair_at_in(column, bytes, ordinal)
}

// The first ordinal with a value from `low` to `high`, or that there is none, in a column of edition 3 (document 02, [11]). Refusals 7 to
// 11, of which 9 for any other edition, then 15; low above high gives none. A run of values whose summary shows that it holds none is not
// read.
pub fn first_between(bytes: &[u8], low: i64, high: i64) -> Result<Option<u64>, Refusal>
    ensures { between_of result ≡ first_between bytes.now low high }
{
    between::first_between(bytes, low, high)
}

// The same from a column that `Column::open` gave for these bytes, without reading the header again. Any other numbers in its place are
// safe: 9 for another edition, 10 where they break a header rule, 11 where they do not fit these bytes, then 15.
pub fn first_between_in(
    column: Column,
    bytes: &[u8],
    low: i64,
    high: i64,
) -> Result<Option<u64>, Refusal>
    ensures { between_of result ≡ first_between_in bytes.now (column_of column) low high }
{
    between::first_between_in(column, bytes, low, high)
}

// The same question above an answer (no request of document 02: docs/DECISIONS.md): the first ordinal from `from` on with such a value, so that
// all of them can be listed. None for an ordinal of n or more; else as `first_between`, which is this from 0 on.
pub fn first_between_from(
    bytes: &[u8],
    from: u64,
    low: i64,
    high: i64,
) -> Result<Option<u64>, Refusal>
    ensures { between_of result ≡ first_between_from bytes.now from low high }
{
    between::first_between_from(bytes, from, low, high)
}

// The same from a column that `Column::open` gave for these bytes, as `first_between_in`.
pub fn first_between_from_in(
    column: Column,
    bytes: &[u8],
    from: u64,
    low: i64,
    high: i64,
) -> Result<Option<u64>, Refusal>
    ensures { between_of result ≡ first_between_from_in bytes.now (column_of column) from low high }
{
    between::first_between_from_in(column, bytes, from, low, high)
}

// ---- a correction column on top of a machine column (document 02, [10])

// Looks one id up in both and prefers the correction. Found and refused name their column, and the ordinal is the one there; words
// are told for each column apart, and are no more than its own rank power allows. A refusal by the correction refuses the call; an id
// absent there is looked up in the machine column, which is not opened before.
pub fn look_up_layered(
    machine: &[u8],
    correction: &[u8],
    id: u32,
) -> Result<LayeredLook, LayerRefusal>
    ensures answers { layered_of result ≡ look_up_layered editions machine.now correction.now id }
    ensures words { (layer : Layer) (c : Opened) → open_column editions (of_layer machine.now correction.now layer) ≡ done c
        → words_in layer result ≤ stride_words c.head.power }
{
    layered::look_up_layered(machine, correction, id)
}

// The same from two columns that `Column::open` gave for these bytes. Any other numbers in their place are safe, as in `look_up_in`.
pub fn look_up_layered_in(
    machine_column: Column,
    machine: &[u8],
    correction_column: Column,
    correction: &[u8],
    id: u32,
) -> Result<LayeredLook, LayerRefusal>
    ensures answers { layered_of result
        ≡ look_up_layered_in machine.now (column_of machine_column) correction.now (column_of correction_column) id }
    ensures words { (layer : Layer) → words_in layer result ≤ stride_words (of_layer (column_of machine_column) (column_of correction_column) layer).head.power }
{
    layered::look_up_layered_in(machine_column, machine, correction_column, correction, id)
}

// Hands back the value section of whichever column holds the id, the correction's where both do, as a part of the lent bytes;
// absent or refused, an empty part of the machine column.
pub fn layered_values<'a>(machine: &'a [u8], correction: &'a [u8], id: u32) -> &'a [u8]
    ensures { IsPart result machine.entry correction.entry (layered_part editions machine.now correction.now id) }
{
    layered::layered_values(machine, correction, id)
}

// The same part as numbers, for those who cannot take a reference.
pub fn layered_part(machine: &[u8], correction: &[u8], id: u32) -> Part
    ensures { part_of result ≡ layered_part editions machine.now correction.now id }
{
    layered::layered_part(machine, correction, id)
}

// Looks a page of ids up in both columns (no request of document 02: docs/DECISIONS.md), each header opened once: into place i of each list what
// `look_up_layered` answers for id i, with ordinal 0 and value 0 where the id is absent (kind 1) or its look-up is refused (its refusal number). Found and
// refused places name their column (0 the machine column, 1 the correction); an absent one holds 0. Hands back the sums of words for each column
// apart, modulo 2^64. Where a list is shorter than the ids, 12 with their count, before a byte is read or written; places after the ids stay.
pub fn look_up_layered_page(
    machine: &[u8],
    correction: &[u8],
    ids: &[u32],
    ordinals: &mut [u64],
    values: &mut [i64],
    kinds: &mut [u8],
    columns: &mut [u8],
) -> Result<LayeredWords, Refusal>
    ensures replies { layered_reply_of result
        ≡ layered_reply
        (layered_page editions machine.now correction.now ids.now (length ordinals.old)
        (length values.old) (length kinds.old) (length columns.old)) }
    ensures ordinals_placed { ordinals.new
        ≡ layered_after layered_ordinal
        (layered_page editions machine.now correction.now ids.now (length ordinals.old)
        (length values.old) (length kinds.old) (length columns.old))
        ordinals.old }
    ensures values_placed { values.new
        ≡ layered_after layered_value
        (layered_page editions machine.now correction.now ids.now (length ordinals.old)
        (length values.old) (length kinds.old) (length columns.old))
        values.old }
    ensures kinds_placed { kinds.new
        ≡ layered_after layered_kind
        (layered_page editions machine.now correction.now ids.now (length ordinals.old)
        (length values.old) (length kinds.old) (length columns.old))
        kinds.old }
    ensures columns_placed { columns.new
        ≡ layered_after layered_column
        (layered_page editions machine.now correction.now ids.now (length ordinals.old)
        (length values.old) (length kinds.old) (length columns.old))
        columns.old }
{
    layered_page::look_up_layered_page(machine, correction, ids, ordinals, values, kinds, columns)
}

// The same from two columns that `Column::open` gave for these bytes. Any other numbers in their place are safe, as in `look_up_in`.
pub fn look_up_layered_page_in(
    machine_column: Column,
    machine: &[u8],
    correction_column: Column,
    correction: &[u8],
    ids: &[u32],
    ordinals: &mut [u64],
    values: &mut [i64],
    kinds: &mut [u8],
    columns: &mut [u8],
) -> Result<LayeredWords, Refusal>
    ensures replies { layered_reply_of result
        ≡ layered_reply
        (layered_page_in machine.now (column_of machine_column) correction.now (column_of correction_column) ids.now
        (length ordinals.old) (length values.old) (length kinds.old) (length columns.old)) }
    ensures ordinals_placed { ordinals.new
        ≡ layered_after layered_ordinal
        (layered_page_in machine.now (column_of machine_column) correction.now (column_of correction_column) ids.now
        (length ordinals.old) (length values.old) (length kinds.old) (length columns.old))
        ordinals.old }
    ensures values_placed { values.new
        ≡ layered_after layered_value
        (layered_page_in machine.now (column_of machine_column) correction.now (column_of correction_column) ids.now
        (length ordinals.old) (length values.old) (length kinds.old) (length columns.old))
        values.old }
    ensures kinds_placed { kinds.new
        ≡ layered_after layered_kind
        (layered_page_in machine.now (column_of machine_column) correction.now (column_of correction_column) ids.now
        (length ordinals.old) (length values.old) (length kinds.old) (length columns.old))
        kinds.old }
    ensures columns_placed { columns.new
        ≡ layered_after layered_column
        (layered_page_in machine.now (column_of machine_column) correction.now (column_of correction_column) ids.now
        (length ordinals.old) (length values.old) (length kinds.old) (length columns.old))
        columns.old }
{
    layered_page::look_up_layered_page_in(
        machine_column,
        machine,
        correction_column,
        correction,
        ids,
        ordinals,
        values,
        kinds,
        columns,
    )
}

// The pairs of both columns from an id on (no request of document 02: docs/DECISIONS.md), in the order of ids, into the first places of three lists:
// in each place the smaller of the two columns' next candidates, the correction's where both have the id, and the number of its column (0 the
// machine column, 1 the correction), until neither has one, a list is full, or the next candidate of either would be refused. Hands back how many
// pairs, and whether none is left. Refused, by the column that is named, only where the first step is: 14, then 7 to 11 and 15 by the correction, then
// 7 to 11 and 15 by the machine column; then nothing is written. Places after the pairs stay.
pub fn read_layered_from(
    machine: &[u8],
    correction: &[u8],
    id: u32,
    ids: &mut [u32],
    values: &mut [i64],
    columns: &mut [u8],
) -> Result<Readout, LayerRefusal>
    ensures replies { layered_readout_of result
        ≡ layered_read_reply (read_layered editions machine.now correction.now id
        (min (length columns.old) (min (length ids.old) (length values.old)))) }
    ensures ids_placed { ids.new
        ≡ layered_read_after pair_id (read_layered editions machine.now correction.now id
        (min (length columns.old) (min (length ids.old) (length values.old)))) ids.old }
    ensures values_placed { values.new
        ≡ layered_read_after pair_value (read_layered editions machine.now correction.now id
        (min (length columns.old) (min (length ids.old) (length values.old)))) values.old }
    ensures columns_placed { columns.new
        ≡ layered_read_after pair_column (read_layered editions machine.now correction.now id
        (min (length columns.old) (min (length ids.old) (length values.old)))) columns.old }
{
    layered_reading::read_layered_from(machine, correction, id, ids, values, columns)
}

// The same from two columns that `Column::open` gave for these bytes. Any other numbers in their place are safe, as in `look_up_in`: 10 and 11 in
// the place of 7 to 11.
pub fn read_layered_from_in(
    machine_column: Column,
    machine: &[u8],
    correction_column: Column,
    correction: &[u8],
    id: u32,
    ids: &mut [u32],
    values: &mut [i64],
    columns: &mut [u8],
) -> Result<Readout, LayerRefusal>
    ensures replies { layered_readout_of result
        ≡ layered_read_reply (read_layered_in machine.now (column_of machine_column) correction.now (column_of correction_column) id
        (min (length columns.old) (min (length ids.old) (length values.old)))) }
    ensures ids_placed { ids.new
        ≡ layered_read_after pair_id
        (read_layered_in machine.now (column_of machine_column) correction.now (column_of correction_column) id
        (min (length columns.old) (min (length ids.old) (length values.old)))) ids.old }
    ensures values_placed { values.new
        ≡ layered_read_after pair_value
        (read_layered_in machine.now (column_of machine_column) correction.now (column_of correction_column) id
        (min (length columns.old) (min (length ids.old) (length values.old)))) values.old }
    ensures columns_placed { columns.new
        ≡ layered_read_after pair_column
        (read_layered_in machine.now (column_of machine_column) correction.now (column_of correction_column) id
        (min (length columns.old) (min (length ids.old) (length values.old)))) columns.old }
{
    layered_reading::read_layered_from_in(
        machine_column,
        machine,
        correction_column,
        correction,
        id,
        ids,
        values,
        columns,
    )
}

// ---- the in-memory set's sibling on disk (document 02, [14]): ids alone, each block listed, its missing ones listed, or a bitmap

// Writes the set of the ids into `out` and hands back its byte count. Refusals 3, 4 and 6 in order, each over the whole input before the
// next; a refusal changes nothing, and success exactly the set's bytes.
pub fn set_write(ids: &[u32], out: &mut [u8]) -> Result<u64, Refusal>
    ensures replies { reply_of result ≡ write_reply (set_write ids.now (length out.old)) }
    ensures written { out.new ≡ write_out (set_write ids.now (length out.old)) out.old }
{
    set_writer::write(ids, out)
}

// Checks that the bytes are the set of some id list, and hands back how many ids it has. The first fault in byte order decides: 7 and 8
// for a number that is none, 13 for all else. The time goes by the bytes, not by the ids.
pub fn set_check(bytes: &[u8]) -> Result<u64, Refusal>
    ensures { reply_of result ≡ set_check bytes.now }
{
    set_check::check(bytes)
}

// Whether an id is in the set, and its ordinal there: refusal 14, then as the check.
pub fn set_find(bytes: &[u8], id: u32) -> Result<Option<u64>, Refusal>
    ensures { member_of result ≡ set_find bytes.now id }
{
    set_check::find(bytes, id)
}

// ---- another maker's id section (document 02, [9])

// Judges a bare id section, without a header of ours, by its bytes, its number of jump entries, its rank power and its byte order: accepted
// with the number of ids, or the first fault with its reason and its place. A power or an entry count outside document 01's limits is told
// before a byte is read.
pub fn judge_section(
    bytes: &[u8],
    jump_count: u64,
    power: u64,
    order: ByteOrder,
) -> Result<u64, Rejection>
    ensures { judgement_of result ≡ judge_section (order_of order) power jump_count bytes.now }
{
    checking::section::judge_section(bytes, jump_count, power, order)
}
