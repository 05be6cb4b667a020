// The library's calls for C: each a call of crate signalfern, whose answer is put as words where C wants them (crate boundary). Numbers, slices
// and arrays cross, and no struct: a slice is a pointer and a length, an opened column a pointer to its twelve words, an answer a pointer to
// words that the call writes, all of them, on every input. include/signalfern.h declares the calls, with names for the words, and hands structs
// back by small functions over them. The two look-ups of one id have a quick road for columns of edition 1: both roads end in one function that
// stands apart (`lookup::apart`; docs/DECISIONS.md, "Speed"). The calls on two columns stand in layers.rt, that on a page of ids in pages.rt,
// those on pairs from an id on and by ordinal in pairs.rt, those on plans in planning.rt, those on a range of values in ranges.rt, those on
// sets in sets.rt, the judge of a bare id section in sections.rt.
#![tactic(auto)]

ghost use Rattle.std.specs.Prelude.{◌≡◌, length};
ghost use Rattle.format.specs.Writer.{write, write_reply, write_out};
ghost use Rattle.format.specs.Check.{check, reading, read_reply, ids_after, values_after};
ghost use Rattle.format.specs.Refusals.{done};
ghost use Rattle.format.specs.Editions.{editions};
ghost use Rattle.format.specs.Opening as Op;
ghost use Rattle.format.specs.Opening.{open_column};
ghost use Rattle.format.specs.LookUp.{step_probes, look_up, look_up_probes, look_up_in};
ghost use Rattle.format.specs.Walk.{FewWords};
ghost use Rattle.format.specs.Next.{next, next_in};
ghost use Rattle.answers.specs.Words.{reply_words, column_words, opened_in, answer_words, next_words};

use answers::Cursor;
use column::Column;
use lookup::apart;
use values::Edition;

mod layers;
mod pages;
mod pairs;
mod planning;
mod ranges;
mod sections;
mod sets;

// The boundary's version in a name, so that what was made for another one does not link with this archive (c/names.c, rust/build.rs): 100 times
// the major number and the minor one.
#[unsafe(no_mangle)]
pub extern "C" fn signalfern_abi_0_2() -> u64
    ensures { result ≡ 2 }
{
    2
}

#[unsafe(no_mangle)]
pub extern "C" fn signalfern_write_to(
    ids: &[u32],
    values: &[i64],
    edition: u32,
    power: u32,
    out: &mut [u8],
    reply: &mut [u64; 2],
)
    ensures replies { reply.new ≡ reply_words (write_reply (write edition power ids.now values.now (length out.old))) }
    ensures written { out.new
        ≡ write_out (write edition power ids.now values.now (length out.old)) out.old }
{
    let told = signalfern::write(ids, values, edition, power, out);
    boundary::put_reply(reply, told);
}

#[unsafe(no_mangle)]
pub extern "C" fn signalfern_check_to(bytes: &[u8], reply: &mut [u64; 2])
    ensures { reply.new ≡ reply_words (check editions bytes.now) }
{
    let told = signalfern::check(bytes);
    boundary::put_reply(reply, told);
}

#[unsafe(no_mangle)]
pub extern "C" fn signalfern_read_to(
    bytes: &[u8],
    ids: &mut [u32],
    values: &mut [i64],
    reply: &mut [u64; 2],
)
    ensures replies { reply.new
        ≡ reply_words (read_reply (reading editions bytes.now (length ids.old) (length values.old))) }
    ensures filled { ids.new
        ≡ ids_after (reading editions bytes.now (length ids.old) (length values.old)) ids.old }
    ensures valued { values.new
        ≡ values_after (reading editions bytes.now (length ids.old) (length values.old)) values.old }
{
    let told = signalfern::read(bytes, ids, values);
    boundary::put_reply(reply, told);
}

// From bytes. This and `look_in` are asked by the calls on two columns as well (layers.rt), so that they stand apart from the calls: they are
// lent the slice where it lies, since one that is handed on by value is copied, 16 bytes read just after they were written as twice 8.
fn look_from(answer: &mut [u64; 6], lent: &&[u8], id: u32)
    ensures { answer.new
        ≡ answer_words (look_up_probes editions lent.now.now id) (look_up editions lent.now.now id) }
{
    let column = column::quick(*lent);
    if lookup::plain_fits(column, *lent, id) {
        let words = apart::words_of(column);
        apart::put_steps(answer, Edition::Plain, &words, lent, id);
        return;
    }
    let other = column;
    let told = lookup::look_up_read(other, *lent, id);
    apart::put_answer(answer, told);
}

#[unsafe(no_mangle)]
pub extern "C" fn signalfern_look_up_to(bytes: &[u8], id: u32, answer: &mut [u64; 6])
    ensures answers { answer.new ≡ answer_words (look_up_probes editions bytes.now id) (look_up editions bytes.now id) }
    ensures words { (c : Op.Opened) → open_column editions bytes.now ≡ done c
        → FewWords c.head.power (look_up editions bytes.now id) }
{
    look_from(answer, &bytes, id);
}

#[unsafe(no_mangle)]
pub extern "C" fn signalfern_open_to(bytes: &[u8], column: &mut [u64; 12])
    ensures { column.new ≡ column_words (open_column editions bytes.now) }
{
    let opened = Column::open(bytes);
    boundary::put_column(column, opened);
}

// By any twelve words. Called from two places, so that it stands apart from the quick road.
fn answer_in(answer: &mut [u64; 6], column: &[u64; 12], lent: &&[u8], id: u32)
    ensures { answer.new
        ≡ answer_words (step_probes lent.now.now (opened_in column.now) id)
        (look_up_in lent.now.now (opened_in column.now) id) }
{
    let told = signalfern::look_up_in(boundary::column_in(column), *lent, id);
    apart::put_answer(answer, told);
}

// By any twelve words, and sooner by those of a column of edition 1.
fn look_in(answer: &mut [u64; 6], column: &[u64; 12], lent: &&[u8], id: u32)
    ensures { answer.new
        ≡ answer_words (step_probes lent.now.now (opened_in column.now) id)
        (look_up_in lent.now.now (opened_in column.now) id) }
{
    if column[2] != 1 {
        answer_in(answer, column, lent, id);
        return;
    }
    let opened = apart::laid(Edition::Plain, column);
    if !lookup::plain_fits(opened, *lent, id) {
        answer_in(answer, column, lent, id);
        return;
    }
    apart::put_steps(answer, Edition::Plain, column, lent, id);
}

#[unsafe(no_mangle)]
pub extern "C" fn signalfern_look_up_in_to(
    column: &[u64; 12],
    bytes: &[u8],
    id: u32,
    answer: &mut [u64; 6],
)
    ensures answers { answer.new
        ≡ answer_words (step_probes bytes.now (opened_in column.now) id)
        (look_up_in bytes.now (opened_in column.now) id) }
    ensures words { FewWords (opened_in column.now).head.power (look_up_in bytes.now (opened_in column.now) id) }
{
    look_in(answer, column, &bytes, id);
}

#[unsafe(no_mangle)]
pub extern "C" fn signalfern_next_to(last: u64, bytes: &[u8], target: u32, candidate: &mut [u64; 6])
    ensures { candidate.new ≡ next_words (next editions bytes.now last target) last target }
{
    let told = signalfern::next(Cursor { last }, bytes, target);
    boundary::put_candidate(candidate, told);
}

#[unsafe(no_mangle)]
pub extern "C" fn signalfern_next_in_to(
    column: &[u64; 12],
    last: u64,
    bytes: &[u8],
    target: u32,
    candidate: &mut [u64; 6],
)
    ensures { candidate.new ≡ next_words (next_in bytes.now (opened_in column.now) last target) last target }
{
    let told = signalfern::next_in(boundary::column_in(column), Cursor { last }, bytes, target);
    boundary::put_candidate(candidate, told);
}
