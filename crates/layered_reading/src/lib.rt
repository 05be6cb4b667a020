// The pairs of a machine column and of a correction on top of it, from an id on, in the order of ids. Each column's pairs are read into a buffer, and
// the two are merged into the lent lists.
#![tactic(auto)]

ghost use Rattle.std.specs.Prelude.{◌≡◌, true, ◌&&◌, ◌+◌, ◌-◌, ◌≤◌, ◌<◌, min, eqb, leb, length, replicate};
ghost use Rattle.std.proofs.lemmas.List.Edits.{sets};
ghost use Rattle.format.specs.Limits.{max_id};
ghost use Rattle.format.specs.Editions.{editions};
ghost use Rattle.format.specs.Refusals.{done};
ghost use Rattle.format.specs.Opening.{head_ok, length_ok, open_column};
ghost use Rattle.format.specs.Layered.{layer_number};
ghost use Rattle.format.specs.LayeredReading.{read_layered, read_layered_in};
ghost use Rattle.column.specs.Opened.{column_of};
ghost use Rattle.layered.specs.Answers.{layer_of};
ghost use Rattle.read_from.specs.Blocks.{Roomy};
ghost use Rattle.layered_reading.specs.Parts.{read_layered_steps};
ghost use Rattle.layered_reading.specs.Buffers.{Within, Loose, Filled, Lists, Merges, StopsBy, Rests, Kept};
ghost use Rattle.layered_reading.specs.Buffers.{BelowRefused, Leaves};

use answers::{Readout, Refusal};
use column::Column;
use layered::{Layer, LayerRefusal};

mod runs;

// The columns' numbers as a list of columns has them. (Numbers, and no enum: C lends the list as bytes.)
const MACHINE: u8 = 0;

const CORRECTION: u8 = 1;

// ---- one column's buffer

// So many pairs a buffer has room for.
const PLACES: usize = 512;

// A correction has few pairs: its buffer is first filled with so many, and later with these and as many as may be expected by what was met so far.
const FEW: usize = 16;

// Of a buffer's pairs those from place `at` to place `count` are left; ended, where the column has none after them.
#[derive(Clone, Copy, Debug, PartialEq, Eq)]
struct Buffer {
    at: usize,
    count: usize,
    ended: bool,
}

// The column's pairs from the target on, as many as are wanted.
fn refill(
    ids: &mut [u32],
    values: &mut [i64],
    bytes: &[u8],
    column: Column,
    target: u64,
    want: usize,
) -> Result<Buffer, Refusal>
    requires { (Roomy bytes.now (column_of column) want ids.old values.old) × (target ≤ max_id) }
    ensures { Filled bytes.now (column_of column) target want ids.new values.new result }
{
    match read_from::read_up_to(ids, values, bytes, column, want, target as u32)? {
        Readout::More(n) => Ok(Buffer {
            at: 0,
            count: numbers::size(n),
            ended: false,
        }),
        Readout::Ended(n) => Ok(Buffer {
            at: 0,
            count: numbers::size(n),
            ended: true,
        }),
    }
}

// The buffer as it is, where a pair is left in it or none comes after; else filled anew.
fn renew(
    ids: &mut [u32],
    values: &mut [i64],
    held: Buffer,
    bytes: &[u8],
    column: Column,
    target: u64,
    want: usize,
) -> Result<Buffer, Refusal>
    requires { (Roomy bytes.now (column_of column) want ids.old values.old)
        × (Loose bytes.now (column_of column) target ids.old values.old held) }
    ensures { Filled bytes.now (column_of column) target want ids.new values.new result }
{
    if held.at < held.count {
        return Ok(held);
    }
    if held.ended {
        return Ok(held);
    }
    refill(ids, values, bytes, column, target, want)
}

// How many of the correction's pairs to read next, of which `count` were met among i pairs and so many more have room.
fn wanted(count: usize, want: usize, i: usize) -> usize
    requires { (count ≤ 512) × (want ≤ 512) }
    ensures { (result ≤ want) × (0 < want → 0 < result) }
{
    want.min(FEW + count * want / 2 / (i / 2 + 1))
}

// Whether the column has no pair left at all.
fn spent(held: Buffer) -> bool
    ensures { result ≡ (held.ended && eqb held.at held.count) }
{
    held.ended & (held.at == held.count)
}

// ---- two buffers merged

// How many pairs the lists have, the id after the last of them, and where each buffer is.
#[derive(Clone, Copy, Debug, PartialEq, Eq)]
struct Met {
    count: usize,
    target: u64,
    machine: usize,
    correction: usize,
}

// Past a place, where its id is taken with the other column's.
fn past(at: usize, id: u32, taken: u32) -> usize
    requires { at < 18446744073709551615 }
    ensures { (id ≡ taken → result ≡ at + 1) × ((id ≡ taken → ⊥) → result ≡ at) }
{
    if id == taken { at + 1 } else { at }
}

// For each of the correction's pairs the machine column's below it and then itself, in the place of the machine column's where both have the id, as long
// as both buffers have one and the lists have room.
fn merge(
    ids: &mut [u32],
    values: &mut [i64],
    columns: &mut [u8],
    room: usize,
    start: usize,
    from: u64,
    machine_ids: &[u32],
    machine_values: &[i64],
    machine: Buffer,
    correction_ids: &[u32],
    correction_values: &[i64],
    correction: Buffer,
) -> Met
    requires { (Lists room start ids.old values.old columns.old) × (Within machine_ids.now machine_values.now machine)
        × (Within correction_ids.now correction_values.now correction) }
    ensures { Merges room start from machine_ids.now machine_values.now machine correction_ids.now
        correction_values.now correction result ids.old ids.new values.old values.new
        columns.old columns.new }
{
    let mut i = start;
    let mut target = from;
    let mut m = machine.at;
    let mut c = correction.at;
    // (No `for`: a turn takes as many places as a run has.)
    while i < room {
        if m == machine.count {
            return Met {
                count: i,
                target,
                machine: m,
                correction: c,
            };
        }
        if c == correction.count {
            return Met {
                count: i,
                target,
                machine: m,
                correction: c,
            };
        }
        let x = correction_ids[c];
        let end = m + (machine.count - m).min(room - i);
        let four = runs::fours(
            ids,
            values,
            columns,
            i,
            machine_ids,
            machine_values,
            m,
            end,
            x,
        );
        let k = runs::ones(
            ids,
            values,
            columns,
            i + (four - m),
            machine_ids,
            machine_values,
            four,
            end,
            x,
        );
        target = runs::target_after(machine_ids, m, k, target);
        i += k - m;
        m = k;
        if k == end {
            continue;
        }
        let y = machine_ids[k];
        let v = correction_values[c];
        runs::put(ids, values, columns, i, x, v, CORRECTION);
        target = numbers::wide32(x) + 1;
        m = past(k, y, x);
        c += 1;
        i += 1;
    }
    Met {
        count: i,
        target,
        machine: m,
        correction: c,
    }
}

// ---- one column alone, and the end

// The column's number in the places from i to the end.
fn mark(columns: &mut [u8], i: usize, end: usize, column: u8)
    requires { (i ≤ end) × (end ≤ length columns.old) }
    ensures { columns.new ≡ sets columns.old i (replicate (end - i) column) }
{
    columns[i..end].fill(column);
}

fn number_of(layer: Layer) -> u8
    ensures { result ≡ layer_number (layer_of layer) }
{
    match layer {
        Layer::Machine => MACHINE,
        Layer::Correction => CORRECTION,
    }
}

// A column whose next candidate is refused: that is the call's refusal before the first pair, and its end after one.
fn stopped(layer: Layer, why: Refusal, i: usize) -> Result<Readout, LayerRefusal>
    ensures { StopsBy layer why i result }
{
    if i == 0 {
        return Err(LayerRefusal { layer, why });
    }
    Ok(Readout::More(numbers::long(i)))
}

// All that is left, where the other column has no pair from the target on.
fn rest(
    ids: &mut [u32],
    values: &mut [i64],
    columns: &mut [u8],
    layer: Layer,
    bytes: &[u8],
    column: Column,
    room: usize,
    i: usize,
    target: u64,
) -> Result<Readout, LayerRefusal>
    requires { (Lists room i ids.old values.old columns.old) × (head_ok (column_of column).head ≡ true)
        × (length_ok bytes.now (column_of column) ≡ true) }
    ensures { Rests (layer_of layer) bytes.now (column_of column) room i target result ids.old ids.new values.old
        values.new columns.old columns.new }
{
    if numbers::wide32(Column::MAX_ID) < target {
        return Ok(Readout::Ended(numbers::long(i)));
    }
    let got = read_from::read_up_to(
        &mut ids[i..],
        &mut values[i..],
        bytes,
        column,
        room - i,
        target as u32,
    );
    let read = match got {
        Ok(read) => read,
        Err(why) => return stopped(layer, why, i),
    };
    match read {
        Readout::More(n) => {
            let end = i + numbers::size(n);
            mark(columns, i, end, number_of(layer));
            Ok(Readout::More(numbers::long(end)))
        }
        Readout::Ended(n) => {
            let end = i + numbers::size(n);
            mark(columns, i, end, number_of(layer));
            Ok(Readout::Ended(numbers::long(end)))
        }
    }
}

// ---- both columns

// On columns that keep the header rules and fit their bytes.
fn layered_steps(
    ids: &mut [u32],
    values: &mut [i64],
    columns: &mut [u8],
    machine: &[u8],
    machine_column: Column,
    correction: &[u8],
    correction_column: Column,
    from: u32,
) -> Result<Readout, LayerRefusal>
    requires { (Kept machine.now (column_of machine_column)) × (Kept correction.now (column_of correction_column)) × (from ≤ max_id) }
    ensures { Leaves (read_layered_steps machine.now (column_of machine_column) correction.now (column_of correction_column) from
        (min (length columns.old) (min (length ids.old) (length values.old)))) result ids.old
        ids.new values.old values.new columns.old columns.new }
{
    let room = columns.len().min(ids.len().min(values.len()));
    let mut machine_ids = [0u32; PLACES];
    let mut machine_values = [0i64; PLACES];
    let mut correction_ids = [0u32; PLACES];
    let mut correction_values = [0i64; PLACES];
    let mut below = Buffer {
        at: 0,
        count: 0,
        ended: false,
    };
    let mut top = below;
    let mut i: usize = 0;
    let mut target = numbers::wide32(from);
    loop {
        let want = PLACES.min(room - i);
        let got = renew(
            &mut correction_ids,
            &mut correction_values,
            top,
            correction,
            correction_column,
            target,
            wanted(top.count, want, i),
        );
        let upper = match got {
            Ok(upper) => upper,
            Err(why) => return stopped(Layer::Correction, why, i),
        };
        if spent(upper) {
            return rest(
                ids,
                values,
                columns,
                Layer::Machine,
                machine,
                machine_column,
                room,
                i,
                target,
            );
        }
        let got = renew(
            &mut machine_ids,
            &mut machine_values,
            below,
            machine,
            machine_column,
            target,
            want,
        );
        let lower = match got {
            Ok(lower) => lower,
            Err(why) => return stopped(Layer::Machine, why, i),
        };
        if spent(lower) {
            return rest(
                ids,
                values,
                columns,
                Layer::Correction,
                correction,
                correction_column,
                room,
                i,
                target,
            );
        }
        if i == room {
            return Ok(Readout::More(numbers::long(i)));
        }
        let met = merge(
            ids,
            values,
            columns,
            room,
            i,
            target,
            &machine_ids,
            &machine_values,
            lower,
            &correction_ids,
            &correction_values,
            upper,
        );
        below = Buffer {
            at: met.machine,
            count: lower.count,
            ended: lower.ended,
        };
        top = Buffer {
            at: met.correction,
            count: upper.count,
            ended: upper.ended,
        };
        i = met.count;
        target = met.target;
    }
}

// ---- the calls

// The refusal, where the machine column's header is refused: the correction's, if its first step is one.
fn below_refused(
    correction: &[u8],
    column: Column,
    from: u32,
    why: Refusal,
) -> Result<Readout, LayerRefusal>
    requires { (Kept correction.now (column_of column)) × (from ≤ max_id) }
    ensures { BelowRefused correction.now (column_of column) from why result }
{
    let mut ids = [0u32; 1];
    let mut values = [0i64; 1];
    let got = refill(
        &mut ids,
        &mut values,
        correction,
        column,
        numbers::wide32(from),
        0,
    );
    match got {
        Ok(_) => Err(LayerRefusal {
            layer: Layer::Machine,
            why,
        }),
        Err(above) => Err(LayerRefusal {
            layer: Layer::Correction,
            why: above,
        }),
    }
}

// In columns that were opened before: 14, then 10, 11 and 15 by the correction, then 10, 11 and 15 by the machine column.
pub fn read_layered_from_in(
    machine_column: Column,
    machine: &[u8],
    correction_column: Column,
    correction: &[u8],
    from: u32,
    ids: &mut [u32],
    values: &mut [i64],
    columns: &mut [u8],
) -> Result<Readout, LayerRefusal>
    ensures { Leaves (read_layered_in machine.now (column_of machine_column) correction.now (column_of correction_column) from
        (min (length columns.old) (min (length ids.old) (length values.old)))) result ids.old
        ids.new values.old values.new columns.old columns.new }
{
    if !column::id_ok(from) {
        return Err(LayerRefusal {
            layer: Layer::Correction,
            why: Refusal::Id,
        });
    }
    if !column::head_ok(correction_column.head) {
        return Err(LayerRefusal {
            layer: Layer::Correction,
            why: Refusal::Header,
        });
    }
    if !column::length_ok(correction, correction_column) {
        return Err(LayerRefusal {
            layer: Layer::Correction,
            why: Refusal::Length,
        });
    }
    if !column::head_ok(machine_column.head) {
        return below_refused(correction, correction_column, from, Refusal::Header);
    }
    if !column::length_ok(machine, machine_column) {
        return below_refused(correction, correction_column, from, Refusal::Length);
    }
    layered_steps(
        ids,
        values,
        columns,
        machine,
        machine_column,
        correction,
        correction_column,
        from,
    )
}

// With the correction opened.
fn over_machine(
    machine: &[u8],
    column: Column,
    correction: &[u8],
    from: u32,
    ids: &mut [u32],
    values: &mut [i64],
    columns: &mut [u8],
) -> Result<Readout, LayerRefusal>
    requires { (open_column editions correction.now ≡ done (column_of column)) × (leb from max_id ≡ true) }
    ensures { Leaves (read_layered editions machine.now correction.now from
        (min (length columns.old) (min (length ids.old) (length values.old)))) result ids.old
        ids.new values.old values.new columns.old columns.new }
{
    match Column::open(machine) {
        Err(why) => below_refused(correction, column, from, why),
        Ok(below) => layered_steps(
            ids, values, columns, machine, below, correction, column, from,
        ),
    }
}

// 14, then 7 to 11 and 15 by the correction, then 7 to 11 and 15 by the machine column.
pub fn read_layered_from(
    machine: &[u8],
    correction: &[u8],
    from: u32,
    ids: &mut [u32],
    values: &mut [i64],
    columns: &mut [u8],
) -> Result<Readout, LayerRefusal>
    ensures { Leaves (read_layered editions machine.now correction.now from
        (min (length columns.old) (min (length ids.old) (length values.old)))) result ids.old
        ids.new values.old values.new columns.old columns.new }
{
    if !column::id_ok(from) {
        return Err(LayerRefusal {
            layer: Layer::Correction,
            why: Refusal::Id,
        });
    }
    match Column::open(correction) {
        Err(why) => Err(LayerRefusal {
            layer: Layer::Correction,
            why,
        }),
        Ok(column) => over_machine(machine, column, correction, from, ids, values, columns),
    }
}
