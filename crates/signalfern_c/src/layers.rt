// The calls on a machine column and a correction (document 02, [10]): each is its two look-ups and the rule over them.
ghost use Rattle.std.specs.Prelude.{◌≡◌, min, length};
ghost use Rattle.format.specs.Editions.{editions};
ghost use Rattle.format.specs.Layered.{look_up_layered, look_up_layered_in, layered_part};
ghost use Rattle.format.specs.LayeredPage.{layered_page, layered_page_in, layered_reply, layered_after};
ghost use Rattle.format.specs.LayeredPage.{layered_ordinal, layered_value, layered_kind, layered_column};
ghost use Rattle.format.specs.LayeredReading.{read_layered, read_layered_in, layered_read_reply, layered_read_after};
ghost use Rattle.format.specs.LayeredReading.{pair_id, pair_value, pair_column};
ghost use Rattle.answers.specs.Words.{opened_in, layered_words, part_words};
ghost use Rattle.answers.specs.Words.{layered_page_words, layered_readout_words};

use super::{look_from, look_in};
use boundary::layers;
use layered::Part;

#[unsafe(no_mangle)]
pub extern "C" fn signalfern_look_up_layered_to(
    machine: &[u8],
    correction: &[u8],
    id: u32,
    answer: &mut [u64; 7],
)
    ensures { answer.new ≡ layered_words (look_up_layered editions machine.now correction.now id) }
{
    let mut above = [0u64; 6];
    look_from(&mut above, &correction, id);
    if above[0] != 1 {
        layers::put_on_top(answer, &above);
        return;
    }
    let mut below = [0u64; 6];
    look_from(&mut below, &machine, id);
    layers::put_underneath(answer, above[4], &below);
}

#[unsafe(no_mangle)]
pub extern "C" fn signalfern_look_up_layered_in_to(
    machine_column: &[u64; 12],
    machine: &[u8],
    correction_column: &[u64; 12],
    correction: &[u8],
    id: u32,
    answer: &mut [u64; 7],
)
    ensures { answer.new
        ≡ layered_words (look_up_layered_in machine.now (opened_in machine_column.now)
        correction.now (opened_in correction_column.now) id) }
{
    let mut above = [0u64; 6];
    look_in(&mut above, correction_column, &correction, id);
    if above[0] != 1 {
        layers::put_on_top(answer, &above);
        return;
    }
    let mut below = [0u64; 6];
    look_in(&mut below, machine_column, &machine, id);
    layers::put_underneath(answer, above[4], &below);
}

#[unsafe(no_mangle)]
pub extern "C" fn signalfern_layered_values_to(
    machine: &[u8],
    correction: &[u8],
    id: u32,
    part: &mut [u64; 3],
)
    ensures { part.new ≡ part_words (layered_part editions machine.now correction.now id) }
{
    let told: Part = signalfern::layered_part(machine, correction, id);
    layers::put_part(part, told);
}

#[unsafe(no_mangle)]
pub extern "C" fn signalfern_look_up_layered_page_to(
    machine: &[u8],
    correction: &[u8],
    ids: &[u32],
    ordinals: &mut [u64],
    values: &mut [i64],
    kinds: &mut [u8],
    columns: &mut [u8],
    reply: &mut [u64; 4],
)
    ensures replies { reply.new
        ≡ layered_page_words (length ids.now) (layered_reply
        (layered_page editions machine.now correction.now ids.now (length ordinals.old)
        (length values.old) (length kinds.old) (length columns.old))) }
    ensures ordinals_placed { ordinals.new
        ≡ layered_after layered_ordinal
        (layered_page editions machine.now correction.now ids.now (length ordinals.old)
        (length values.old) (length kinds.old) (length columns.old))
        ordinals.old }
    ensures values_placed { values.new
        ≡ layered_after layered_value
        (layered_page editions machine.now correction.now ids.now (length ordinals.old)
        (length values.old) (length kinds.old) (length columns.old))
        values.old }
    ensures kinds_placed { kinds.new
        ≡ layered_after layered_kind
        (layered_page editions machine.now correction.now ids.now (length ordinals.old)
        (length values.old) (length kinds.old) (length columns.old))
        kinds.old }
    ensures columns_placed { columns.new
        ≡ layered_after layered_column
        (layered_page editions machine.now correction.now ids.now (length ordinals.old)
        (length values.old) (length kinds.old) (length columns.old))
        columns.old }
{
    let n = ids.len();
    let told = signalfern::look_up_layered_page(
        machine, correction, ids, ordinals, values, kinds, columns,
    );
    layers::put_layered_page(reply, told, n);
}

#[unsafe(no_mangle)]
pub extern "C" fn signalfern_look_up_layered_page_in_to(
    machine_column: &[u64; 12],
    machine: &[u8],
    correction_column: &[u64; 12],
    correction: &[u8],
    ids: &[u32],
    ordinals: &mut [u64],
    values: &mut [i64],
    kinds: &mut [u8],
    columns: &mut [u8],
    reply: &mut [u64; 4],
)
    ensures replies { reply.new
        ≡ layered_page_words (length ids.now) (layered_reply
        (layered_page_in machine.now (opened_in machine_column.now) correction.now
        (opened_in correction_column.now) ids.now
        (length ordinals.old) (length values.old) (length kinds.old) (length columns.old))) }
    ensures ordinals_placed { ordinals.new
        ≡ layered_after layered_ordinal
        (layered_page_in machine.now (opened_in machine_column.now) correction.now
        (opened_in correction_column.now) ids.now
        (length ordinals.old) (length values.old) (length kinds.old) (length columns.old))
        ordinals.old }
    ensures values_placed { values.new
        ≡ layered_after layered_value
        (layered_page_in machine.now (opened_in machine_column.now) correction.now
        (opened_in correction_column.now) ids.now
        (length ordinals.old) (length values.old) (length kinds.old) (length columns.old))
        values.old }
    ensures kinds_placed { kinds.new
        ≡ layered_after layered_kind
        (layered_page_in machine.now (opened_in machine_column.now) correction.now
        (opened_in correction_column.now) ids.now
        (length ordinals.old) (length values.old) (length kinds.old) (length columns.old))
        kinds.old }
    ensures columns_placed { columns.new
        ≡ layered_after layered_column
        (layered_page_in machine.now (opened_in machine_column.now) correction.now
        (opened_in correction_column.now) ids.now
        (length ordinals.old) (length values.old) (length kinds.old) (length columns.old))
        columns.old }
{
    let n = ids.len();
    let below = boundary::column_in(machine_column);
    let top = boundary::column_in(correction_column);
    let told = signalfern::look_up_layered_page_in(
        below, machine, top, correction, ids, ordinals, values, kinds, columns,
    );
    layers::put_layered_page(reply, told, n);
}

#[unsafe(no_mangle)]
pub extern "C" fn signalfern_read_layered_from_to(
    machine: &[u8],
    correction: &[u8],
    id: u32,
    ids: &mut [u32],
    values: &mut [i64],
    columns: &mut [u8],
    readout: &mut [u64; 4],
)
    ensures replies { readout.new
        ≡ layered_readout_words (layered_read_reply (read_layered editions machine.now correction.now id
        (min (length columns.old) (min (length ids.old) (length values.old))))) }
    ensures ids_placed { ids.new
        ≡ layered_read_after pair_id (read_layered editions machine.now correction.now id
        (min (length columns.old) (min (length ids.old) (length values.old)))) ids.old }
    ensures values_placed { values.new
        ≡ layered_read_after pair_value (read_layered editions machine.now correction.now id
        (min (length columns.old) (min (length ids.old) (length values.old)))) values.old }
    ensures columns_placed { columns.new
        ≡ layered_read_after pair_column (read_layered editions machine.now correction.now id
        (min (length columns.old) (min (length ids.old) (length values.old)))) columns.old }
{
    let told = signalfern::read_layered_from(machine, correction, id, ids, values, columns);
    layers::put_layered_readout(readout, told);
}

#[unsafe(no_mangle)]
pub extern "C" fn signalfern_read_layered_from_in_to(
    machine_column: &[u64; 12],
    machine: &[u8],
    correction_column: &[u64; 12],
    correction: &[u8],
    id: u32,
    ids: &mut [u32],
    values: &mut [i64],
    columns: &mut [u8],
    readout: &mut [u64; 4],
)
    ensures replies { readout.new
        ≡ layered_readout_words (layered_read_reply (read_layered_in machine.now (opened_in machine_column.now) correction.now
        (opened_in correction_column.now) id
        (min (length columns.old) (min (length ids.old) (length values.old))))) }
    ensures ids_placed { ids.new
        ≡ layered_read_after pair_id (read_layered_in machine.now (opened_in machine_column.now) correction.now
        (opened_in correction_column.now) id
        (min (length columns.old) (min (length ids.old) (length values.old)))) ids.old }
    ensures values_placed { values.new
        ≡ layered_read_after pair_value (read_layered_in machine.now (opened_in machine_column.now) correction.now
        (opened_in correction_column.now) id
        (min (length columns.old) (min (length ids.old) (length values.old)))) values.old }
    ensures columns_placed { columns.new
        ≡ layered_read_after pair_column (read_layered_in machine.now (opened_in machine_column.now) correction.now
        (opened_in correction_column.now) id
        (min (length columns.old) (min (length ids.old) (length values.old)))) columns.old }
{
    let below = boundary::column_in(machine_column);
    let top = boundary::column_in(correction_column);
    let told = signalfern::read_layered_from_in(
        below, machine, top, correction, id, ids, values, columns,
    );
    layers::put_layered_readout(readout, told);
}
