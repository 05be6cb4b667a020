// Pairs from an id on, and the pair with an ordinal, for C.
ghost use Rattle.std.specs.Prelude.{◌≡◌, min, length};
ghost use Rattle.format.specs.Editions.{editions};
ghost use Rattle.format.specs.ReadFrom.{read_from, read_from_in, readout_reply, readout_after};
ghost use Rattle.format.specs.PairAt.{pair_at, pair_at_in};
ghost use Rattle.answers.specs.Words.{opened_in, pair_words, readout_words};

use boundary::pairs;

#[unsafe(no_mangle)]
pub extern "C" fn signalfern_read_from_to(
    bytes: &[u8],
    id: u32,
    ids: &mut [u32],
    values: &mut [i64],
    readout: &mut [u64; 3],
)
    ensures replies { readout.new
        ≡ readout_words (readout_reply (read_from editions bytes.now id (min (length ids.old) (length values.old)))) }
    ensures ids_placed { ids.new
        ≡ readout_after (λ w. w.ids) (read_from editions bytes.now id (min (length ids.old) (length values.old)))
        ids.old }
    ensures values_placed { values.new
        ≡ readout_after (λ w. w.values) (read_from editions bytes.now id (min (length ids.old) (length values.old)))
        values.old }
{
    let told = signalfern::read_from(bytes, id, ids, values);
    pairs::put_readout(readout, told);
}

#[unsafe(no_mangle)]
pub extern "C" fn signalfern_read_from_in_to(
    column: &[u64; 12],
    bytes: &[u8],
    id: u32,
    ids: &mut [u32],
    values: &mut [i64],
    readout: &mut [u64; 3],
)
    ensures replies { readout.new
        ≡ readout_words (readout_reply (read_from_in bytes.now (opened_in column.now) id
        (min (length ids.old) (length values.old)))) }
    ensures ids_placed { ids.new
        ≡ readout_after (λ w. w.ids) (read_from_in bytes.now (opened_in column.now) id
        (min (length ids.old) (length values.old))) ids.old }
    ensures values_placed { values.new
        ≡ readout_after (λ w. w.values) (read_from_in bytes.now (opened_in column.now) id
        (min (length ids.old) (length values.old))) values.old }
{
    let told = signalfern::read_from_in(boundary::column_in(column), bytes, id, ids, values);
    pairs::put_readout(readout, told);
}

#[unsafe(no_mangle)]
pub extern "C" fn signalfern_pair_at_to(bytes: &[u8], ordinal: u64, pair: &mut [u64; 5])
    ensures { pair.new ≡ pair_words (pair_at editions bytes.now ordinal) }
{
    let told = signalfern::pair_at(bytes, ordinal);
    pairs::put_pair(pair, told);
}

#[unsafe(no_mangle)]
pub extern "C" fn signalfern_pair_at_in_to(
    column: &[u64; 12],
    bytes: &[u8],
    ordinal: u64,
    pair: &mut [u64; 5],
)
    ensures { pair.new ≡ pair_words (pair_at_in bytes.now (opened_in column.now) ordinal) }
{
    let told = signalfern::pair_at_in(boundary::column_in(column), bytes, ordinal);
    pairs::put_pair(pair, told);
}
