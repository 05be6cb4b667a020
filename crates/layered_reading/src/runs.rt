// A run of the machine column's pairs that are below the correction's next id, copied from its buffer into the lent lists: four at a time, then one by one.
ghost use Rattle.std.specs.Prelude.{◌≡◌, ◌+◌, ◌-◌, ◌≤◌, ◌<◌, length, get_or, take, drop};
ghost use Rattle.std.proofs.lemmas.List.Edits.{sets};
ghost use Rattle.layered_reading.specs.Runs.{RunRoom, RunTo, run_target, Put};

use super::MACHINE;

// One pair in place i of the lists.
pub fn put(
    ids: &mut [u32],
    values: &mut [i64],
    columns: &mut [u8],
    i: usize,
    id: u32,
    value: i64,
    column: u8,
)
    requires { (i < length ids.old) × (i < length values.old) × (i < length columns.old) }
    ensures { Put i id value column ids.old ids.new values.old values.new columns.old
        columns.new }
{
    ids[i] = id;
    values[i] = value;
    columns[i] = column;
}

// ---- four at a time

// The four elements of the buffer from place k on, in the places of the list from i on: one store, as their number is fixed.
fn put_four<T: Copy>(to: &mut [T], i: usize, from: &[T], k: usize)
    requires { (i + 4 ≤ length to.old) × (k + 4 ≤ length from.now) }
    ensures { to.new ≡ sets to.old i (take 4 (drop k from.now)) }
{
    to[i..i + 4].copy_from_slice(&from[k..k + 4]);
}

// From place m of the buffer on, as long as four are left and the last of them, which is the greatest, is below the id. Hands back the place after them.
pub fn fours(
    ids: &mut [u32],
    values: &mut [i64],
    columns: &mut [u8],
    i: usize,
    machine_ids: &[u32],
    machine_values: &[i64],
    m: usize,
    end: usize,
    id: u32,
) -> usize
    requires { RunRoom i m end machine_ids.now machine_values.now ids.old values.old columns.old }
    ensures { RunTo i m end id result machine_ids.now machine_values.now ids.old ids.new values.old
        values.new columns.old columns.new }
{
    let mut k = m;
    let mut p = i;
    // No range by fours: `ones` goes on at k, and how many are left is asked before each four.
    while 4 <= end - k {
        if id <= machine_ids[k + 3] {
            return k;
        }
        put_four(ids, p, machine_ids, k);
        put_four(values, p, machine_values, k);
        put_four(columns, p, &[MACHINE; 4], 0);
        k += 4;
        p += 4;
    }
    k
}

// One by one, up to the first that is not below the id.
pub fn ones(
    ids: &mut [u32],
    values: &mut [i64],
    columns: &mut [u8],
    i: usize,
    machine_ids: &[u32],
    machine_values: &[i64],
    m: usize,
    end: usize,
    id: u32,
) -> usize
    requires { RunRoom i m end machine_ids.now machine_values.now ids.old values.old columns.old }
    ensures { (RunTo i m end id result machine_ids.now machine_values.now ids.old ids.new values.old
        values.new columns.old columns.new) × (result < end → id ≤ get_or machine_ids.now result 0) }
{
    for k in m..end {
        let y = machine_ids[k];
        if id <= y {
            return k;
        }
        let v = machine_values[k];
        put(ids, values, columns, i + (k - m), y, v, MACHINE);
    }
    end
}

// The id after the last of the run from place m to place k.
pub fn target_after(ids: &[u32], m: usize, k: usize, target: u64) -> u64
    requires { (m ≤ k) × (k ≤ length ids.now) }
    ensures { result ≡ run_target target (k - m) ids.now m }
{
    if m < k {
        return numbers::wide32(ids[k - 1]) + 1;
    }
    target
}
