// The pair lists that the cases run on, each made from a few numbers, and bytes that show whether they were changed.
#![tactic(auto)]

// The ids first, first + gap and so on, that many.
#[derive(Clone, Copy, Debug, Default, PartialEq, Eq)]
pub struct Run {
    pub first: u64,
    pub gap: u64,
    pub count: u64,
}

// Ids in three runs, one after the other.
#[derive(Clone, Copy, Debug, Default, PartialEq, Eq)]
pub struct Runs {
    pub low: Run,
    pub middle: Run,
    pub high: Run,
}

// Values smallest + (x << shift): x is 0 for the first value, `most` for the second, and any number below it for the others.
#[derive(Clone, Copy, Debug, PartialEq, Eq)]
pub struct Values {
    pub smallest: i64,
    pub most: u64,
    pub shift: u64,
}

pub fn run_of(first: u64, gap: u64, count: u64) -> Run {
    Run { first, gap, count }
}

// The ids of one run.
pub fn one(first: u64, gap: u64, count: u64) -> Runs {
    Runs {
        low: run_of(first, gap, count),
        ..Runs::default()
    }
}

pub fn values_of(smallest: i64, most: u64, shift: u64) -> Values {
    Values {
        smallest,
        most,
        shift,
    }
}

// The next number of a xorshift sequence.
fn random(x: u64) -> u64 {
    let a = x ^ (x << 13);
    let b = a ^ (a >> 7);
    b ^ (b << 17)
}

// An id is the number modulo 2^32.
fn id_of(x: u64) -> u32 {
    (x % 4294967296) as u32
}

// Puts a run's ids from index n on, and answers with the index after them.
fn fill_run(ids: &mut [u32], n: usize, r: Run) -> usize {
    let count = r.count as usize;
    let mut id = r.first;
    for place in ids.iter_mut().skip(n).take(count) {
        *place = id_of(id);
        id = id.wrapping_add(r.gap);
    }
    n.saturating_add(count)
}

// Puts the ids, and answers with their count.
pub fn fill_ids(ids: &mut [u32], r: Runs) -> usize {
    let n = fill_run(ids, 0, r.low);
    let n = fill_run(ids, n, r.middle);
    fill_run(ids, n, r.high)
}

fn value_of(v: Values, i: u64) -> i64 {
    let stored = match i {
        0 => 0,
        1 => v.most,
        _ => random(random(random(i))).checked_rem(v.most).unwrap_or(0),
    };
    v.smallest
        .wrapping_add(stored.wrapping_shl((v.shift % 64) as u32).cast_signed())
}

// Fills the list with values.
pub fn fill_values(values: &mut [i64], v: Values) {
    for (i, value) in values.iter_mut().enumerate() {
        *value = value_of(v, i as u64);
    }
}

// Fills the bytes so that they differ from place to place.
pub fn paint(out: &mut [u8]) {
    for (i, byte) in out.iter_mut().enumerate() {
        *byte = (5 + i % 251) as u8;
    }
}
