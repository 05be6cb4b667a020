// The documents' cases for the writer and lists beside them, in editions 1 and 2, each written by the library and by the second writer; and
// numbers, fetched by both.
#![tactic(auto)]

mod both;
mod document;
mod fetching;
mod say;

use lists::{Run, Runs, run_of, values_of};
use say::Tally;

// The ids at each rank power, with values of a few bits around 0.
fn at_powers(rt: &impl Print, t: &mut Tally, name: &str, ids: Runs) {
    let values = values_of(-6, 7, 1);
    let mut more = Tally::default();
    for power in [0u32, 7, 8, 9, 10, 11, 12, 13, 14, 15] {
        more.add(both::list(ids, values, 1, power).is_some());
    }
    say::by_both(rt, t, name, "written", more)
}

fn one(rt: &impl Print, t: &mut Tally, name: &str, first: u64, gap: u64, count: u64) {
    at_powers(rt, t, name, lists::one(first, gap, count))
}

// One block of each kind, on both sides of each line, at the front, spread and at the back; and ids at the ends.
fn few_ids(rt: &impl Print, t: &mut Tally) {
    one(rt, t, "no id", 0, 0, 0);
    one(rt, t, "the last id", 2147352575, 1, 1);
    one(rt, t, "4095 ids, spread over block 0", 3, 16, 4095)
}

fn more_ids(rt: &impl Print, t: &mut Tally) {
    one(rt, t, "4096 ids, spread over block 2", 131072, 16, 4096);
    one(rt, t, "4097 ids, the last of block 1", 126975, 1, 4097);
    one(rt, t, "21845 ids, each third of block 0", 1, 3, 21845);
    one(
        rt,
        t,
        "65535 ids, all but the first of block 32765",
        2147287041,
        1,
        65535,
    );
    one(rt, t, "65536 ids, all of block 3", 196608, 1, 65536)
}

fn three(rt: &impl Print, t: &mut Tally, name: &str, low: Run, middle: Run, high: Run) {
    at_powers(rt, t, name, Runs { low, middle, high })
}

// Blocks of all kinds, next to each other and with missing ones between them.
fn more_blocks(rt: &impl Print, t: &mut Tally) {
    one(rt, t, "ids on both sides of a block's end", 65534, 1, 4);
    one(rt, t, "sparse blocks 0 to 9", 7, 20, 30000);
    one(rt, t, "dense blocks 0 to 9", 11, 11, 59000);
    one(rt, t, "one id in each fifth block", 327680, 327681, 200)
}

fn blocks_of_three_kinds(rt: &impl Print, t: &mut Tally) {
    three(
        rt,
        t,
        "a sparse, a dense and a full block, none missing",
        run_of(9, 70, 900),
        run_of(65536, 6, 10000),
        run_of(131072, 1, 65536),
    );
    three(
        rt,
        t,
        "a full, a sparse and a dense block, some missing",
        run_of(131072, 1, 65536),
        run_of(327680, 9000, 7),
        run_of(655360, 13, 5041),
    );
    three(
        rt,
        t,
        "the first blocks and the last",
        run_of(70, 1, 1),
        run_of(65600, 1, 1),
        run_of(2147287040, 10, 6553),
    )
}

// Values of a width from the smallest value up, each stored number times 2^shift.
fn of_width(mask: u64, shift: u64) -> bool {
    let values = values_of(i64::MIN, mask, shift);
    both::list(lists::one(5, 3, 67), values, 1, 9).is_some()
}

// With the divisor 1, and with the greatest power of 2 that leaves the width.
fn widths(rt: &impl Print, t: &mut Tally) {
    let mut more = Tally::default();
    more.add(of_width(0, 0));
    for spare in 0..64u64 {
        let mask = u64::MAX >> spare;
        more.add(of_width(mask, 0));
        more.add(of_width(mask, spare));
    }
    say::by_both(
        rt,
        t,
        "widths 0 to 64, with divisor 1 and 2^(64-w)",
        "written",
        more,
    )
}

// Edition 2: 0 to 9 values with that greatest stored number.
fn of_counts(more: &mut Tally, most: u64) {
    let values = values_of(i64::MIN, most, 0);
    for n in 0..10u64 {
        more.add(both::list(lists::one(5, 3, n), values, 2, 9).is_some());
    }
}

// Lucene 9's widths, each with its last number and, but for the last width, one more.
fn borders(rt: &impl Print, t: &mut Tally) {
    let mut more = Tally::default();
    for width in [1u32, 2, 4, 8, 12, 16, 20, 24, 28, 32, 40, 48, 56, 64] {
        let last = u64::MAX.wrapping_shr(64u32.wrapping_sub(width));
        of_counts(&mut more, last);
        if let Some(past) = last.checked_add(1) {
            of_counts(&mut more, past);
        }
    }
    let name = "edition 2, each width's last number and one more, 0 to 9 values";
    say::by_both(rt, t, name, "written", more)
}

fn main(rt: HostRuntime) {
    let mut t = Tally::default();
    document::lines(&rt, &mut t);
    few_ids(&rt, &mut t);
    more_ids(&rt, &mut t);
    more_blocks(&rt, &mut t);
    blocks_of_three_kinds(&rt, &mut t);
    widths(&rt, &mut t);
    borders(&rt, &mut t);
    fetching::numbers(&rt, &mut t);
    say::total(&rt, t)
}
