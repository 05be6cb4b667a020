// Document 01, "Both sides of each line": the writer's lines that are not starred, and of the starred ones the whole columns and the
// refusals; and document 02, [2]: the divisor, and [6]: edition 2. What is expected is the documents', or worked out from them by hand.
use super::both::{Outcome, refused};
use super::say::Tally;
use super::{both, say};
use lists::{one, values_of};

// Do both writers write that column?
fn column(
    rt: &impl Print,
    t: &mut Tally,
    name: &str,
    want: &[u8],
    ids: &[u32],
    values: &[i64],
    edition: u32,
    power: u32,
) {
    let end = want.len();
    let r = both::both(ids, values, edition, power, end, want);
    say::case(rt, t, name, r == Ok(end))
}

fn columns(rt: &impl Print, t: &mut Tally) {
    column(
        rt,
        t,
        "ids 0, 2, 7 at p 9, 27 bytes",
        b"\x01\x03\x09\x10\x00\x02\x8E\x02\x05\x01\x00\x00\x02\x00\x00\x00\x02\x00\x07\x00\xFF\x7F\x00\x00\xFF\xFF\xD0",
        &[0u32, 2, 7],
        &[150i64, 140, 135],
        1,
        9,
    );
    column(
        rt,
        t,
        "no pairs at p 9, 23 bytes",
        b"\x01\x00\x09\x0E\x01\x00\x00\x01\x00\xFF\x7F\x00\x00\xFF\xFF\x00\x00\x00\x00\x00\x00\x00\x00",
        &[0u32; 0],
        &[0i64; 0],
        1,
        9,
    )
}

fn jumps(rt: &impl Print, t: &mut Tally) {
    column(
        rt,
        t,
        "id 65536 at p 0, 45 bytes",
        b"\x01\x01\x00\x24\x03\x00\x01\x01\x00\x01\x00\x00\x00\x00\x00\xFF\x7F\x00\x00\xFF\xFF\x00\x00\x00\
          \x00\x00\x00\x00\x00\x00\x00\x00\x00\x00\x00\x00\x00\x01\x00\x00\x00\x06\x00\x00\x00",
        &[65536u32],
        &[-1i64],
        1,
        0,
    )
}

// A column of that many ids of block 0, each value 7, and its bytes: a header of 11, the block, 6 for the end block. The header is 11
// because its numbers take a byte each, but two for a count below 16384 and for an L above 127, and three for the count 65536.
fn block(rt: &impl Print, t: &mut Tally, name: &str, count: usize, power: u32, bytes: usize) {
    let n = both::list(one(0, 1, count as u64), values_of(7, 0, 0), 1, power);
    say::case(rt, t, name, n == Some(bytes.wrapping_add(17)))
}

fn blocks(rt: &impl Print, t: &mut Tally) {
    block(rt, t, "block of 4095 ids, 8194 bytes", 4095, 9, 8194);
    block(rt, t, "block of 4096 ids at p 9, 8452 bytes", 4096, 9, 8452);
    block(rt, t, "block of 4096 ids at p 0, 8196 bytes", 4096, 0, 8196);
    block(rt, t, "block of 65536 ids, 4 bytes", 65536, 9, 4)
}

// Ids 0 and 1 with two values. One block: 8 bytes, and 6 of the end block, make L 14 (0E). Width 1 of two values: V 1. Stored are 0 and 1: bits 01.
fn two(rt: &impl Print, t: &mut Tally, name: &str, want: &[u8], low: i64, high: i64) {
    column(rt, t, name, want, &[0u32, 1], &[low, high], 1, 9)
}

fn extremes(rt: &impl Print, t: &mut Tally) {
    // The smallest value is FF nine times, then 01, and so is the divisor 2^64 - 1.
    two(
        rt,
        t,
        "smallest and greatest value: divisor 2^64 - 1, width 1",
        b"\x01\x02\x09\x0E\x00\x01\xFF\xFF\xFF\xFF\xFF\xFF\xFF\xFF\xFF\x01\xFF\xFF\xFF\xFF\xFF\xFF\xFF\xFF\
          \xFF\x01\x01\x00\x00\x01\x00\x00\x00\x01\x00\xFF\x7F\x00\x00\xFF\xFF\x40",
        i64::MIN,
        i64::MAX,
    );
    // The divisor 2^63 is 80 nine times, then 01.
    two(
        rt,
        t,
        "smallest value and 0: divisor 2^63, width 1",
        b"\x01\x02\x09\x0E\x00\x01\xFF\xFF\xFF\xFF\xFF\xFF\xFF\xFF\xFF\x01\x80\x80\x80\x80\x80\x80\x80\x80\
          \x80\x01\x01\x00\x00\x01\x00\x00\x00\x01\x00\xFF\x7F\x00\x00\xFF\xFF\x40",
        i64::MIN,
        0,
    )
}

// The divisor of differences that have one, of values that have none.
fn scores(rt: &impl Print, t: &mut Tally) {
    // The smallest value 7 is 0E.
    two(
        rt,
        t,
        "values 7 and 10: divisor 3, width 1",
        b"\x01\x02\x09\x0E\x00\x01\x0E\x03\x01\x00\x00\x01\x00\x00\x00\x01\x00\xFF\x7F\x00\x00\xFF\xFF\x40",
        7,
        10,
    );
    // Three ids: L 16 (10). The smallest value is -9 (11). Stored are 2, 0 and 1 at width 2: bits 100001.
    column(
        rt,
        t,
        "values 5, -9 and -2: divisor 7, width 2",
        b"\x01\x03\x09\x10\x00\x02\x11\x07\x01\x00\x00\x02\x00\x00\x00\x01\x00\x02\x00\xFF\x7F\x00\x00\xFF\xFF\x84",
        &[0u32, 1, 2],
        &[5i64, -9, -2],
        1,
        9,
    )
}

// Do both writers answer so to one id and two values?
fn lengths(rt: &impl Print, t: &mut Tally, name: &str, edition: u32) {
    let r = both::both(&[1u32], &[i64::MIN, 0], edition, 6, 0, b"");
    say::case(rt, t, name, r == Err(refused(1, 0)))
}

// And to two ids, with the smallest value and 0? The column of ids 0 and 1 is that of the smallest value and 0 above: 27 bytes of header, 14 of ids, 1
// of values.
fn answers(
    rt: &impl Print,
    t: &mut Tally,
    name: &str,
    ids: &[u32],
    power: u32,
    room: usize,
    want: Outcome,
) {
    let r = both::both(ids, &[i64::MIN, 0], 1, power, room, b"");
    say::case(rt, t, name, r == want)
}

fn powers(rt: &impl Print, t: &mut Tally) {
    lengths(rt, t, "one id and two values: LENGTHS", 1);
    answers(rt, t, "p 6: POWER", &[4u32, 4], 6, 100, Err(refused(2, 0)));
    answers(
        rt,
        t,
        "p 16: POWER",
        &[0u32, 1],
        16,
        100,
        Err(refused(2, 0)),
    )
}

fn limits(rt: &impl Print, t: &mut Tally) {
    answers(
        rt,
        t,
        "ids 4, 4: ORDER, index 1",
        &[4u32, 4],
        9,
        0,
        Err(refused(3, 1)),
    );
    answers(
        rt,
        t,
        "id 2147352576 before 5: ORDER, index 1",
        &[2147352576u32, 5],
        9,
        100,
        Err(refused(3, 1)),
    );
    answers(
        rt,
        t,
        "id 2147352576: RANGE, index 1",
        &[5u32, 2147352576],
        9,
        0,
        Err(refused(4, 1)),
    )
}

fn rooms(rt: &impl Print, t: &mut Tally) {
    answers(
        rt,
        t,
        "output one byte short: ROOM",
        &[0u32, 1],
        9,
        41,
        Err(refused(6, 42)),
    );
    answers(rt, t, "output just long enough", &[0u32, 1], 9, 42, Ok(42))
}

// Eight ids of block 0: 4 and 16 bytes, and 6 of the end block, make L 26 (1A). Smallest value 0, divisor 1, width 2: V 2. An edition
// that there is not is told after LENGTHS and before POWER.
fn editions(rt: &impl Print, t: &mut Tally) {
    column(
        rt,
        t,
        "stored 1, 1, 1, 0, 2, 2, 0, 0 in edition 2: 15 0A",
        b"\x02\x08\x09\x1A\x00\x02\x00\x01\x02\x00\x00\x07\x00\x00\x00\x01\x00\x02\x00\x03\x00\x04\x00\x05\x00\
          \x06\x00\x07\x00\xFF\x7F\x00\x00\xFF\xFF\x15\x0A",
        &[0u32, 1, 2, 3, 4, 5, 6, 7],
        &[1i64, 1, 1, 0, 2, 2, 0, 0],
        2,
        9,
    );
    lengths(rt, t, "edition 9, one id and two values: LENGTHS", 9);
    let r = both::both(&[0u32, 1], &[i64::MIN, 0], 9, 6, 100, b"");
    say::case(rt, t, "edition 9 at p 6: EDITION", r == Err(refused(9, 0)))
}

pub fn lines(rt: &impl Print, t: &mut Tally) {
    columns(rt, t);
    jumps(rt, t);
    blocks(rt, t);
    extremes(rt, t);
    scores(rt, t);
    powers(rt, t);
    limits(rt, t);
    rooms(rt, t);
    editions(rt, t)
}
