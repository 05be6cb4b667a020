// The library's writer beside the second writer.
use lists::{Runs, Values};

// Why there is no column: a refusal, by its number in the documents and the number with it; the writers disagree; the program has no such room
// to lend.
#[derive(Clone, Copy, Debug, PartialEq, Eq)]
pub enum Failure {
    Refused { number: u64, with: u64 },
    Unlike,
    Untried,
}

// The column's bytes, or a failure.
pub type Outcome = Result<usize, Failure>;

pub fn refused(number: u64, with: u64) -> Failure {
    Failure::Refused { number, with }
}

// The second writer, on painted bytes with that much room.
fn expected(
    ids: &[u32],
    values: &[i64],
    edition: u32,
    power: u32,
    room: usize,
    own: &mut [u8],
) -> Outcome {
    lists::paint(own);
    let lent = own.get_mut(..room).ok_or(Failure::Untried)?;
    match reference::write(ids, values, u64::from(edition), u64::from(power), lent) {
        Ok(n) => Ok(n),
        Err(why) => {
            let (number, with) = why.numbers();
            Err(refused(number, with))
        }
    }
}

// The library's.
fn written(
    ids: &[u32],
    values: &[i64],
    edition: u32,
    power: u32,
    room: usize,
    out: &mut [u8],
) -> Outcome {
    lists::paint(out);
    let lent = out.get_mut(..room).ok_or(Failure::Untried)?;
    match signalfern::write(ids, values, edition, power, lent) {
        Ok(n) => Ok(n as usize),
        Err(why) => Err(refused(why.number(), why.number_with())),
    }
}

// The outcome on which both writers agree, with at most 300000 bytes of room; they left the same bytes, which start with these.
pub fn both(
    ids: &[u32],
    values: &[i64],
    edition: u32,
    power: u32,
    room: usize,
    bytes: &[u8],
) -> Outcome {
    let mut own = [0u8; 300000];
    let mut out = [0u8; 300000];
    let want = expected(ids, values, edition, power, room, &mut own);
    let got = written(ids, values, edition, power, room, &mut out);
    if want == got && own == out && out.starts_with(bytes) {
        want
    } else {
        Err(Failure::Unlike)
    }
}

// With no room, one byte short, just room and some to spare: whether both agree, and answer as they should.
fn at_rooms(ids: &[u32], values: &[i64], edition: u32, power: u32) -> Option<usize> {
    let short = both(ids, values, edition, power, 0, b"");
    let Err(Failure::Refused { number: 6, with }) = short else {
        return None;
    };
    let n = with as usize;
    let less = both(ids, values, edition, power, n.wrapping_sub(1), b"");
    let just = both(ids, values, edition, power, n, b"");
    let more = both(ids, values, edition, power, n.wrapping_add(13), b"");
    (less == short && just == Ok(n) && more == Ok(n)).then_some(n)
}

// One list, of at most 80000 pairs. Answers with the column's bytes, or none for a disagreement.
pub fn list(runs: Runs, v: Values, edition: u32, power: u32) -> Option<usize> {
    let mut ids = [0u32; 80000];
    let mut values = [0i64; 80000];
    let n = lists::fill_ids(&mut ids, runs);
    lists::fill_values(&mut values, v);
    at_rooms(ids.get(..n)?, values.get(..n)?, edition, power)
}
