// A second writer, from documents 01 and 02 alone and in another way than the library's: block number after block number, place after place
// and bit after bit, every length what the same functions put on no bytes; and a second fetch. It shares no function with the library, and
// promises nothing but to be safe. It knows editions 1 and 2; `rust/reference` knows all.
#![tactic(auto)]

mod bytes;
pub mod fetching;
mod header;
mod ids;
mod values;

use header::Fields;

// The refusals of documents 01 and 02 that a writer of editions 1 and 2 gives, with the number that goes with them.
#[derive(Clone, Copy, Debug, PartialEq, Eq)]
pub enum Refusal {
    Lengths,
    Power,
    Order(usize),
    Range(usize),
    Room(usize),
    Edition,
}

impl Refusal {
    // Its number in the documents, and the number that goes with it.
    pub fn numbers(self) -> (u64, u64) {
        match self {
            Refusal::Lengths => (1, 0),
            Refusal::Power => (2, 0),
            Refusal::Order(i) => (3, i as u64),
            Refusal::Range(i) => (4, i as u64),
            Refusal::Room(n) => (6, n as u64),
            Refusal::Edition => (9, 0),
        }
    }
}

const LAST_ID: u32 = 2147352575;

// The first index whose id is not above the one before.
fn out_of_order(ids: &[u32]) -> Option<usize> {
    let at = ids.windows(2).position(|pair| pair[1] <= pair[0])?;
    Some(at.wrapping_add(1))
}

// Refusals 3 and 4.
fn judged_ids(ids: &[u32]) -> Result<(), Refusal> {
    if let Some(i) = out_of_order(ids) {
        return Err(Refusal::Order(i));
    }
    match ids.iter().position(|id| *id > LAST_ID) {
        Some(i) => Err(Refusal::Range(i)),
        None => Ok(()),
    }
}

// Refusals 9 and 2.
fn edition_in(number: u64) -> Result<u32, Refusal> {
    match number {
        1 => Ok(1),
        2 => Ok(2),
        _ => Err(Refusal::Edition),
    }
}

fn power_in(number: u64) -> Result<u32, Refusal> {
    match u32::try_from(number) {
        Ok(power) if matches!(power, 0 | 7..=15) => Ok(power),
        _ => Err(Refusal::Power),
    }
}

// The bytes of the sections are what is put nowhere.
fn fields_of(ids: &[u32], values: &[i64], edition: u32, power: u32) -> Fields {
    let f = values::facts_of(values, edition);
    let jumps = ids::entries(ids::blocks(ids));
    Fields {
        edition,
        count: ids.len(),
        power,
        id_bytes: ids::section_bytes(ids, power).wrapping_add(jumps << 3),
        jumps,
        width: f.width,
        smallest: values::folded(f.smallest),
        divisor: f.divisor,
        value_bytes: values::put_values(&mut [0u8; 0], 0, values, f),
    }
}

fn bytes_of(f: Fields) -> usize {
    let header = header::put_header(&mut [0u8; 0], f);
    header.wrapping_add(f.id_bytes).wrapping_add(f.value_bytes)
}

fn put_column(out: &mut [u8], ids: &[u32], values: &[i64], f: Fields) {
    let base = header::put_header(out, f);
    let end = base.wrapping_add(f.id_bytes);
    let table = match f.jumps {
        0 => None,
        n => Some(end.wrapping_sub(n << 3)),
    };
    let s = ids::Section {
        base,
        table,
        power: f.power,
    };
    ids::put_section(out, s, ids);
    values::put_values(out, end, values, values::facts_of(values, f.edition));
}

// Writes the column to the front of out, and answers with its bytes. No start needs a test: 32766 blocks of at most 9220 bytes end far
// below 2147483647 (document 02, [7]).
pub fn write(
    ids: &[u32],
    values: &[i64],
    edition: u64,
    power: u64,
    out: &mut [u8],
) -> Result<usize, Refusal> {
    if ids.len() != values.len() {
        return Err(Refusal::Lengths);
    }
    let edition = edition_in(edition)?;
    let power = power_in(power)?;
    judged_ids(ids)?;
    let f = fields_of(ids, values, edition, power);
    let needed = bytes_of(f);
    if out.len() < needed {
        return Err(Refusal::Room(needed));
    }
    put_column(out, ids, values, f);
    Ok(needed)
}
