// The header (document 01, "Header"): nine numbers in groups of seven bits.
use super::bytes::put;

#[derive(Clone, Copy, Debug, PartialEq, Eq)]
pub struct Fields {
    pub edition: u32,
    pub count: usize,
    pub power: u32,
    pub id_bytes: usize,
    pub jumps: usize,
    pub width: u32,
    pub smallest: u64,
    pub divisor: u64,
    pub value_bytes: usize,
}

fn put_number(out: &mut [u8], at: usize, x: u64) -> usize {
    let mut left = x;
    let mut next = at;
    while left >= 128 {
        next = put(out, next, (128 + left % 128) as u8);
        left /= 128;
    }
    put(out, next, left as u8)
}

// Puts the header, and answers with the place after it.
pub fn put_header(out: &mut [u8], f: Fields) -> usize {
    let numbers = [
        u64::from(f.edition),
        f.count as u64,
        u64::from(f.power),
        f.id_bytes as u64,
        f.jumps as u64,
        u64::from(f.width),
        f.smallest,
        f.divisor,
        f.value_bytes as u64,
    ];
    let mut at = 0;
    for x in numbers {
        at = put_number(out, at, x);
    }
    at
}
