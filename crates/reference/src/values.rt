// Values packed (document 01, "Value section"; document 02, [2] and [6]).
use super::bytes;

// What values have in common: the smallest, the greatest, and the greatest common divisor of each one's difference to the first.
#[derive(Clone, Copy, Debug, PartialEq, Eq)]
struct Span {
    smallest: i64,
    greatest: i64,
    divisor: u64,
}

// What values are packed by.
#[derive(Clone, Copy, Debug, PartialEq, Eq)]
pub struct Facts {
    edition: u32,
    pub smallest: i64,
    pub divisor: u64,
    pub width: u32,
}

// The header number of a value: 2v for v >= 0, -2v-1 for v < 0, which is 2(-v-1)+1.
pub fn folded(v: i64) -> u64 {
    let x = v.cast_unsigned();
    if v < 0 {
        (!x).wrapping_mul(2).wrapping_add(1)
    } else {
        x.wrapping_mul(2)
    }
}

// The greatest common divisor, by remainders.
fn common(a: u64, b: u64) -> u64 {
    let mut x = a;
    let mut y = b;
    while y != 0 {
        let left = x % y;
        x = y;
        y = left;
    }
    x
}

// Of no values 0 is the smallest and the greatest.
fn span_of(values: &[i64]) -> Span {
    let first = values.first().copied().unwrap_or(0);
    let mut s = Span {
        smallest: first,
        greatest: first,
        divisor: 0,
    };
    for value in values {
        s = Span {
            smallest: s.smallest.min(*value),
            greatest: s.greatest.max(*value),
            divisor: common(s.divisor, value.abs_diff(first)),
        };
    }
    s
}

// The least width w with x < 2^w.
fn width_of(x: u64) -> u32 {
    64 - x.leading_zeros()
}

// In edition 2 the first of Lucene 9's widths from w on: 1, 2, each fourth to 32 and each eighth to 64.
fn listed(edition: u32, w: u32) -> u32 {
    if edition != 2 {
        return w;
    }
    match w {
        0..=2 => w,
        3..=32 => w.wrapping_add(3) & 60,
        _ => w.wrapping_add(7) & 120,
    }
}

// The divisor is 1 if the values are equal, or there is none.
pub fn facts_of(values: &[i64], edition: u32) -> Facts {
    let s = span_of(values);
    let divisor = s.divisor.max(1);
    let width = width_of(s.greatest.abs_diff(s.smallest) / divisor);
    Facts {
        edition,
        smallest: s.smallest,
        divisor,
        width: listed(edition, width),
    }
}

// The number stored of a value.
fn stored(value: i64, f: Facts) -> u64 {
    value
        .abs_diff(f.smallest)
        .checked_div(f.divisor)
        .unwrap_or(0)
}

// Bit k of so many, the first being the highest, or in edition 2 the lowest: how many are below it.
fn below(edition: u32, bits: u32, k: u32) -> u32 {
    if edition == 2 {
        k
    } else {
        bits.wrapping_sub(1).wrapping_sub(k)
    }
}

// Puts a number's bits from bit `from` on, bit j in byte j div 8. The bits of a number and those of a byte come in the same order.
fn put_bits(out: &mut [u8], base: usize, f: Facts, from: usize, number: u64) {
    for k in 0..f.width {
        let j = from.wrapping_add(k as usize);
        let one = bytes::bit(number, below(f.edition, f.width, k));
        let weight = below(f.edition, 8, (j % 8) as u32);
        bytes::put_bit(out, base.wrapping_add(j / 8), j % 8 == 0, weight, one);
    }
}

// Puts the packed numbers, and answers with their bytes.
pub fn put_values(out: &mut [u8], base: usize, values: &[i64], f: Facts) -> usize {
    let mut bits = 0usize;
    for value in values {
        put_bits(out, base, f, bits, stored(*value, f));
        bits = bits.wrapping_add(f.width as usize);
    }
    bits.div_ceil(8)
}
