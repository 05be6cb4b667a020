// Number i of w bits in bytes (document 01, "Value section"; document 02, [5] and [6]), bit after bit, from its highest to its lowest.
use super::bytes;

// The number, and how many bytes its bits are in.
#[derive(Clone, Copy, Debug, Default, PartialEq, Eq)]
pub struct Fetched {
    pub number: u64,
    pub bytes: u64,
}

// The place of the number's k-th bit from above, where its w bits begin at a place: low bit first they run the other way.
fn place_of(from: usize, w: usize, low_first: bool, k: usize) -> usize {
    from.wrapping_add(if low_first {
        w.wrapping_sub(k).wrapping_sub(1)
    } else {
        k
    })
}

// The exponent of bit j's weight in its byte.
fn weight_of(low_first: bool, j: usize) -> u32 {
    let k = (j % 8) as u32;
    if low_first { k } else { 7 - k }
}

// One bit more, bit j: it starts a byte that was not seen yet if it is the number's first, or its byte's highest.
fn with_bit(x: Fetched, s: &[u8], j: usize, weight: u32, first: bool) -> Fetched {
    let one = bytes::bit(u64::from(bytes::byte(s, j / 8)), weight);
    let starts = first || weight == 7;
    Fetched {
        number: x.number << 1 | u64::from(one),
        bytes: x.bytes.wrapping_add(u64::from(starts)),
    }
}

pub fn number(s: &[u8], low_first: bool, w: usize, i: usize) -> Fetched {
    let from = i.wrapping_mul(w);
    let mut x = Fetched::default();
    for k in 0..w {
        let j = place_of(from, w, low_first, k);
        x = with_bit(x, s, j, weight_of(low_first, j), k == 0);
    }
    x
}
