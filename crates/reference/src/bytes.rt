// Bytes, put one by one. A put answers with the place after it; past the end of the bytes it puts nothing, so that the same
// functions, run on no bytes, tell how many they put.

pub fn byte(s: &[u8], i: usize) -> u8 {
    s.get(i).copied().unwrap_or(0)
}

pub fn put(out: &mut [u8], at: usize, x: u8) -> usize {
    if let Some(byte) = out.get_mut(at) {
        *byte = x;
    }
    at.wrapping_add(1)
}

// So many bytes, the low one first.
pub fn put_low(out: &mut [u8], at: usize, bytes: usize, x: u64) -> usize {
    let mut next = at;
    for byte in x.to_le_bytes().iter().take(bytes) {
        next = put(out, next, *byte);
    }
    next
}

// Bit k of x, bit 0 the lowest.
pub fn bit(x: u64, k: u32) -> bool {
    x.wrapping_shr(k) % 2 == 1
}

// Puts one bit of a byte, of weight 2^k. A byte's first bit clears the others.
pub fn put_bit(out: &mut [u8], at: usize, first: bool, k: u32, one: bool) {
    let others = if first { 0 } else { byte(out, at) };
    put(out, at, others | u8::from(one).wrapping_shl(k));
}
