// Numbers of w bits each, packed into bytes high bit first.
#![tactic(auto)]

ghost use Rattle.std.specs.Prelude.{◌≡◌, List, ℕ, ◌+◌, ◌-◌, ◌*◌, ◌/◌, ◌%◌, ◌^◌, ◌≤◌, ◌<◌, length, get_or};
ghost use Rattle.format.specs.Limits.{max_count, max_width};
ghost use Rattle.format.specs.Bits.{bit_at, gather, bit_bytes, packed_bytes};
ghost use Rattle.packing.specs.Turned.{turned};
ghost use Rattle.packing.specs.Ends.{EndsOf};
ghost use Rattle.packing.specs.Stream.{Stored, Pushed, Finished};

// Numbers that are written one after the other: at bytes are full, and have bits wait, as the number acc.
#[derive(Clone, Copy, Debug, PartialEq, Eq)]
pub struct Pending {
    pub at: usize,
    pub have: usize,
    pub acc: u64,
}

// The n bits of x above its k low ones.
fn field(x: u64, k: usize, n: usize) -> u64
    requires { (k < 64) × (n < 64) }
    ensures { result ≡ x / 2 ^ k % 2 ^ n }
{
    (x >> k) & ((1 << n) - 1)
}

// The n bits of part after the bits of acc.
fn joined(acc: u64, n: usize, part: u64) -> u64
    requires { (n < 64) × (part < 2 ^ n) × (acc * 2 ^ n < 2 ^ 64) }
    ensures { result ≡ acc * 2 ^ n + part }
{
    (acc << n) | part
}

// The bytes that n numbers of w bits take.
pub fn packed_bytes(n: u64, w: u64) -> u64
    requires { (n ≤ max_count) × (w ≤ max_width) }
    ensures { (result ≡ packed_bytes n w) × (result ≤ 8 * n) }
{
    (n * w + 7) / 8
}

// The byte that bit i * w is in. No product is larger than the result.
pub fn byte_of(i: usize, w: usize) -> usize
    requires { (w ≤ 64) × (i * w / 8 < 2 ^ 64) }
    ensures { result ≡ i * w / 8 }
{
    (i >> 3) * w + (((i & 7) * w) >> 3)
}

// How many bits of that byte come before it.
pub fn skip_of(i: usize, w: usize) -> usize
    requires { w ≤ 64 }
    ensures { result ≡ i * w % 8 }
{
    ((i & 7) * w) & 7
}

// The eight bytes of x in the other order.
pub fn swapped(x: u64) -> u64
    ensures { result ≡ turned 8 x }
{
    x.swap_bytes()
}

// Eight bytes of s from byte b on, as one number: one load and one swap, where it is called too.
pub fn eight_at(s: &[u8], b: usize) -> u64
    requires { b + 8 ≤ length s.now }
    ensures { result ≡ gather (bit_at s.now) (b * 8) 64 }
{
    swapped(numbers::long_at(s, b))
}

// The w bits of x after its first skip ones.
pub fn middle(x: u64, skip: usize, w: usize) -> u64
    requires { (0 < w) × (skip + w ≤ 64) }
    ensures { result ≡ x / 2 ^ (64 - skip - w) % 2 ^ w }
{
    (x << skip) >> (64 - w)
}

// The bits of s that follow the first skip bits of its byte at, 57 or more, from the top of the result on.
pub fn window(s: &[u8], at: usize, skip: usize) -> u64
    requires { (at + 8 ≤ length s.now) × (skip < 8) }
    ensures { (a n : ℕ) → a + n ≤ 57 → result / 2 ^ (64 - a - n) % 2 ^ n ≡ gather (bit_at s.now) (at * 8 + skip + a) n }
{
    eight_at(s, at) << skip
}

// The ends of a byte string: its first k bytes and its last k, each as a number low byte first.
#[derive(Clone, Copy, Debug, PartialEq, Eq)]
pub struct Ends {
    pub front: u64,
    pub back: u64,
    pub k: usize,
}

// The ends of the bytes that w bits touch: all of them are in one or in both. The loads go by w, so that no branch hangs on the index.
pub fn ends_of(s: &[u8], w: usize) -> Ends
    requires { (0 < w) × (w ≤ 64) × (w ≤ 8 * length s.now) × (8 * length s.now ≤ w + 14) }
    ensures { EndsOf s.now result }
{
    let n = s.len();
    if w <= 8 {
        return Ends {
            front: u64::from(s[0]),
            back: u64::from(s[n - 1]),
            k: 1,
        };
    }
    if w <= 24 {
        return Ends {
            front: numbers::short_at(s, 0),
            back: numbers::short_at(s, n - 2),
            k: 2,
        };
    }
    if w <= 56 {
        return Ends {
            front: numbers::int_at(s, 0),
            back: numbers::int_at(s, n - 4),
            k: 4,
        };
    }
    Ends {
        front: numbers::long_at(s, 0),
        back: numbers::long_at(s, n - 8),
        k: 8,
    }
}

// The number of w bits in the first w of x and y: x has its first bits, y its last, and where both have a bit, it is the same.
fn met(x: u64, y: u64, w: usize) -> u64
    requires { (0 < w) × (w ≤ 64) }
    ensures { (n u v : ℕ) → u ≤ v → x / 2 ^ (64 - w) ≡ n / 2 ^ u * 2 ^ u → y / 2 ^ (64 - w) ≡ n % 2 ^ v → result ≡ n }
{
    (x >> (64 - w)) | (y >> (64 - w))
}

// The number in the w bits after the first skip ones of the n bytes that they touch, by the ends of these. The first byte is trimmed by skip
// bits, and the last bytes are put behind; where both ends are the same bytes, below the number.
pub fn number_of(e: Ends, n: usize, skip: usize, w: usize) -> u64
    requires { (skip < 8) × (0 < w) × (w ≤ 64) × (n ≡ bit_bytes (skip + w)) × (1 ≤ e.k) × (e.k ≤ 8) × (e.k ≤ n) }
    ensures { (s : List ℕ) → ((k : ℕ) → get_or s k 0 < 256) → length s ≡ n → EndsOf s e → result ≡ gather (bit_at s) skip w }
{
    let x = swapped(e.front) << skip;
    let y = swapped(e.back) >> ((64 + 8 * (n - e.k) - skip) % 64);
    met(x, y, w)
}

// The have bits of acc, then the bits of next up to 64.
fn filled(acc: u64, have: usize, next: u64) -> u64
    requires { (have < 64) × (acc < 2 ^ have) × (next < 2 ^ (64 - have)) }
    ensures { result ≡ acc * 2 ^ (64 - have) + next }
{
    ((acc << (63 - have)) << 1) | next
}

// Writes the first n bytes of v, the highest first.
pub fn store(dst: &mut [u8], at: usize, n: usize, v: u64)
    requires { (n ≤ 8) × (at + n ≤ length dst.old) }
    ensures { Stored at n v dst.old dst.new }
{
    dst[at..at + n].copy_from_slice(&v.to_be_bytes()[..n]);
}

// The number x of w bits after those written before. Eight bytes are written at once, when there are as many.
pub fn push(dst: &mut [u8], p: Pending, w: usize, x: u64) -> Pending
    requires { (w ≤ 64) × (x < 2 ^ w) × (p.have < 64) × (p.acc < 2 ^ p.have) × (p.at * 8 + p.have + w ≤ 8 * length dst.old) }
    ensures { Pushed gather w x p result dst.old dst.new }
{
    let Pending { at, have, acc } = p;
    let end = have + w;
    if end < 64 {
        return Pending {
            at,
            have: end,
            acc: joined(acc, w, x),
        };
    }
    let left = end - 64;
    store(dst, at, 8, filled(acc, have, x >> left));
    Pending {
        at: at + 8,
        have: left,
        acc: field(x, 0, left),
    }
}

// Writes the bits that still wait; the spare bits of the last byte are 0.
pub fn finish(dst: &mut [u8], p: Pending)
    requires { (p.have < 64) × (p.acc < 2 ^ p.have) × (p.at * 8 + p.have ≤ 8 * length dst.old) }
    ensures { Finished gather p dst.old dst.new }
{
    let Pending { at, have, acc } = p;
    store(dst, at, (have + 7) >> 3, filled(acc, have, 0));
}
