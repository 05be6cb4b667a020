// The packings: high bit first at the least width (document 01), and low bit first at the least of Lucene 9's widths (document 02, [6]).
// This crate alone knows what differs between them; each function hands on to the packing's own.
#![tactic(auto)]

ghost use Rattle.std.specs.Prelude.{◌≡◌, true, List, ℕ, ◌+◌, ◌*◌, ◌^◌, ◌≤◌, ◌<◌, length, take, drop, get_or};
ghost use Rattle.format.specs.Limits.{max_count, max_width};
ghost use Rattle.format.specs.Bits.{bit_bytes, fetched_bytes};
ghost use Rattle.format.specs.Values.{bit_length};
ghost use Rattle.packing.specs.Stream.{Pushed, Finished};
ghost use Rattle.packings.specs.Packings.{listed_from, listed_before, packing_of, narrower_by, gather_by, Reach, cut, spare_ok};

use packing::Pending;

// Lucene 9's widths, a bit for each; that of 0 is also that of 64.
const LISTED: u64 = 0x0101_0101_1111_1117;

// No trait: an edition is told by its header, so the order is a value, and a trait would ask each caller for the match that stands here once.
#[derive(Clone, Copy, Debug, PartialEq, Eq)]
pub enum Order {
    // Document 01's, edition 1.
    High,
    // Lucene 9's, edition 2.
    Low,
}

// A number that was fetched, and how many bytes were taken for it.
#[derive(Clone, Copy, Debug, PartialEq, Eq)]
pub struct Taken {
    pub number: u64,
    pub bytes: usize,
}

// ---- widths

// The least w with q < 2^w.
fn bit_length(q: u64) -> u64
    ensures { (result ≡ bit_length q) × (result ≤ 64) }
{
    64 - u64::from(q.leading_zeros())
}

// The least of Lucene 9's widths that is at least b.
fn listed_from(b: u64) -> u64
    requires { b ≤ max_width }
    ensures { result ≡ listed_from b }
{
    if b <= 2 {
        return b;
    }
    if b <= 32 {
        return (b + 3) / 4 * 4;
    }
    (b + 7) / 8 * 8
}

// The one before w.
fn listed_before(w: u64) -> u64
    requires { 0 < w }
    ensures { (result ≡ listed_before w) × (result < w) }
{
    if w <= 2 {
        return w - 1;
    }
    if w <= 4 {
        return 2;
    }
    if w <= 32 {
        return w - 4;
    }
    w - 8
}

// The width where stored numbers go up to q.
pub fn width_for(order: Order, q: u64) -> u64
    ensures { result ≡ (packing_of order).width_for q }
{
    match order {
        Order::High => bit_length(q),
        Order::Low => listed_from(bit_length(q)),
    }
}

// Whether a header may have the width.
pub fn width_ok(order: Order, w: u64) -> bool
    requires { w ≤ max_width }
    ensures { result ≡ (packing_of order).width_ok w }
{
    match order {
        Order::High => true,
        Order::Low => (LISTED >> (w & 63)) & 1 == 1,
    }
}

// The next narrower width.
pub fn narrower(order: Order, w: u64) -> u64
    requires { 0 < w }
    ensures { (result ≡ narrower_by order w) × (result < w) }
{
    match order {
        Order::High => w - 1,
        Order::Low => listed_before(w),
    }
}

// ---- numbers drawn

// The number in the w bits of s after its first skip ones, where s has the bytes that they touch and no others.
fn number_in(s: &[u8], order: Order, skip: usize, w: usize) -> u64
    requires { (skip < 8) × (0 < w) × (w ≤ 64) × (Reach order skip w) × (length s.now ≡ bit_bytes (skip + w)) }
    ensures { (t : List ℕ) (b i : ℕ) → s.now ≡ take (length s.now) (drop b t) → b + length s.now ≤ length t
        → ((k : ℕ) → get_or t k 0 < 256) → b * 8 + skip ≡ i * w → result ≡ (packing_of order).fetch t w i }
{
    let n = s.len();
    let e = packing::ends_of(s, w);
    match order {
        Order::High => packing::number_of(e, n, skip, w),
        Order::Low => low_packing::number_of(e, n, skip, w),
    }
}

// The i-th number of w bits in s (document 02, [5]). Lent are the bytes that its bits touch, so no others can be read.
pub fn fetch(s: &[u8], order: Order, w: usize, i: usize) -> Taken
    requires { ((packing_of order).width_ok w ≡ true) × (i ≤ max_count) × (i * w + w ≤ 8 * length s.now) }
    ensures { (result.number ≡ (packing_of order).fetch s.now w i) × (result.bytes ≡ fetched_bytes w i) × (result.bytes ≤ 9) }
{
    if w == 0 {
        return Taken {
            number: 0,
            bytes: 0,
        };
    }
    let bit = i * w;
    let start = bit >> 3;
    let end = (bit + w + 7) >> 3;
    let touched = &s[start..end];
    Taken {
        number: number_in(touched, order, bit & 7, w),
        bytes: touched.len(),
    }
}

// The number of w bits that follow the first skip bits of byte at, from eight bytes at once.
fn near(s: &[u8], order: Order, w: usize, at: usize, skip: usize) -> u64
    requires { (0 < w) × (skip + w ≤ 64) × (at + 8 ≤ length s.now) }
    ensures { (i : ℕ) → at * 8 + skip ≡ i * w → result ≡ (packing_of order).fetch s.now w i }
{
    match order {
        Order::High => packing::middle(packing::eight_at(s, at), skip, w),
        Order::Low => low_packing::part(numbers::long_at(s, at), skip, w),
    }
}

// Number i of the n of w bits in s, which starts after the first skip bits of byte at: from eight bytes at once while 64 are left and they
// hold it whole.
pub fn next_of(s: &[u8], order: Order, w: usize, i: usize, n: usize, at: usize, skip: usize) -> u64
    requires { ((packing_of order).width_ok w ≡ true) × (i < n) × (n * w ≤ 8 * length s.now) × (at * 8 + skip ≡ i * w) × (skip < 8) }
    ensures { result ≡ (packing_of order).fetch s.now w i }
{
    if w == 0 {
        return 0;
    }
    if 64 <= n - i {
        if skip + w <= 64 {
            return near(s, order, w, at, skip);
        }
    }
    let end = at + ((skip + w + 7) >> 3);
    number_in(&s[at..end], order, skip, w)
}

// The bits of s that follow the first skip bits of its byte at: the numbers of w bits from number i on, as far as 57 bits go.
pub fn window(s: &[u8], order: Order, at: usize, skip: usize) -> u64
    requires { (at + 8 ≤ length s.now) × (skip < 8) }
    ensures { (w i k : ℕ) → at * 8 + skip ≡ i * w → k * w + w ≤ 57
        → cut order result (k * w) w ≡ (packing_of order).fetch s.now w (i + k) }
{
    match order {
        Order::High => packing::window(s, at, skip),
        Order::Low => low_packing::window(s, at, skip),
    }
}

// The number of w bits in x, after the first skip ones.
pub fn part(order: Order, x: u64, skip: usize, w: usize) -> u64
    requires { (0 < w) × (skip + w ≤ 64) }
    ensures { result ≡ cut order x skip w }
{
    match order {
        Order::High => packing::middle(x, skip, w),
        Order::Low => low_packing::part(x, skip, w),
    }
}

// Whether the spare bits, of which the last byte has so many, are 0.
pub fn spare_ok(s: &[u8], order: Order, spare: usize) -> bool
    requires { spare < 8 }
    ensures { result ≡ spare_ok order s.now spare }
{
    let Some(&last) = s.last() else {
        return true;
    };
    let last = u64::from(last);
    match order {
        Order::High => last % numbers::pow2(spare) == 0,
        Order::Low => last / numbers::pow2(8 - spare) == 0,
    }
}

// ---- numbers written

// The number x of w bits after those written before.
pub fn push(dst: &mut [u8], order: Order, p: Pending, w: usize, x: u64) -> Pending
    requires { (w ≤ 64) × (x < 2 ^ w) × (p.have < 64) × (p.acc < 2 ^ p.have) × (p.at * 8 + p.have + w ≤ 8 * length dst.old) }
    ensures { Pushed (gather_by order) w x p result dst.old dst.new }
{
    match order {
        Order::High => packing::push(dst, p, w, x),
        Order::Low => low_packing::push(dst, p, w, x),
    }
}

// Writes the bits that still wait; the spare bits of the last byte are 0.
pub fn finish(dst: &mut [u8], order: Order, p: Pending)
    requires { (p.have < 64) × (p.acc < 2 ^ p.have) × (p.at * 8 + p.have ≤ 8 * length dst.old) }
    ensures { Finished (gather_by order) p dst.old dst.new }
{
    match order {
        Order::High => packing::finish(dst, p),
        Order::Low => low_packing::finish(dst, p),
    }
}
