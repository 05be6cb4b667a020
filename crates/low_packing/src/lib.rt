// Numbers of w bits each, packed into bytes low bit first (document 02, [6]), where none has bits in more than eight bytes: so it is with
// Lucene 9's widths.
#![tactic(auto)]

ghost use Rattle.std.specs.Prelude.{◌≡◌, List, ℕ, ◌+◌, ◌-◌, ◌*◌, ◌/◌, ◌%◌, ◌^◌, ◌≤◌, ◌<◌, length, get_or};
ghost use Rattle.format.specs.Bytes.{low_at};
ghost use Rattle.format.specs.BitsLow.{bit_low_at, gather_low};
ghost use Rattle.packing.specs.Ends.{EndsOf};
ghost use Rattle.packing.specs.Stream.{Pushed, Finished};

use packing::{Ends, Pending};

// The w bits of x after its lowest skip ones.
pub fn part(x: u64, skip: usize, w: usize) -> u64
    requires { (0 < w) × (skip + w ≤ 64) }
    ensures { result ≡ x / 2 ^ skip % 2 ^ w }
{
    packing::middle(x, 64 - skip - w, w)
}

// The bits of s that follow the lowest skip bits of its byte at, 57 or more, from the bottom of the result on: one load, and no swap.
pub fn window(s: &[u8], at: usize, skip: usize) -> u64
    requires { (at + 8 ≤ length s.now) × (skip < 8) }
    ensures { (a n : ℕ) → a + n ≤ 57 → result / 2 ^ a % 2 ^ n ≡ gather_low (bit_low_at s.now) (at * 8 + skip + a) n }
{
    numbers::long_at(s, at) >> skip
}

// The number in the w bits after the lowest skip ones of n bytes, at most eight, by the ends of these: no byte is turned.
pub fn number_of(e: Ends, n: usize, skip: usize, w: usize) -> u64
    requires { (0 < w) × (skip + w ≤ 64) × (n ≤ 8) × (1 ≤ e.k) × (e.k ≤ n) }
    ensures { (s : List ℕ) → ((k : ℕ) → get_or s k 0 < 256) → length s ≡ n → EndsOf s e → result ≡ low_at n s 0 / 2 ^ skip % 2 ^ w }
{
    part((e.back << (8 * (n - e.k))) | e.front, skip, w)
}

// The have bits of acc, and above them the lowest bits of x, up to 64 in all.
fn topped(acc: u64, have: usize, x: u64) -> u64
    requires { (have < 64) × (acc < 2 ^ have) }
    ensures { result ≡ x % 2 ^ (64 - have) * 2 ^ have + acc }
{
    (x << have) | acc
}

// The bits of x that found no room there; two shifts, so that none is by 64.
fn left_of(x: u64, have: usize) -> u64
    requires { have < 64 }
    ensures { result ≡ x / 2 ^ (64 - have) }
{
    (x >> 1) >> (63 - have)
}

// The number x of w bits after those written before. Eight bytes are written at once, when there are as many.
pub fn push(dst: &mut [u8], p: Pending, w: usize, x: u64) -> Pending
    requires { (w ≤ 64) × (x < 2 ^ w) × (p.have < 64) × (p.acc < 2 ^ p.have) × (p.at * 8 + p.have + w ≤ 8 * length dst.old) }
    ensures { Pushed gather_low w x p result dst.old dst.new }
{
    let Pending { at, have, acc } = p;
    let end = have + w;
    let word = topped(acc, have, x);
    if end < 64 {
        return Pending {
            at,
            have: end,
            acc: word,
        };
    }
    packing::store(dst, at, 8, packing::swapped(word));
    Pending {
        at: at + 8,
        have: end - 64,
        acc: left_of(x, have),
    }
}

// Writes the bits that still wait; the spare bits of the last byte are 0.
pub fn finish(dst: &mut [u8], p: Pending)
    requires { (p.have < 64) × (p.acc < 2 ^ p.have) × (p.at * 8 + p.have ≤ 8 * length dst.old) }
    ensures { Finished gather_low p dst.old dst.new }
{
    let Pending { at, have, acc } = p;
    packing::store(dst, at, (have + 7) >> 3, packing::swapped(acc));
}
