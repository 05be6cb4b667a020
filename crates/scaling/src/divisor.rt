// The greatest common divisor of the differences, and divisions by it that mostly are products.
ghost use Rattle.std.specs.Prelude.{◌≡◌, ◌+◌, ◌-◌, ◌*◌, ◌/◌, ◌%◌, ◌^◌, ◌<◌, ◌≤◌, true, length};
ghost use Rattle.format.specs.Values.{smallest, spread, gcd, gcd_from, differences, divisor};
ghost use Rattle.format.specs.Pairs.{Each, Fits};
ghost use Rattle.signed.specs.Sign.{biased};
ghost use Rattle.scaling.specs.Scaled.{gcd_at};
ghost use Rattle.scaling.specs.Reciprocal.{Reciprocal};

use crate::SMALL;
use crate::parts::{AT_ONCE, ONE_BY_ONE, joined, part_end, passed};
use std::num::wrapping_sub_u64;

// Euclid's algorithm.
pub fn gcd(a: u64, b: u64) -> u64
    ensures { result ≡ gcd a b }
{
    let mut x = a;
    let mut y = b;
    while y != 0 {
        let r = x % y;
        x = y;
        y = r;
    }
    x
}

// The least number above 2^32 / d, so that a guess by it is the quotient of each multiple of d below 2^32; 0 where no guess is to be tried.
pub fn reciprocal(d: u64) -> u64
    ensures { Reciprocal d result }
{
    if d < 2 {
        return 0;
    }
    if SMALL <= d {
        return 0;
    }
    SMALL / d + 1
}

// The reciprocal of h, where m is that of g.
pub fn renewed(m: u64, g: u64, h: u64) -> u64
    requires { Reciprocal g m }
    ensures { Reciprocal h result }
{
    if h == g { m } else { reciprocal(h) }
}

// What x / d is guessed to be, where m is the reciprocal of d. Whoever asks tests it: nothing rests on it but time.
fn guessed(x: u64, m: u64) -> u64
    ensures { (result ≡ x % 2 ^ 32 * (m % 2 ^ 32) / 2 ^ 32) × (result < 2 ^ 32) }
{
    ((x % SMALL) * (m % SMALL)) >> 32
}

// The greatest common divisor; if it is g, mostly without a division, and without a product where that is 1.
pub fn common(g: u64, m: u64, x: u64) -> u64
    requires { Reciprocal g m }
    ensures { result ≡ gcd g x }
{
    if g == 1 {
        return 1;
    }
    if x < SMALL {
        if guessed(x, m) * g == x {
            return g;
        }
    }
    gcd(x, g)
}

// 0 only if x is a multiple of g; 1 asks nothing.
pub fn unlike(x: u64, g: u64, m: u64) -> u64
    requires { g < 2 ^ 32 }
    ensures { result ≡ 0 → gcd g x ≡ g }
{
    if g == 1 {
        return 0;
    }
    wrapping_sub_u64(x, guessed(x, m) * (g % SMALL))
}

// x / d; m is the reciprocal of d. Most columns have divisor 1, and a division is slow.
pub fn quotient(x: u64, d: u64, m: u64) -> u64
    requires { (0 < d) × Reciprocal d m }
    ensures { result ≡ x / d }
{
    if d == 1 {
        return x;
    }
    if SMALL <= x {
        return x / d;
    }
    let q = guessed(x, m);
    if q * d == x {
        return q;
    }
    x / d
}

// The difference of two values in their biased forms: exact, up to 2^64 - 1.
pub fn over(low: u64, b: u64) -> u64
    requires { low ≤ b }
    ensures { result ≡ b - low }
{
    b - low
}

// The greatest common divisor of g and the differences to the smallest value, from value `from` on up to `end`. Once it is 1 it stays so.
fn gcd_part(values: &[i64], low: u64, from: usize, end: usize, start: u64) -> u64
    requires { (low ≡ biased (smallest values.now)) × Each Fits values.now × (from ≤ end) × (end ≤ length values.now) }
    ensures { gcd_at result end values.now ≡ gcd_at start from values.now }
{
    let mut g = start;
    let mut m = reciprocal(start);
    for v in &values[from..end] {
        let h = common(g, m, over(low, signed::biased(*v)));
        if h == 1 {
            return 1;
        }
        m = renewed(m, g, h);
        g = h;
    }
    g
}

// Whether g divides the next differences.
fn multiples(values: &[i64], low: u64, from: usize, g: u64) -> bool
    requires { (low ≡ biased (smallest values.now)) × Each Fits values.now × (from + 128 ≤ length values.now) }
    ensures { result ≡ true → gcd_at g (from + 128) values.now ≡ gcd_at g from values.now }
{
    if SMALL <= g {
        return false;
    }
    let m = reciprocal(g);
    let mut seen: u64 = 0;
    for v in &values[from..from + AT_ONCE] {
        seen = joined(seen, unlike(over(low, signed::biased(*v)), g, m));
    }
    seen == 0
}

// The greatest common divisor of the differences, here those to the smallest value: it is the same, and none of them has a sign.
fn gcd_of(values: &[i64], low: u64) -> u64
    requires { (low ≡ biased (smallest values.now)) × Each Fits values.now }
    ensures { result ≡ gcd_from 0 (differences values.now) }
{
    let n = values.len();
    let mut g: u64 = 0;
    let mut i = 0;
    while i < n {
        let end = part_end(n, i, ONE_BY_ONE);
        g = gcd_part(values, low, i, end, g);
        if g == 1 {
            return 1;
        }
        i = passed(end, n, AT_ONCE, |j| multiples(values, low, j, g));
    }
    g
}

// The divisor: 1 if all values are equal, or there is none.
pub fn divisor_of(values: &[i64], low: u64, gap: u64) -> u64
    requires { (low ≡ biased (smallest values.now)) × (gap ≡ spread values.now) × Each Fits values.now }
    ensures { result ≡ divisor values.now }
{
    if gap == 0 { 1 } else { gcd_of(values, low) }
}
