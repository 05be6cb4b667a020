// The check of a value section of edition 3 (document 02, [11]) that keeps the header rules: run by run, each by its own bytes.
#![tactic(auto)]

ghost use Rattle.std.specs.Prelude.{◌≡◌, true, false, ◌||◌, ℕ, ◌+◌, ◌-◌, ◌*◌, ◌^◌, ◌≤◌, ◌<◌, eqb, leb, length, drop, MatchOption};
ghost use Rattle.format.specs.Limits.{max_count, max_width};
ghost use Rattle.format.specs.Bits.{unpacked};
ghost use Rattle.format.specs.Values.{over, gcd_from};
ghost use Rattle.format.specs.ValueRuns.{run_length, run_count, directory_length};
ghost use Rattle.format.specs.Editions.{runs, codec};
ghost use Rattle.answers.specs.Replies.{fields_of};
ghost use Rattle.signed.specs.Sign.{unbiased};
ghost use Rattle.scaling.specs.Numbers.{least_from, most_from};
ghost use Rattle.run_values.specs.Summaries.{summary_is};
ghost use Rattle.run_check.specs.RunsOk.{numbers_at, range_ok, largest, run_ok, divisor_ok, runs_ok, values_ok};

use answers::Fields;
use packings::Order;
use run_values::Summary;
use scaling::Range;

// ---- a run

// The range of n numbers of w bits. At width 0, where there are no bytes, they are not drawn.
fn range_of(s: &[u8], n: usize, w: usize, d: u64) -> Range
    requires { (w ≤ max_width) × (0 < n) × (n ≤ run_length) × (n * w ≤ 8 * length s.now) }
    ensures { (result.lo ≡ least_from largest (unpacked w n s.now)) × (result.hi ≡ most_from 0 (unpacked w n s.now))
        × (result.common ≡ gcd_from d (unpacked w n s.now)) }
{
    if w == 0 {
        return Range {
            lo: 0,
            hi: 0,
            common: d,
        };
    }
    let mut lo = u64::MAX;
    let mut hi: u64 = 0;
    let mut g = d;
    let mut m = scaling::reciprocal(d);
    let mut at: usize = 0;
    let mut skip: usize = 0;
    for i in 0..n {
        let x = packings::next_of(s, Order::High, w, i, n, at, skip);
        let next = skip + w;
        at += next >> 3;
        skip = next & 7;
        lo = lo.min(x);
        hi = hi.max(x);
        let h = scaling::common(g, m, x);
        m = scaling::renewed(m, g, h);
        g = h;
    }
    Range { lo, hi, common: g }
}

// Whether no smaller width holds numbers up to hi.
fn width_least(w: u64, hi: u64) -> bool
    requires { w ≤ max_width }
    ensures { result ≡ (eqb w 0 || leb (2 ^ (w - 1)) hi) }
{
    if w == 0 {
        return true;
    }
    numbers::pow2((w - 1) as usize) <= hi
}

// Whether g times hi leads from the smallest value to the greatest, both biased. No product wraps.
fn top_ok(low: u64, high: u64, g: u64, hi: u64) -> bool
    requires { 0 < g }
    ensures { result ≡ eqb (low + g * hi) high }
{
    if high < low {
        return false;
    }
    let gap = high - low;
    if !scaling::product_fits(hi, g, gap) {
        return false;
    }
    hi * g == gap
}

// Whether the least and the greatest of a run's numbers are those of its summary.
fn range_ok(x: Summary, g: u64, lo: u64, hi: u64) -> bool
    requires { (0 < g) × (x.width ≤ max_width) }
    ensures { result ≡ range_ok g (summary_is x) lo hi }
{
    if lo != 0 {
        return false;
    }
    if !width_least(x.width, hi) {
        return false;
    }
    top_ok(x.smallest, x.greatest, g, hi)
}

// The run of n values that starts at a byte of those after the directory; d is the common divisor of the numbers before. The common divisor of
// its numbers too, if the run passes.
fn run_ok(rest: &[u8], at: usize, n: usize, g: u64, x: Summary, d: u64) -> Option<u64>
    requires { (at ≤ length rest.now) × (0 < g) × (0 < n) × (n ≤ run_length) }
    ensures { MatchOption result (run_ok g rest.now at n (summary_is x) ≡ false)
        (λ c. (run_ok g rest.now at n (summary_is x) ≡ true) × (c ≡ gcd_from d (numbers_at rest.now at n x.width))) }
{
    if x.start != at as u64 {
        return None;
    }
    if x.width > limits::MAX_WIDTH {
        return None;
    }
    let w = x.width as usize;
    let bytes = packing::packed_bytes(n as u64, x.width) as usize;
    if rest.len() - at < bytes {
        return None;
    }
    let end = at + bytes;
    let part = &rest[at..end];
    if !packings::spare_ok(part, Order::High, 8 * bytes - n * w) {
        return None;
    }
    let range = range_of(part, n, w, d);
    if !range_ok(x, g, range.lo, range.hi) {
        return None;
    }
    Some(range.common)
}

// ---- all runs

// The distance of two values, both biased.
fn distance(a: u64, b: u64) -> u64
    ensures { result ≡ over (unbiased a) (unbiased b) }
{
    a.abs_diff(b)
}

// Whether g is the divisor of all differences.
fn divisor_ok(g: u64, apart: u64, d: u64) -> bool
    requires { 0 < g }
    ensures { result ≡ divisor_ok g apart d }
{
    if apart % g != 0 {
        return false;
    }
    let c = scaling::gcd(apart / g, d);
    if c == 1 {
        return true;
    }
    if c != 0 {
        return false;
    }
    g == 1
}

// The runs in turn, by the section and its bytes after the directory.
fn runs_ok(section: &[u8], rest: &[u8], n: u64, g: u64) -> bool
    requires { (directory_length n ≤ length section.now) × (0 < g) }
    ensures { result ≡ runs_ok g section.now rest.now n (run_count n) 0 0 0 0 }
{
    let runs = run_values::run_count(n);
    let mut at: usize = 0;
    let mut apart: u64 = 0;
    let mut d: u64 = 0;
    for r in 0..runs {
        let x = run_values::summary_at(section, r as usize);
        let count = run_values::count_in(n, r);
        let Some(common) = run_ok(rest, at, count as usize, g, x, d) else {
            return false;
        };
        let base = run_values::summary_at(section, 0);
        apart = scaling::gcd(apart, distance(base.smallest, x.smallest));
        at += packing::packed_bytes(count, x.width) as usize;
        d = common;
    }
    if at != rest.len() {
        return false;
    }
    divisor_ok(g, apart, d)
}

// Whether a value section is the section of its values, and the fields are theirs.
pub fn values_ok(section: &[u8], n: u64, fields: Fields) -> bool
    requires { (codec runs).fields_ok n (fields_of fields) (length section.now) ≡ true }
    ensures { result ≡ values_ok n (fields_of fields) section.now }
{
    let from = run_values::directory_length(n);
    runs_ok(section, &section[from..], n, fields.divisor)
}
