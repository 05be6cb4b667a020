// The smallest and the greatest of the values, in their biased forms.
ghost use Rattle.std.specs.Prelude.{◌≡◌, ◌+◌, ◌-◌, ◌^◌, ◌<◌, ◌≤◌, true, length};
ghost use Rattle.scaling.specs.Scaled.{EndsAt, EndsOf};

use crate::parts::{AT_ONCE, ONE_BY_ONE, joined, part_end, passed};
use crate::{Ends, HALF};
use std::num::wrapping_sub_u64;

// The ends with the values from `from` on, up to `end`.
fn widened(values: &[i64], from: usize, end: usize, ends: Ends) -> Ends
    requires { EndsAt values.now from ends.low ends.high × (from ≤ end) × (end ≤ length values.now) }
    ensures { EndsAt values.now end result.low result.high }
{
    let mut low = ends.low;
    let mut high = ends.high;
    for v in &values[from..end] {
        let b = signed::biased(*v);
        low = low.min(b);
        high = high.max(b);
    }
    Ends { low, high }
}

// Below 2^63 only if b is none below `low` and none above it by more than the gap: then neither b - low nor what it leaves of the gap wraps.
pub fn past(b: u64, low: u64, gap: u64) -> u64
    requires { (gap < 2 ^ 63) × (low + gap < 2 ^ 64) }
    ensures { result < 2 ^ 63 → (low ≤ b) × (b ≤ low + gap) }
{
    let more = wrapping_sub_u64(b, low);
    joined(more, wrapping_sub_u64(gap, more))
}

// Whether the next values move neither end.
fn steady(values: &[i64], from: usize, ends: Ends) -> bool
    requires { (from + 128 ≤ length values.now) × (ends.low ≤ ends.high) }
    ensures { result ≡ true → EndsAt values.now from ends.low ends.high → EndsAt values.now (from + 128) ends.low ends.high }
{
    let low = ends.low;
    let gap = ends.high - low;
    if HALF <= gap {
        return false;
    }
    let mut seen: u64 = 0;
    for v in &values[from..from + AT_ONCE] {
        seen = joined(seen, past(signed::biased(*v), low, gap));
    }
    seen < HALF
}

// The smallest and the greatest of the values, both 0 if there is none.
pub fn ends_of(values: &[i64]) -> Ends
    ensures { EndsOf values.now result.low result.high }
{
    let n = values.len();
    let first = signed::biased(values.first().copied().unwrap_or(0));
    let mut ends = Ends {
        low: first,
        high: first,
    };
    let mut i = 0;
    while i < n {
        let end = part_end(n, i, ONE_BY_ONE);
        ends = widened(values, i, end, ends);
        i = passed(end, n, AT_ONCE, |j| steady(values, j, ends));
    }
    ends
}
