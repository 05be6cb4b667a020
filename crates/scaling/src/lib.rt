// One smallest value and one divisor for all values (document 01, "Value section"; document 02, [2]): what they are, the number stored
// of a value, and the value of a stored number. How stored numbers are packed is left open. Values are worked on in their biased form,
// so that no sum or difference has a sign.
#![tactic(auto)]

ghost use Rattle.std.specs.Prelude.{◌≡◌, ◌*◌, ◌^◌, ◌<◌, nat_le, true};
ghost use Rattle.format.specs.HeaderNumbers.{unzigzag};
ghost use Rattle.format.specs.Values.{value_at};
ghost use Rattle.format.specs.Codec.{signed64};
ghost use Rattle.answers.specs.Replies.{fetched_of};
ghost use Rattle.signed.specs.Sign.{unbiased};
ghost use Rattle.scaling.specs.Scaled.{Scaled};

mod bounds;
mod divisor;
mod parts;

pub use bounds::{ends_of, past};
pub use divisor::{common, gcd, quotient, reciprocal, renewed, unlike};
pub use parts::{joined, part_end, passed};

// 2^32: numbers below it have a product below 2^64.
pub const SMALL: u64 = 4294967296;

// 2^63: what wraps below 0, by as much at most, is not below it.
pub const HALF: u64 = 9223372036854775808;

// The smallest and the greatest value, biased.
#[derive(Clone, Copy, Debug, PartialEq, Eq)]
pub struct Ends {
    pub low: u64,
    pub high: u64,
}

// The smallest value as its header number, the divisor, and the greatest stored number.
#[derive(Clone, Copy, Debug, PartialEq, Eq)]
pub struct Scale {
    pub smallest: u64,
    pub divisor: u64,
    pub most: u64,
}

// The least and the greatest of some numbers, and their greatest common divisor with one before.
#[derive(Clone, Copy, Debug, PartialEq, Eq)]
pub struct Range {
    pub lo: u64,
    pub hi: u64,
    pub common: u64,
}

// The scale of the values.
pub fn scale_of(values: &[i64]) -> Scale
    ensures { Scaled values.now result }
{
    let ends = ends_of(values);
    let low = ends.low;
    let gap = divisor::over(low, ends.high);
    let divisor = divisor::divisor_of(values, low, gap);
    let smallest = signed::number_of(low);
    let most = gap / divisor;
    Scale {
        smallest,
        divisor,
        most,
    }
}

// Whether stored * divisor is in reach of 64 bits at a glance: the divisor is 1, or both are below 2^32. Divisor 1 comes first: of
// numbers on both sides of 2^32 the other test would be guessed wrong half of the time. (With 0 among them the division that is left
// needs no test of its own.)
fn product_small(stored: u64, divisor: u64) -> bool
    ensures { result ≡ true → stored * divisor < 2 ^ 64 }
{
    if divisor <= 1 {
        return true;
    }
    if stored < SMALL {
        return divisor < SMALL;
    }
    false
}

// Whether stored * divisor is at most room; without a division where the product is small. (Short enough for step 7 to be compiled into
// both of its callers, the look-up and the next candidate.)
pub fn product_fits(stored: u64, divisor: u64, room: u64) -> bool
    requires { 0 < divisor }
    ensures { result ≡ nat_le (stored * divisor) room }
{
    if product_small(stored, divisor) {
        return stored * divisor <= room;
    }
    stored <= room / divisor
}

// Document 01, the look-up's step 7: smallest + g times the stored number, which must fit in 64 bits. `low` is the smallest, biased.
pub fn value_above(low: u64, divisor: u64, stored: u64) -> Option<i64>
    requires { 0 < divisor }
    ensures { fetched_of result ≡ signed64 (value_at (unbiased low) divisor stored) }
{
    if product_fits(stored, divisor, u64::MAX - low) {
        Some(signed::unbiased(low + stored * divisor))
    } else {
        None
    }
}

// The same where `smallest` is a header number.
pub fn value_of(smallest: u64, divisor: u64, stored: u64) -> Option<i64>
    requires { 0 < divisor }
    ensures { fetched_of result ≡ signed64 (value_at (unzigzag smallest) divisor stored) }
{
    value_above(signed::biased_of(smallest), divisor, stored)
}
