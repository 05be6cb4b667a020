// Signed numbers as numbers without sign. `unbiased` and `bits_of` alone see a signed number; all else computes without sign.
#![tactic(auto)]

ghost use Rattle.std.specs.Prelude.{◌≡◌};
ghost use Rattle.format.specs.Bytes.{twos, untwos};
ghost use Rattle.format.specs.HeaderNumbers.{zigzag, unzigzag};
ghost use Rattle.signed.specs.Sign.{biased, unbiased};

// 2^63, and the greatest signed number.
const HALF: u64 = 1 << 63;

const MOST: u64 = HALF - 1;

// v + 2^63.
pub fn biased(v: i64) -> u64
    ensures { result ≡ biased v }
{
    turned(bits_of(v))
}

// x - 2^63.
pub fn unbiased(x: u64) -> i64
    ensures { result ≡ unbiased x }
{
    turned(x).cast_signed()
}

// The biased form of the signed number that a header number stands for.
pub fn biased_of(number: u64) -> u64
    ensures { result ≡ biased (unzigzag number) }
{
    if number % 2 == 0 {
        HALF + number / 2
    } else {
        MOST - number / 2
    }
}

// The header number for a biased form.
pub fn number_of(b: u64) -> u64
    ensures { result ≡ zigzag (unbiased b) }
{
    if b < HALF {
        (MOST - b) * 2 + 1
    } else {
        (b - HALF) * 2
    }
}

// The biased form of a number in two's complement, and the other way round: they are 2^63 apart, modulo 2^64.
pub fn turned(x: u64) -> u64
    ensures { (result ≡ biased (untwos x)) × (result ≡ twos (unbiased x)) }
{
    x.wrapping_add(HALF)
}

// A signed number in two's complement.
pub fn bits_of(v: i64) -> u64
    ensures { result ≡ twos v }
{
    v.cast_unsigned()
}
