// Header numbers, in groups of seven bits (document 01, "Header"): their length, writing and reading.
#![tactic(auto)]

ghost use Rattle.std.specs.Prelude.{◌≡◌, ◌+◌, ◌≤◌, ◌<◌, length, drop};
ghost use Rattle.std.proofs.lemmas.List.Edits.{sets};
ghost use Rattle.format.specs.HeaderNumbers.{number, read_number, read_groups};
ghost use Rattle.header_numbers.specs.Read.{number_of, number_on, decides_at};
ghost use Rattle.header_numbers.specs.Quick.{Quick};

// A header number, and the place after its last byte.
#[derive(Clone, Copy, Debug, PartialEq, Eq)]
pub struct Number {
    pub value: u64,
    pub next: usize,
}

// Why there is none at a place.
#[derive(Clone, Copy, Debug, PartialEq, Eq)]
pub enum NumberFault {
    // The bytes end before its last byte.
    Short,
    // Not minimal, or 2^64 or more: the place of the byte that decides.
    Bad { at: usize },
}

// How many bytes the number takes.
pub fn number_len(n: u64) -> usize
    ensures { (result ≡ length (number n)) × (1 ≤ result) × (result ≤ 10) }
{
    let mut x = n;
    let mut k: usize = 1;
    while x >= 128 {
        x /= 128;
        k += 1;
    }
    k
}

// Writes the number, and returns the place after it.
pub fn put_number(out: &mut [u8], at: usize, n: u64) -> usize
    requires { at + length (number n) ≤ length out.old }
    ensures { (result ≡ at + length (number n)) × (out.new ≡ sets out.old at (number n)) }
{
    let mut x = n;
    let mut i = at;
    while x >= 128 {
        out[i] = (x % 128 + 128) as u8;
        x /= 128;
        i += 1;
    }
    out[i] = x as u8;
    i + 1
}

// Whether the byte after k bytes of a number, each of which goes on, decides that it is none: the tenth that is not 1, or a zero that
// ends it.
fn decides(k: usize, b: u64) -> bool
    ensures { result ≡ decides_at k b }
{
    if k == 9 {
        return b != 1;
    }
    b == 0
}

// The bytes of a number after its first, whose seven bits are `low`.
fn read_rest(s: &[u8], first: usize, low: u64) -> Result<Number, NumberFault>
    requires { (low < 128) × (first < length s.now) }
    ensures { result ≡ number_on 128 low (first + 1) (read_groups 8 (drop (first + 1) s.now)) }
{
    let mut scale: u64 = 128;
    let mut sum = low;
    for i in first + 1..s.len() {
        let b = u64::from(s[i]);
        if decides(i - first, b) {
            return Err(NumberFault::Bad { at: i });
        }
        if b < 128 {
            return Ok(Number {
                value: sum + scale * b,
                next: i + 1,
            });
        }
        sum += scale * (b - 128);
        scale *= 128;
    }
    Err(NumberFault::Short)
}

// Reads the number that starts at a place.
pub fn read_number(s: &[u8], at: usize) -> Result<Number, NumberFault>
    ensures { result ≡ number_of at (read_number (drop at s.now)) }
{
    if s.len() <= at {
        return Err(NumberFault::Short);
    }
    let b = u64::from(s[at]);
    if b < 128 {
        return Ok(Number {
            value: b,
            next: at + 1,
        });
    }
    read_rest(s, at, b - 128)
}

// A number of at most five bytes, and how many they are: 0 for all else. The length is told by the jumps alone and not by a sum with the
// value, so that the place of what follows is guessed with them and waits for no byte (docs/DECISIONS.md, "Speed").
#[derive(Clone, Copy, Debug, PartialEq, Eq)]
pub struct Brief {
    pub value: u64,
    pub len: usize,
}

fn no_number() -> Brief
    ensures { result.len ≡ 0 }
{
    Brief { value: 0, len: 0 }
}

// The number that starts at a place.
pub fn quick_more(s: &[u8], at: usize) -> Brief
    requires { at + 5 ≤ length s.now }
    ensures { Quick s.now at result }
{
    let b0 = u64::from(s[at]);
    if b0 < 128 {
        return Brief { value: b0, len: 1 };
    }
    let i1 = at + 1;
    let b1 = u64::from(s[i1]);
    if b1 < 128 {
        if b1 == 0 {
            return no_number();
        }
        return Brief {
            value: b0 - 128 + 128 * b1,
            len: 2,
        };
    }
    let i2 = i1 + 1;
    let b2 = u64::from(s[i2]);
    if b2 < 128 {
        if b2 == 0 {
            return no_number();
        }
        return Brief {
            value: b0 - 128 + 128 * (b1 - 128) + 16384 * b2,
            len: 3,
        };
    }
    let i3 = i2 + 1;
    let b3 = u64::from(s[i3]);
    if b3 < 128 {
        if b3 == 0 {
            return no_number();
        }
        return Brief {
            value: b0 - 128 + 128 * (b1 - 128) + 16384 * (b2 - 128) + 2097152 * b3,
            len: 4,
        };
    }
    let i4 = i3 + 1;
    let b4 = u64::from(s[i4]);
    if b4 < 128 {
        if b4 == 0 {
            return no_number();
        }
        return Brief {
            value: b0 - 128
                + 128 * (b1 - 128)
                + 16384 * (b2 - 128)
                + 2097152 * (b3 - 128)
                + 268435456 * b4,
            len: 5,
        };
    }
    no_number()
}

// The same where one byte is likely.
pub fn quick_number(s: &[u8], at: usize) -> Brief
    requires { at + 5 ≤ length s.now }
    ensures { Quick s.now at result }
{
    let b = u64::from(s[at]);
    if b < 128 {
        return Brief { value: b, len: 1 };
    }
    quick_more(s, at)
}

// The same of one byte alone.
pub fn quick_byte(s: &[u8], at: usize) -> Brief
    requires { at < length s.now }
    ensures { (Quick s.now at result) × ((result.len ≡ 0 → ⊥) → result.len ≡ 1) }
{
    let b = u64::from(s[at]);
    if b < 128 {
        return Brief { value: b, len: 1 };
    }
    no_number()
}
