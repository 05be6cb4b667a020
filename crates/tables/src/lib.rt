// The tables of edition 4 (document 02, [12]): a value's place in one, whether one ascends, and the distinct values made one.
#![tactic(auto)]

ghost use Rattle.std.specs.Prelude.{◌≡◌, true, false, cond, ◌∷◌, ◌++◌, ◌+◌, ◌≤◌, ◌<◌, length, take, drop};
ghost use Rattle.format.specs.Table.{insert, table_of, code_in, ascends};
ghost use Rattle.signed.specs.Sign.{unbiased};
ghost use Rattle.tables.specs.Holds.{Stands, Holds};
ghost use Rattle.tables.specs.Marks.{AllMarked};

// x where the test holds, else y. Both come as often, so this is a choice and no jump.
fn chosen(test: bool, x: usize, y: usize) -> usize
    ensures { result ≡ cond test x y }
{
    if test { x } else { y }
}

// A value's place in a table that ascends: that of the first entry which is not below it. `b` is the value's biased form.
// (Written out, as it was measured: docs/DECISIONS.md, D122. Std's `partition_point` would ask one entry more.)
pub fn place(table: &[i64], b: u64) -> usize
    requires { ascends table.now ≡ true }
    ensures { (result ≡ code_in table.now (unbiased b)) × (result ≤ length table.now) }
{
    let mut lo: usize = 0;
    let mut hi = table.len();
    while lo < hi {
        let mid = lo + (hi - lo) / 2;
        let below = signed::biased(table[mid]) < b;
        lo = chosen(below, mid + 1, lo);
        hi = chosen(below, hi, mid);
    }
    lo
}

// Whether the entry at place k is this value, in its biased form.
pub fn has(table: &[i64], k: usize, b: u64) -> bool
    ensures { (result ≡ true → Stands table.now k (unbiased b)) × (result ≡ false → Stands table.now k (unbiased b) → ⊥) }
{
    if k < table.len() {
        return signed::biased(table[k]) == b;
    }
    false
}

// Whether each entry is above the one before.
pub fn ascending(table: &[i64]) -> bool
    requires { 1 ≤ length table.now }
    ensures { result ≡ ascends table.now }
{
    table.is_sorted_by(|a, b| a < b)
}

// ---- guesses

// From so many values on a list has all the guesses; a shorter one has few, since they are cleared first.
pub const MANY: usize = 128;

pub const GUESSES: usize = 4096;

pub const FEW_GUESSES: usize = 256;

// The slot, of m, that has the guess for a value: each half of its biased form times an odd number, so that values of any pattern spread.
fn slot_of(b: u64, m: usize) -> usize
    requires { (1 ≤ m) × (m ≤ 4096) }
    ensures { result < m }
{
    let spread = (b / 4294967296) * 898614065 + (b % 4294967296) * 1969558475;
    (spread % 4294967296) as usize * m / 4294967296
}

// The same as `place`, and mostly without a search: a value is mostly one that was sought before, so where each was found is kept in its slot,
// as a guess for the next time. A guess is tested, so none need be right: with any guesses at all the place is the value's own.
pub fn place_of(guesses: &mut [u8], table: &[i64], b: u64) -> usize
    requires { (1 ≤ length guesses.old) × (length guesses.old ≤ 4096) × (ascends table.now ≡ true) }
    ensures { (result ≡ code_in table.now (unbiased b)) × (result ≤ length table.now) }
{
    let s = slot_of(b, guesses.len());
    let guess = usize::from(guesses[s]);
    if has(table, guess, b) {
        return guess;
    }
    let k = place(table, b);
    guesses[s] = (k % 256) as u8;
    k
}

// ---- the distinct values

// Puts a value, in its biased form, among the first n entries at place k: those from there on move up by one.
fn put_in(table: &mut [i64], n: usize, k: usize, b: u64)
    requires { (k ≤ n) × (n < length table.old) }
    ensures { take (n + 1) table.new ≡ take k table.old ++ (unbiased b ∷ drop k (take n table.old)) }
{
    table.copy_within(k..n, k + 1);
    table[k] = signed::unbiased(b);
}

// Puts a value among the first n entries, which ascend, unless it is there. How many there are then; if there is no room for it, one more than
// the table has. (Inlined where the number of guesses is known: a call for each value takes the planner 1.7 times the instructions.)
#[inline(always)]
fn added(table: &mut [i64], guesses: &mut [u8], n: usize, b: u64) -> usize
    requires { (n ≤ length table.old) × (ascends (take n table.old) ≡ true) × (1 ≤ length guesses.old) × (length guesses.old ≤ 4096) }
    ensures { Holds (length table.old) (insert (unbiased b) (take n table.old)) result table.new }
{
    let k = place_of(guesses, &table[..n], b);
    if has(&table[..n], k, b) {
        return n;
    }
    if n == table.len() {
        return n + 1;
    }
    put_in(table, n, k, b);
    n + 1
}

// The distinct values, ascending, as the table's first entries, and how many they are: in one pass that stops where the table has no room for
// them, and then says one more than it has. With G guesses.
fn gathered<const G: usize>(table: &mut [i64], values: &[i64]) -> usize
    requires { (1 ≤ G) × (G ≤ 4096) }
    ensures { Holds (length table.old) (table_of values.now) result table.new }
{
    let mut guesses = [0u8; G];
    let mut n: usize = 0;
    for x in values {
        n = added(table, &mut guesses, n, signed::biased(*x));
        if n > table.len() {
            return n;
        }
    }
    n
}

// The same, with as many guesses as so many values are worth.
pub fn distinct(table: &mut [i64], values: &[i64]) -> usize
    ensures { Holds (length table.old) (table_of values.now) result table.new }
{
    if values.len() < MANY {
        gathered::<FEW_GUESSES>(table, values)
    } else {
        gathered::<GUESSES>(table, values)
    }
}

// ---- marks

// Whether each of the first t places has a mark.
pub fn all_marked(marks: &[u8], t: usize) -> bool
    requires { t ≤ length marks.now }
    ensures { (result ≡ true → AllMarked marks.now t) × (result ≡ false → AllMarked marks.now t → ⊥) }
{
    marks[..t].iter().all(|mark| *mark != 0)
}
