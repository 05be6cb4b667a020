// The values of an accepted value section of one smallest value, divisor and width, by one of the packings, written into a lent buffer
// (document 01, "Value section").
#![tactic(auto)]

ghost use Rattle.std.specs.Prelude.{◌≡◌, true, List, ◌++◌, ◌+◌, ◌-◌, ◌*◌, ◌^◌, ◌≤◌, ◌<◌, ℤ, length, drop, set};
ghost use Rattle.std.proofs.Math.Option.{some};
ghost use Rattle.std.proofs.lemmas.List.Edits.{sets};
ghost use Rattle.format.specs.Limits.{max_count};
ghost use Rattle.format.specs.Codec.{scaled};
ghost use Rattle.format.specs.Check.{all_values};
ghost use Rattle.format.specs.Drawn.{drawn};
ghost use Rattle.answers.specs.Replies.{fields_of};
ghost use Rattle.signed.specs.Sign.{unbiased};
ghost use Rattle.packings.specs.declared.Order as Od;
ghost use Rattle.packings.specs.Packings.{packing_of, cut};
ghost use Rattle.scaled_reader.specs.Stored.{FourFit, four_of, AllFit, FilledTo, Eights};

use answers::Fields;
use packings::Order;

// The value of a stored number, where it fits; `low` is the smallest value, biased.
fn value_from(low: u64, divisor: u64, stored: u64) -> i64
    requires { low + stored * divisor < 2 ^ 64 }
    ensures { result ≡ unbiased (low + stored * divisor) }
{
    signed::unbiased(low + stored * divisor)
}

// Stores the value of the number in the w bits of x after its first skip ones, where it fits.
fn put_part(
    values: &mut [i64],
    order: Order,
    i: usize,
    x: u64,
    skip: usize,
    w: usize,
    low: u64,
    divisor: u64,
)
    requires { (0 < w) × (skip + w ≤ 64) × (i < length values.old) × (low + cut order x skip w * divisor < 2 ^ 64) }
    ensures { values.new ≡ set values.old i (unbiased (low + cut order x skip w * divisor)) }
{
    let v = value_from(low, divisor, packings::part(order, x, skip, w));
    values[i] = v;
}

// Stores the values of the first four numbers of w bits each in x.
fn put_four(values: &mut [i64], order: Order, i: usize, x: u64, w: usize, low: u64, divisor: u64)
    requires { (0 < w) × (w ≤ 14) × (i + 4 ≤ length values.old) × (FourFit order low divisor x w) }
    ensures { values.new ≡ sets values.old i (four_of order low divisor x w) }
{
    put_part(values, order, i, x, 0, w, low, divisor);
    put_part(values, order, i + 1, x, w, w, low, divisor);
    put_part(values, order, i + 2, x, 2 * w, w, low, divisor);
    put_part(values, order, i + 3, x, 3 * w, w, low, divisor);
}

// The first of the values, four from one window, up to the last 64; none for a width that no four of fit a window. Says how many.
fn fill_fours(values: &mut [i64], section: &[u8], order: Order, n: usize, fields: Fields) -> usize
    requires { ((scaled (packing_of order)).fields_ok n (fields_of fields) (length section.now) ≡ true) × (n ≤ length values.old)
        × (AllFit order n (fields_of fields) section.now) × (n ≤ max_count) }
    ensures { (result ≤ n) × FilledTo order n (fields_of fields) section.now values.old values.new result }
{
    let low = signed::biased_of(fields.smallest);
    let w = fields.width as usize;
    if w == 0 {
        return 0;
    }
    if 14 < w {
        return 0;
    }
    let mut i: usize = 0;
    // A `step_by` would be no plainer: the place after the last four is what is handed back.
    while 64 <= n - i {
        let bit = i * w;
        let x = packings::window(section, order, bit >> 3, bit & 7);
        put_four(values, order, i, x, w, low, fields.divisor);
        i += 4;
    }
    i
}

// The same high bit first, eight at a time, which start at a byte: so all shifts are the same in every turn. The fields are for the contract; what
// is computed with are width, smallest and divisor by themselves, and where the divisor is told as 1, nothing is multiplied.
fn fill_eights(
    values: &mut [i64],
    section: &[u8],
    n: usize,
    fields: Fields,
    w: usize,
    low: u64,
    divisor: u64,
) -> usize
    requires { Eights Od.Order.High n (fields_of fields) section.now (length values.old) w low divisor }
    ensures { (result ≤ n) × FilledTo Od.Order.High n (fields_of fields) section.now values.old values.new result }
{
    let half = (4 * w) >> 3;
    let skip = (4 * w) & 7;
    let mut i: usize = 0;
    let mut at: usize = 0;
    // As above: the place after the last eight is handed back.
    while 72 <= n - i {
        let x = packings::window(section, Order::High, at, 0);
        let y = packings::window(section, Order::High, at + half, skip);
        put_four(values, Order::High, i, x, w, low, divisor);
        put_four(values, Order::High, i + 4, y, w, low, divisor);
        i += 8;
        at += w;
    }
    i
}

// The first of the values, packed high bit first, up to the last 72; none for a width that no four of fit a window. Says how many.
fn fill_high(values: &mut [i64], section: &[u8], n: usize, fields: Fields) -> usize
    requires { ((scaled (packing_of Od.Order.High)).fields_ok n (fields_of fields) (length section.now) ≡ true) × (n ≤ length values.old)
        × (AllFit Od.Order.High n (fields_of fields) section.now) }
    ensures { (result ≤ n) × FilledTo Od.Order.High n (fields_of fields) section.now values.old values.new result }
{
    let low = signed::biased_of(fields.smallest);
    let w = fields.width as usize;
    if w == 0 {
        return 0;
    }
    if 14 < w {
        return 0;
    }
    if fields.divisor == 1 {
        return fill_eights(values, section, n, fields, w, low, 1);
    }
    fill_eights(values, section, n, fields, w, low, fields.divisor)
}

// The same one by one, for a width at which a window holds the next number wherever in its byte that starts; none for another.
fn fill_ones(values: &mut [i64], section: &[u8], order: Order, n: usize, fields: Fields) -> usize
    requires { (n ≤ max_count) × ((scaled (packing_of order)).fields_ok n (fields_of fields) (length section.now) ≡ true) × (n ≤ length values.old)
        × (AllFit order n (fields_of fields) section.now) }
    ensures { (result ≤ n) × FilledTo order n (fields_of fields) section.now values.old values.new result }
{
    let low = signed::biased_of(fields.smallest);
    let w = fields.width as usize;
    if w == 0 {
        return 0;
    }
    if 57 < w {
        return 0;
    }
    let end = n.saturating_sub(63);
    for i in 0..end {
        let bit = i * w;
        let x = packings::window(section, order, bit >> 3, bit & 7);
        put_part(values, order, i, x, 0, w, low, fields.divisor);
    }
    end
}

// As many of the first values as windows hold. Says how many.
fn fill_windows(values: &mut [i64], section: &[u8], order: Order, n: usize, fields: Fields) -> usize
    requires { (n ≤ max_count) × ((scaled (packing_of order)).fields_ok n (fields_of fields) (length section.now) ≡ true) × (n ≤ length values.old)
        × (AllFit order n (fields_of fields) section.now) }
    ensures { (result ≤ n) × FilledTo order n (fields_of fields) section.now values.old values.new result }
{
    if 14 < fields.width {
        return fill_ones(values, section, order, n, fields);
    }
    match order {
        Order::High => fill_high(values, section, n, fields),
        Order::Low => fill_fours(values, section, order, n, fields),
    }
}

// The n values of a section, each of which is there, from the buffer's front on.
pub fn fill(values: &mut [i64], section: &[u8], order: Order, n: usize, fields: Fields)
    requires { (n ≤ max_count) × ((scaled (packing_of order)).fields_ok n (fields_of fields) (length section.now) ≡ true) × (n ≤ length values.old)
        × ((vs : List ℤ) × (all_values n ((scaled (packing_of order)).value n (fields_of fields) section.now) ≡ some vs)) }
    ensures { (vs : List ℤ) → all_values n ((scaled (packing_of order)).value n (fields_of fields) section.now) ≡ some vs
        → values.new ≡ vs ++ drop n values.old }
{
    let low = signed::biased_of(fields.smallest);
    let w = fields.width as usize;
    let done = fill_windows(values, section, order, n, fields);
    for i in done..n {
        let bit = i * w;
        let x = packings::next_of(section, order, w, i, n, bit >> 3, bit & 7);
        values[i] = value_from(low, fields.divisor, x);
    }
}

// ---- some of them

// The values of the ordinals from x on, of n, into places `from` to `end`, up to the first that has none, where all have one smallest value,
// divisor and width: number after number. Says where it stopped.
pub fn draw(
    values: &mut [i64],
    section: &[u8],
    order: Order,
    n: usize,
    fields: Fields,
    x: usize,
    from: usize,
    end: usize,
) -> usize
    requires { (n ≤ max_count) × ((scaled (packing_of order)).fields_ok n (fields_of fields) (length section.now) ≡ true) × (x + (end - from) ≤ n)
        × (from ≤ end) × (end ≤ length values.old) }
    ensures { (result ≡ from + length (drawn ((scaled (packing_of order)).value n (fields_of fields) section.now) (end - from) x))
        × (values.new
        ≡ sets values.old from (drawn ((scaled (packing_of order)).value n (fields_of fields) section.now) (end - from) x)) }
{
    let low = signed::biased_of(fields.smallest);
    let w = fields.width as usize;
    for i in from..end {
        let o = x + (i - from);
        let bit = o * w;
        let stored = packings::next_of(section, order, w, o, n, bit >> 3, bit & 7);
        let Some(value) = scaling::value_above(low, fields.divisor, stored) else {
            return i;
        };
        values[i] = value;
    }
    end
}
