// The check of a value section of one smallest value, divisor and width (document 01, "Value section"; document 02, [2]), by one of the
// packings, that keeps the header rules.
#![tactic(auto)]

ghost use Rattle.std.specs.Prelude.{◌≡◌, true, ◌&&◌, ◌+◌, ◌-◌, ◌^◌, ◌≤◌, ◌<◌, eqb, leb, length};
ghost use Rattle.format.specs.Values.{fits64};
ghost use Rattle.format.specs.Limits.{max_count};
ghost use Rattle.format.specs.Codec.{scaled};
ghost use Rattle.answers.specs.Replies.{fields_of};
ghost use Rattle.packings.specs.Packings.{packing_of};
ghost use Rattle.scaled_values.specs.Held.{value_from, numbers_in};
ghost use Rattle.scaled_check.specs.ValuesOk.{numbers_ok, equal_ok, spread_ok, values_ok};
ghost use Rattle.scaled_check.specs.Numbered.{Numbered, Known, ok_from, ranged};

use answers::Fields;
use packings::Order;
use scaling::Range;

// Whether the value of a stored number fits in 64 bits.
fn fits(fields: Fields, stored: u64) -> bool
    requires { 0 < fields.divisor }
    ensures { result ≡ fits64 (value_from (fields_of fields) stored) }
{
    scaling::value_of(fields.smallest, fields.divisor, stored).is_some()
}

// Whether 0 is stored, a number needs the width, and nothing divides all.
fn exact(range: Range, top: u64) -> bool
    ensures { result ≡ (eqb range.lo 0 && leb top range.hi && eqb range.common 1) }
{
    range.lo == 0 && top <= range.hi && range.common == 1
}

// Whether no further number can change the answer: all that the width holds would fit.
fn settled(sure: bool, range: Range, top: u64) -> bool
    ensures { result ≡ (sure && (eqb range.lo 0 && leb top range.hi && eqb range.common 1)) }
{
    sure && exact(range, top)
}

// So many numbers are asked at once whether they change anything; where some do, as many are taken one by one.
const AT_ONCE: usize = 32;

// The n numbers of a section that keeps the header rules, where they have bits.
#[derive(Clone, Copy)]
struct Numbers<'a> {
    section: &'a [u8],
    order: Order,
    n: usize,
    fields: Fields,
    ghost kept: { Numbered order n (fields_of fields) section.now },
}

impl<'a> Numbers<'a> {
    // ---- many numbers at once

    // Whether the next numbers are within lo and lo + gap, and multiples of g: all are asked, without a branch.
    fn unmoved(&self, from: usize, lo: u64, gap: u64, g: u64) -> bool
        requires { (self.now.fields.width ≤ 57) × (from + 96 ≤ self.now.n) × (gap < 2 ^ 63) × (lo + gap < 2 ^ 64) × (g < 2 ^ 32) }
        ensures { result ≡ true → ok_from self.now.order self.now.n (fields_of self.now.fields) self.now.section.now (from + 32) lo (lo + gap) g
            ≡ ok_from self.now.order self.now.n (fields_of self.now.fields) self.now.section.now from lo (lo + gap) g }
    {
        let w = self.fields.width as usize;
        let m = scaling::reciprocal(g);
        let mut past: u64 = 0;
        let mut off: u64 = 0;
        // (The bit runs along: where each is i * w, eight products at once take a third longer than the sums. Measured on values that settle late.)
        let mut bit = from * w;
        for i in from..from + AT_ONCE {
            let x = packings::part(
                self.order,
                packings::window(self.section, self.order, bit >> 3, bit & 7),
                0,
                w,
            );
            past = scaling::joined(past, scaling::past(x, lo, gap));
            off = scaling::joined(off, scaling::unlike(x, g, m));
            bit += w;
        }
        past < scaling::HALF && off == 0
    }

    // The place after the numbers that change nothing, as far as they are asked at once. None is where those before changed the range, as they do
    // all along where values ascend. No window reaches past the section while 64 are left.
    fn steady_end(&self, from: usize, earlier: Range, old: Range) -> usize
        requires { from ≤ self.now.n }
        ensures { (from ≤ result) × (result ≤ self.now.n) × (ranged self.now.order self.now.n (fields_of self.now.fields) self.now.section.now result old
            ≡ ranged self.now.order self.now.n (fields_of self.now.fields) self.now.section.now from old) }
    {
        if earlier != old || 57 < self.fields.width || old.hi < old.lo {
            return from;
        }
        let gap = old.hi - old.lo;
        if scaling::HALF <= gap || scaling::SMALL <= old.common {
            return from;
        }
        let last = self.n.saturating_sub(64).max(from);
        scaling::passed(
            from,
            last,
            AT_ONCE,
            |i| self.unmoved(i, old.lo, gap, old.common),
        )
    }

    // ---- one by one

    // Number i.
    fn number(&self, i: usize) -> u64
        requires { i < self.now.n }
        ensures { result ≡ (packing_of self.now.order).fetch self.now.section.now self.now.fields.width i }
    {
        let w = self.fields.width as usize;
        let bit = i * w;
        packings::next_of(self.section, self.order, w, i, self.n, bit >> 3, bit & 7)
    }

    // The range with the numbers from `from` on up to `end`, or with as many of them as settle the answer.
    fn widened(&self, sure: bool, top: u64, from: usize, end: usize, old: Range) -> Range
        requires { Known self.now.order (fields_of self.now.fields) sure top × (from ≤ end) × (end ≤ self.now.n) × (old.hi < 2 ^ self.now.fields.width) }
        ensures { (result.hi < 2 ^ self.now.fields.width) × (ranged self.now.order self.now.n (fields_of self.now.fields) self.now.section.now end result
            ≡ ranged self.now.order self.now.n (fields_of self.now.fields) self.now.section.now from old) }
    {
        let mut range = old;
        let mut m = scaling::reciprocal(old.common);
        for i in from..end {
            let x = self.number(i);
            let common = scaling::common(range.common, m, x);
            m = scaling::renewed(m, range.common, common);
            range = Range {
                lo: range.lo.min(x),
                hi: range.hi.max(x),
                common,
            };
            if settled(sure, range, top) {
                return range;
            }
        }
        range
    }

    // The numbers until the answer is settled: some one by one, then as many as change nothing.
    fn ok(&self) -> bool
        ensures { result ≡ numbers_ok self.now.order (fields_of self.now.fields) (2 ^ self.now.fields.width - 1) 0 0
            (numbers_in self.now.order self.now.fields.width self.now.n self.now.section.now) }
    {
        let half = numbers::pow2((self.fields.width as usize) - 1);
        let most = half - 1 + half;
        let top = numbers::pow2(packings::narrower(self.order, self.fields.width) as usize);
        let sure = fits(self.fields, most);
        let mut range = Range {
            lo: most,
            hi: 0,
            common: 0,
        };
        let mut i: usize = 0;
        while i < self.n {
            let end = scaling::part_end(self.n, i, AT_ONCE);
            let next = self.widened(sure, top, i, end, range);
            if settled(sure, next, top) {
                return true;
            }
            i = self.steady_end(end, range, next);
            range = next;
        }
        exact(range, top) && fits(self.fields, range.hi)
    }
}

// Width 0: all values are equal, or there is none.
fn equal_ok(n: u64, fields: Fields) -> bool
    ensures { result ≡ equal_ok n (fields_of fields) }
{
    fields.divisor == 1 && (n >= 1 || fields.smallest == 0)
}

// Any other width.
fn spread_ok(s: &[u8], order: Order, n: u64, fields: Fields) -> bool
    requires { (n ≤ max_count) × ((scaled (packing_of order)).fields_ok n (fields_of fields) (length s.now) ≡ true) × (0 < fields.width) }
    ensures { result ≡ spread_ok order n (fields_of fields) s.now }
{
    let spare = 8 * s.len() - numbers::size(n * fields.width);
    let numbers = Numbers {
        section: s,
        order,
        n: n as usize,
        fields,
    };
    packings::spare_ok(s, order, spare) && numbers.ok()
}

// Whether a value section is the section of its values, and the fields are theirs.
// (It stands apart: inlined into the check of a whole column, its loop has too few registers, and the check of values that settle late takes a
// quarter longer in the build for x86-64-v3.)
#[inline(never)]
pub fn values_ok(section: &[u8], order: Order, n: u64, fields: Fields) -> bool
    requires { (n ≤ max_count) × ((scaled (packing_of order)).fields_ok n (fields_of fields) (length section.now) ≡ true) }
    ensures { result ≡ values_ok order n (fields_of fields) section.now }
{
    if fields.width == 0 {
        return equal_ok(n, fields);
    }
    spread_ok(section, order, n, fields)
}
