// One smallest value, one divisor and one width for all values (document 01, "Value section"), by one of the packings: the codec of editions
// 1 and 2.
#![tactic(auto)]

ghost use Rattle.std.specs.Prelude.{◌≡◌, ◌++◌, ℕ, ◌*◌, ◌≤◌, length, drop};
ghost use Rattle.format.specs.Limits.{max_count, max_width};
ghost use Rattle.format.specs.Bits.{packed_bytes};
ghost use Rattle.format.specs.Values.{stored_with};
ghost use Rattle.format.specs.Pairs.{Each, Fits};
ghost use Rattle.format.specs.Codec.{scaled};
ghost use Rattle.answers.specs.Replies.{fields_of};
ghost use Rattle.packings.specs.Packings.{packing_of};
ghost use Rattle.scaled_values.specs.Storing.{Storing};

use answers::Fields;
use packings::Order;

mod slots;

pub use slots::{Slot, number_in, value_of, whole};

// What the header says of the values.
pub fn plan(order: Order, values: &[i64]) -> Fields
    ensures { (fields_of result ≡ (scaled (packing_of order)).fields values.now) × Each Fits values.now }
{
    let scale = scaling::scale_of(values);
    Fields {
        width: packings::width_for(order, scale.most),
        smallest: scale.smallest,
        divisor: scale.divisor,
    }
}

// The value section's length, by the fields of the values.
pub fn length(order: Order, values: &[i64], fields: Fields) -> u64
    requires { (fields_of fields ≡ (scaled (packing_of order)).fields values.now) × Each Fits values.now × (length values.now ≤ max_count) }
    ensures { (result ≡ length ((scaled (packing_of order)).section values.now)) × (result ≤ 8 * length values.now) }
{
    packing::packed_bytes(numbers::long(values.len()), fields.width)
}

// Whether the fields, and v as the value section's length, keep the header rules; `packed` are the bytes of n numbers at the width.
pub fn rules(order: Order, fields: Fields, packed: u64, v: u64) -> bool
    requires { fields.width ≤ max_width }
    ensures { (n : ℕ) → packed ≡ packed_bytes n fields.width → result ≡ (scaled (packing_of order)).fields_ok n (fields_of fields) v }
{
    fields.divisor >= 1 && packings::width_ok(order, fields.width) && v == packed
}

// Writes the numbers stored of the values, by a divisor and from the smallest value on (`low`, biased), packed at the width for them, to the
// front of out.
pub fn put_numbers(out: &mut [u8], order: Order, values: &[i64], low: u64, divisor: u64, w: usize)
    requires { Storing order values.now low divisor w (length out.old) }
    ensures { out.new ≡ (packing_of order).pack w (stored_with divisor values.now)
        ++ drop (packed_bytes (length values.now) w) out.old }
{
    let m = scaling::reciprocal(divisor);
    let mut p = packing::Pending {
        at: 0,
        have: 0,
        acc: 0,
    };
    for v in values {
        let x = scaling::quotient(signed::biased(*v) - low, divisor, m);
        p = packings::push(out, order, p, w, x);
    }
    packings::finish(out, order, p);
}

// Writes the value section to the front of out, the part of the output that starts where the section starts.
pub fn put(out: &mut [u8], order: Order, values: &[i64], fields: Fields)
    requires { (fields_of fields ≡ (scaled (packing_of order)).fields values.now) × Each Fits values.now
        × (length ((scaled (packing_of order)).section values.now) ≤ length out.old) }
    ensures { out.new ≡ (scaled (packing_of order)).section values.now
        ++ drop (length ((scaled (packing_of order)).section values.now)) out.old }
{
    let low = signed::biased_of(fields.smallest);
    put_numbers(
        out,
        order,
        values,
        low,
        fields.divisor,
        fields.width as usize,
    );
}
