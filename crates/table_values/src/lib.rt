// The values of edition 4 (document 02, [12]): a table of the distinct values, ascending, and a code for each value, its place in the table.
// Here they are read; `table_writer` writes them.
#![tactic(auto)]

ghost use Rattle.std.specs.Prelude.{◌≡◌, true, List, ◌++◌, ℕ, ◌+◌, ◌-◌, ◌*◌, ◌≤◌, ℤ, length, drop};
ghost use Rattle.std.proofs.Math.Option.{some};
ghost use Rattle.std.proofs.lemmas.List.Edits.{sets};
ghost use Rattle.format.specs.Limits.{max_count};
ghost use Rattle.format.specs.Bytes.{low_at, untwos};
ghost use Rattle.format.specs.Bits.{packed_bytes};
ghost use Rattle.format.specs.Pairs.{Each, Fits};
ghost use Rattle.format.specs.Table.{max_entries, code_width, table_fields, table_bytes, value_share};
ghost use Rattle.format.specs.Editions.{table, codec};
ghost use Rattle.format.specs.Check.{all_values};
ghost use Rattle.format.specs.Drawn.{drawn};
ghost use Rattle.answers.specs.Replies.{fields_of, fetched_of};
ghost use Rattle.table_values.specs.Codes.{code_slot, code_value};
ghost use Rattle.table_values.specs.Saves.{saves};

use answers::Fields;
use packings::Order;
use scaled_values::Slot;

// The least width for the last code of t entries.
pub fn code_width(t: u64) -> u64
    requires { (1 ≤ t) × (t ≤ max_entries) }
    ensures { (result ≡ code_width t) × (result ≤ 8) }
{
    packings::width_for(Order::High, t - 1)
}

// What the header says of a table of t entries.
pub fn fields_of(t: u64) -> Fields
    requires { (1 ≤ t) × (t ≤ max_entries) }
    ensures { fields_of result ≡ table_fields t }
{
    Fields {
        width: code_width(t),
        smallest: 0,
        divisor: t,
    }
}

// The bytes of a table of t entries and of n codes.
pub fn bytes_of(t: u64, n: u64) -> u64
    requires { (1 ≤ t) × (t ≤ max_entries) × (n ≤ max_count) }
    ensures { (result ≡ table_bytes t n) × (result ≤ 2048 + 8 * n) }
{
    8 * t + packing::packed_bytes(n, code_width(t))
}

// Whether the fields, and v as the value section's length, keep the header rules; `packed` are the bytes of n codes at the width.
pub fn rules(fields: Fields, packed: u64, v: u64) -> bool
    requires { packed ≤ 8 * max_count }
    ensures { (n : ℕ) → packed ≡ packed_bytes n fields.width → result ≡ (codec table).fields_ok n (fields_of fields) v }
{
    let t = fields.divisor;
    if t < limits::MIN_ENTRIES as u64 {
        return false;
    }
    if t > limits::MAX_ENTRIES as u64 {
        return false;
    }
    if fields.width != code_width(t) {
        return false;
    }
    if fields.smallest != 0 {
        return false;
    }
    v == 8 * t + packed
}

// The entry at place k of the table that a section begins with.
pub fn entry(section: &[u8], k: usize) -> i64
    requires { 8 * k + 8 ≤ length section.now }
    ensures { result ≡ untwos (low_at 8 section.now (8 * k)) }
{
    signed::unbiased(signed::turned(numbers::long_at(section, 8 * k)))
}

// Step 7: where the code of ordinal i stands, after a table of t entries; nothing stands above a smallest value.
pub fn slot_at(w: u64, t: u64, i: u64) -> Option<Slot>
    requires { t ≤ max_entries }
    ensures { result ≡ code_slot w t i }
{
    Some(Slot {
        start: 8 * (t as usize),
        width: w as usize,
        index: i as usize,
        low: 0,
    })
}

// And the entry at a code, if there is one.
pub fn value_of(section: &[u8], t: u64, code: u64) -> Option<i64>
    requires { 8 * t ≤ length section.now }
    ensures { fetched_of result ≡ code_value t section.now code }
{
    if code >= t {
        return None;
    }
    Some(entry(section, code as usize))
}

// The n values of a section, each of which is there, from the buffer's front on.
pub fn fill(values: &mut [i64], section: &[u8], n: usize, fields: Fields)
    requires { ((codec table).fields_ok n (fields_of fields) (length section.now) ≡ true) × (n ≤ length values.old)
        × ((vs : List ℤ) × (all_values n ((codec table).value n (fields_of fields) section.now) ≡ some vs)) }
    ensures { (vs : List ℤ) → all_values n ((codec table).value n (fields_of fields) section.now) ≡ some vs
        → values.new ≡ vs ++ drop n values.old }
{
    let w = numbers::size(fields.width);
    let start = 8 * (fields.divisor as usize);
    let mut at: usize = 0;
    let mut skip: usize = 0;
    for i in 0..n {
        let code = packings::next_of(&section[start..], Order::High, w, i, n, at, skip);
        let v = entry(section, numbers::size(code));
        values[i] = v;
        let next = skip + w;
        at += next >> 3;
        skip = next & 7;
    }
}

// ---- whether a table saves bytes

// The bytes of a column that its values decide.
fn share(fields: Fields, v: u64) -> u64
    requires { v ≤ 2048 + 8 * max_count }
    ensures { result ≡ value_share (fields_of fields) v }
{
    let w = header_numbers::number_len(fields.width);
    let s = header_numbers::number_len(fields.smallest);
    let g = header_numbers::number_len(fields.divisor);
    let l = header_numbers::number_len(v);
    numbers::long(w + s + g + l) + v
}

// Whether the column of n values that are those of the table is shorter with the table than in edition 1.
pub fn saves(table: &[i64], n: u64) -> bool
    requires { (1 ≤ length table.now) × (length table.now ≤ max_entries) × (n ≤ max_count) }
    ensures { (result ≡ saves table.now n) × Each Fits table.now }
{
    let t = numbers::long(table.len());
    let own = share(fields_of(t), bytes_of(t, n));
    let plain = scaled_values::plan(Order::High, table);
    let v = packing::packed_bytes(n, plain.width);
    own < share(plain, v)
}

// The values of the ordinals from x on, of n, into places `from` to `end`, code after code, up to the first that has none. Says where it
// stopped.
pub fn draw(
    values: &mut [i64],
    section: &[u8],
    n: usize,
    fields: Fields,
    x: usize,
    from: usize,
    end: usize,
) -> usize
    requires { (n ≤ max_count) × ((codec table).fields_ok n (fields_of fields) (length section.now) ≡ true) × (x + (end - from) ≤ n)
        × (from ≤ end) × (end ≤ length values.old) }
    ensures { (result ≡ from + length (drawn ((codec table).value n (fields_of fields) section.now) (end - from) x))
        × (values.new
        ≡ sets values.old from (drawn ((codec table).value n (fields_of fields) section.now) (end - from) x)) }
{
    let w = fields.width as usize;
    let start = 8 * (fields.divisor as usize);
    let codes = &section[start..];
    let mut at = packing::byte_of(x, w);
    let mut skip = packing::skip_of(x, w);
    for i in from..end {
        let code = packings::next_of(codes, Order::High, w, x + (i - from), n, at, skip);
        let Some(value) = value_of(section, fields.divisor, code) else {
            return i;
        };
        values[i] = value;
        let next = skip + w;
        at += next >> 3;
        skip = next & 7;
    }
    end
}
