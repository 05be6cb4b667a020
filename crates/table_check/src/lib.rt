// The check of a value section of edition 4 (document 02, [12]) that keeps the header rules.
#![tactic(auto)]

ghost use Rattle.std.specs.Prelude.{◌≡◌, true, ◌++◌, ◌*◌, ◌≤◌, length, drop};
ghost use Rattle.format.specs.Limits.{max_count, max_width};
ghost use Rattle.format.specs.Bits.{unpacked, packed_bytes};
ghost use Rattle.format.specs.Table.{max_entries};
ghost use Rattle.format.specs.Editions.{table, codec};
ghost use Rattle.answers.specs.Replies.{fields_of};
ghost use Rattle.tables.specs.Marks.{marked};
ghost use Rattle.table_check.specs.ValuesOk.{entries_from, below_all, codes_ok, values_ok};

use answers::Fields;
use packings::Order;

// The table that a section begins with.
fn read_table(table: &mut [i64], section: &[u8], t: usize)
    requires { (t ≤ length table.old) × (8 * t ≤ length section.now) }
    ensures { table.new ≡ entries_from 0 t section.now ++ drop t table.old }
{
    for i in 0..t {
        table[i] = table_values::entry(section, i);
    }
}

// Sets a mark at each code's place. Whether each is below t.
fn mark_codes(marks: &mut [u8], codes: &[u8], w: usize, n: usize, t: usize) -> bool
    requires { (w ≤ max_width) × (n * w ≤ 8 * length codes.now) × (t ≤ length marks.old) }
    ensures { (result ≡ below_all t (unpacked w n codes.now))
        × (result ≡ true → marks.new ≡ marked marks.old (unpacked w n codes.now)) }
{
    let mut at: usize = 0;
    let mut skip: usize = 0;
    for i in 0..n {
        let code = packings::next_of(codes, Order::High, w, i, n, at, skip);
        if code >= t as u64 {
            return false;
        }
        let k = code as usize;
        marks[k] = 1;
        let next = skip + w;
        at += next >> 3;
        skip = next & 7;
    }
    true
}

// Whether the spare bits are 0, each code is below t, and each number below t is a code.
fn codes_ok(codes: &[u8], n: usize, w: usize, t: usize) -> bool
    requires { (w ≤ 8) × (n ≤ max_count) × (length codes.now ≡ packed_bytes n w) × (t ≤ max_entries) }
    ensures { result ≡ codes_ok n w t codes.now }
{
    let spare = 8 * codes.len() - n * w;
    if !packings::spare_ok(codes, Order::High, spare) {
        return false;
    }
    let mut marks = [0u8; limits::MAX_ENTRIES];
    if !mark_codes(&mut marks, codes, w, n, t) {
        return false;
    }
    tables::all_marked(&marks, t)
}

// Whether a value section is the section of its values, and the fields are theirs.
pub fn values_ok(section: &[u8], n: u64, fields: Fields) -> bool
    requires { (n ≤ max_count) × ((codec table).fields_ok n (fields_of fields) (length section.now) ≡ true) }
    ensures { result ≡ values_ok n (fields_of fields) section.now }
{
    let t = numbers::size(fields.divisor);
    let mut table = [0i64; limits::MAX_ENTRIES];
    read_table(&mut table, section, t);
    if !tables::ascending(&table[..t]) {
        return false;
    }
    if !table_values::saves(&table[..t], n) {
        return false;
    }
    let w = numbers::size(fields.width);
    let start = 8 * t;
    codes_ok(&section[start..], numbers::size(n), w, t)
}
