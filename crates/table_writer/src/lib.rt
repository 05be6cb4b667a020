// The value section of edition 4 (document 02, [12]) written: the table, and then the codes, high bit first.
#![tactic(auto)]

ghost use Rattle.std.specs.Prelude.{◌≡◌, true, ◌++◌, map, ◌*◌, ◌≤◌, length, drop};
ghost use Rattle.std.proofs.lemmas.List.Edits.{sets};
ghost use Rattle.format.specs.Bytes.{bytes_of};
ghost use Rattle.format.specs.Bits.{packed, packed_bytes};
ghost use Rattle.format.specs.Table.{max_entries, code_in, code_width, table_entry, table_section, ascends, all_in};

// Writes the table to the front of out.
fn put_entries(out: &mut [u8], table: &[i64])
    requires { 8 * length table.now ≤ length out.old }
    ensures { out.new ≡ sets out.old 0 (bytes_of table_entry table.now) }
{
    for (i, entry) in table.iter().enumerate() {
        numbers::put_long(out, 8 * i, signed::bits_of(*entry));
    }
}

// Writes a code for each value to the front of out, with G guesses.
fn put_codes_by<const G: usize>(out: &mut [u8], table: &[i64], values: &[i64])
    requires { (1 ≤ length table.now) × (length table.now ≤ max_entries) × (ascends table.now ≡ true) × (all_in table.now values.now ≡ true)
        × (packed_bytes (length values.now) (code_width (length table.now)) ≤ length out.old) × (1 ≤ G)
        × (G ≤ 4096) }
    ensures { out.new ≡ packed (code_width (length table.now)) (map (code_in table.now) values.now)
        ++ drop (packed_bytes (length values.now) (code_width (length table.now))) out.old }
{
    let w = numbers::size(table_values::code_width(numbers::long(table.len())));
    let mut p = packing::Pending {
        at: 0,
        have: 0,
        acc: 0,
    };
    let mut guesses = [0u8; G];
    for x in values {
        let code = tables::place_of(&mut guesses, table, signed::biased(*x));
        p = packing::push(out, p, w, numbers::long(code));
    }
    packing::finish(out, p);
}

// The same, with as many guesses as so many values are worth.
fn put_codes(out: &mut [u8], table: &[i64], values: &[i64])
    requires { (1 ≤ length table.now) × (length table.now ≤ max_entries) × (ascends table.now ≡ true) × (all_in table.now values.now ≡ true)
        × (packed_bytes (length values.now) (code_width (length table.now)) ≤ length out.old) }
    ensures { out.new ≡ packed (code_width (length table.now)) (map (code_in table.now) values.now)
        ++ drop (packed_bytes (length values.now) (code_width (length table.now))) out.old }
{
    if values.len() < tables::MANY {
        put_codes_by::<{ tables::FEW_GUESSES }>(out, table, values);
    } else {
        put_codes_by::<{ tables::GUESSES }>(out, table, values);
    }
}

// Writes the value section to the front of out, the part of the output that starts where the section starts. The table ascends and holds every
// value.
pub fn put(out: &mut [u8], table: &[i64], values: &[i64])
    requires { (1 ≤ length table.now) × (length table.now ≤ max_entries) × (ascends table.now ≡ true) × (all_in table.now values.now ≡ true)
        × (length (table_section table.now values.now) ≤ length out.old) }
    ensures { out.new ≡ table_section table.now values.now
        ++ drop (length (table_section table.now values.now)) out.old }
{
    put_entries(out, table);
    let at = 8 * table.len();
    put_codes(&mut out[at..], table, values);
}
