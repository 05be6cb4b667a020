// A column's header written (document 01, "Header"): its numbers one after the other.
ghost use Rattle.std.specs.Prelude.{◌≡◌, ◌≤◌, length};
ghost use Rattle.std.proofs.lemmas.List.Edits.{sets};
ghost use Rattle.format.specs.Bytes.{bytes_of};
ghost use Rattle.format.specs.HeaderNumbers.{number};
ghost use Rattle.format.specs.Column.{head_numbers};
ghost use Rattle.column.specs.Opened.{head_is};

use column::{Head, number_of};

// The header's numbers in order.
fn head_numbers(h: Head) -> [u64; 9]
    ensures { result ≡ head_numbers (head_is h) }
{
    let edition = h.edition;
    let f = h.fields;
    [
        number_of(edition),
        h.count,
        h.power,
        h.id_bytes,
        h.jump_count,
        f.width,
        f.smallest,
        f.divisor,
        h.value_bytes,
    ]
}

fn numbers_len(ns: &[u64]) -> usize
    requires { length ns.now ≤ 9 }
    ensures { (result ≡ length (bytes_of number ns.now)) × (result ≤ 90) }
{
    let mut sum: usize = 0;
    for n in ns {
        sum += header_numbers::number_len(*n);
    }
    sum
}

fn put_numbers(out: &mut [u8], ns: &[u64]) -> usize
    requires { length (bytes_of number ns.now) ≤ length out.old }
    ensures { (result ≡ length (bytes_of number ns.now)) × (out.new ≡ sets out.old 0 (bytes_of number ns.now)) }
{
    let mut i: usize = 0;
    for n in ns {
        i = header_numbers::put_number(out, i, *n);
    }
    i
}

// The header's byte count.
pub fn header_len(h: Head) -> usize
    ensures { (result ≡ length (bytes_of number (head_numbers (head_is h)))) × (result ≤ 90) }
{
    let ns = head_numbers(h);
    numbers_len(&ns)
}

// Writes the header at place 0, and returns its byte count.
pub fn put_header(out: &mut [u8], h: Head) -> usize
    requires { length (bytes_of number (head_numbers (head_is h))) ≤ length out.old }
    ensures { (result ≡ length (bytes_of number (head_numbers (head_is h))))
        × (out.new ≡ sets out.old 0 (bytes_of number (head_numbers (head_is h)))) }
{
    let ns = head_numbers(h);
    put_numbers(out, &ns)
}
