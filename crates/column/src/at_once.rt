// A header whose numbers are short, read at once: what it says goes from call to call as single words.
ghost use Rattle.std.specs.Prelude.{◌≡◌, ◌+◌, ◌≤◌, length};
ghost use Rattle.format.specs.Editions.{editions};
ghost use Rattle.format.specs.Opening.{open_column};
ghost use Rattle.values.specs.Edition.{edition_of};
ghost use Rattle.column.specs.Opened.{column_of, judged_as, ReadOn};

use super::{Column, Head, edition_in, head_from};
use header_numbers::{quick_byte, quick_more, quick_number};
use values::{Edition, Fields};

// The place after a number of so many bytes.
fn place_after(at: usize, len: usize) -> usize
    requires { (at ≤ 45) × (len ≤ 5) }
    ensures { (result ≡ at + len) × (result ≤ at + 5) }
{
    at + len
}

// No header: an id section is never empty.
fn no_header() -> Column
    ensures { result.head.id_bytes ≡ 0 }
{
    Column {
        head: Head {
            edition: Edition::Plain,
            count: 0,
            power: 0,
            id_bytes: 0,
            jump_count: 0,
            fields: Fields {
                width: 0,
                smallest: 0,
                divisor: 0,
            },
            value_bytes: 0,
        },
        start: 0,
    }
}

// The numbers from w on, at a place after those of n, p, L and J.
fn quick_values(bytes: &[u8], edition: Edition, n: u64, p: u64, l: u64, j: u64, at: usize) -> Column
    requires { (at ≤ 21) × (45 ≤ length bytes.now) }
    ensures { (result.head.id_bytes ≡ 0 → ⊥) → ReadOn (edition_of edition) bytes.now at n p l j (column_of result) }
{
    let w = quick_byte(bytes, at);
    if w.len == 0 {
        return no_header();
    }
    let after_w = at + 1;
    let smallest = quick_number(bytes, after_w);
    if smallest.len == 0 {
        return no_header();
    }
    let after_smallest = place_after(after_w, smallest.len);
    let g = quick_number(bytes, after_smallest);
    if g.len == 0 {
        return no_header();
    }
    let after_g = place_after(after_smallest, g.len);
    let v = quick_more(bytes, after_g);
    if v.len == 0 {
        return no_header();
    }
    let start = place_after(after_g, v.len);
    Column {
        head: head_from(
            edition,
            n,
            p,
            l,
            j,
            w.value,
            smallest.value,
            g.value,
            v.value,
        ),
        start: start as u64,
    }
}

// The header's numbers, not tested, where each has at most five bytes and edition, power and width one; else an id section of 0 bytes.
// Each test stands by itself: a place then waits for a guessed branch, and not for the byte before it.
pub fn quick(bytes: &[u8]) -> Column
    ensures { (result.head.id_bytes ≡ 0 → ⊥) → open_column editions bytes.now ≡ judged_as bytes.now (column_of result) }
{
    if bytes.len() < 45 {
        return no_header();
    }
    let first = quick_byte(bytes, 0);
    if first.len != 1 {
        return no_header();
    }
    let Some(edition) = edition_in(first.value) else {
        return no_header();
    };
    let n = quick_more(bytes, 1);
    if n.len == 0 {
        return no_header();
    }
    let after_n = place_after(1, n.len);
    let p = quick_byte(bytes, after_n);
    if p.len == 0 {
        return no_header();
    }
    let after_p = after_n + 1;
    let l = quick_more(bytes, after_p);
    if l.len == 0 {
        return no_header();
    }
    let after_l = place_after(after_p, l.len);
    let j = quick_number(bytes, after_l);
    if j.len == 0 {
        return no_header();
    }
    let after_j = place_after(after_l, j.len);
    quick_values(bytes, edition, n.value, p.value, l.value, j.value, after_j)
}
