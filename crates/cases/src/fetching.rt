// The library's fetch (document 02, [5]) beside the second one, in either packing: every width from 0 to 64 that the packing has, every index
// from 0 to 16, the number and its bytes.
ghost use Rattle.std.specs.Prelude.{◌≡◌, ◌≤◌, length};

use super::say;
use super::say::Tally;
use packings::Order;

// Each index of a width, if the packing has it.
fn of_width(t: &mut Tally, s: &[u8], order: Order, w: usize)
    requires { (w ≤ 64) × (length s.now ≡ 136) }
{
    if !packings::width_ok(order, w as u64) {
        return;
    }
    let low_first = matches!(order, Order::Low);
    for i in 0..17usize {
        let want = reference::fetching::number(s, low_first, w, i);
        let got = packings::fetch(s, order, w, i);
        t.add(got.number == want.number && got.bytes as u64 == want.bytes);
    }
}

// Each width.
fn of_widths(t: &mut Tally, s: &[u8; 136], order: Order) {
    for w in 0..65usize {
        of_width(t, s, order, w);
    }
}

// In bytes that differ, and in bytes of ones, where no bit that is left untrimmed goes unseen.
fn of_packing(rt: &impl Print, t: &mut Tally, order: Order, name: &str) {
    let mut more = Tally::default();
    let mut s = [255u8; 136];
    of_widths(&mut more, &s, order);
    lists::paint(&mut s);
    of_widths(&mut more, &s, order);
    say::by_both(rt, t, name, "fetched", more)
}

pub fn numbers(rt: &impl Print, t: &mut Tally) {
    of_packing(rt, t, Order::High, "numbers 0 to 16 of widths 0 to 64");
    of_packing(rt, t, Order::Low, "numbers 0 to 16 of edition 2's widths")
}
