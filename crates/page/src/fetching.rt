// Step 7's number for a page. Of edition 1 it is taken from eight bytes at once where these hold it whole, as the reading draws its numbers;
// otherwise it is the fetch of every look-up.
ghost use Rattle.std.specs.Prelude.{◌≡◌, ◌+◌, ◌*◌, ◌<◌, ◌≤◌, true, ◌&&◌, length, nat_le, nat_lt};
ghost use Rattle.format.specs.Limits.{max_count};
ghost use Rattle.packings.specs.declared.Order.{Order};
ghost use Rattle.packings.specs.Packings.{packing_of};
ghost use Rattle.scaled_values.specs.Slots.{Stands, slot_number};
ghost use Rattle.values.specs.Edition.{edition_of, order_of};

use packings::Order;
use scaled_values::Slot;
use values::Edition;

// Whether the eight bytes from `at` on are there, and hold w bits after up to seven others.
fn by_eight(w: usize, at: usize, n: usize) -> bool
    requires { at < 1099511627776 }
    ensures { result ≡ ((nat_lt 0 w && nat_le w 57) && nat_le (at + 8) n) }
{
    (0 < w) & (w <= 57) & (at + 8 <= n)
}

// The i-th number of w bits, high bit first.
fn plain_number(s: &[u8], w: usize, i: usize) -> u64
    requires { ((packing_of Order.High).width_ok w ≡ true) × (i ≤ max_count) × (i * w + w ≤ 8 * length s.now) }
    ensures { result ≡ (packing_of Order.High).fetch s.now w i }
{
    let bit = i * w;
    let at = bit >> 3;
    if by_eight(w, at, s.len()) {
        return packing::middle(packing::eight_at(s, at), bit & 7, w);
    }
    packings::fetch(s, Order::High, w, i).number
}

// The number in a slot, of a column of edition 1,
pub fn plain_in(section: &[u8], slot: Option<Slot>) -> u64
    requires { Stands Order.High section.now slot }
    ensures { result ≡ slot_number Order.High section.now slot }
{
    let Some(at) = slot else {
        return 0;
    };
    let start = at.start;
    plain_number(&section[start..], at.width, at.index)
}

// and of any.
pub fn number_of(section: &[u8], edition: Edition, slot: Option<Slot>) -> u64
    requires { Stands (order_of (edition_of edition)) section.now slot }
    ensures { result ≡ slot_number (order_of (edition_of edition)) section.now slot }
{
    let Edition::Plain = edition else {
        return values::number_in(section, edition, slot);
    };
    plain_in(section, slot)
}
