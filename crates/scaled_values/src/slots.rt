// Where the number stored for an ordinal stands in a section, and what it stands for: step 7 (document 01) of every edition, in calls that are
// compiled into the look-up, the next candidate and the page.
ghost use Rattle.std.specs.Prelude.{◌≡◌, ◌<◌, ◌^◌};
ghost use Rattle.answers.specs.Replies.{fetched_of};
ghost use Rattle.scaled_values.specs.Slots.{whole_slot, Stands, slot_number, slot_value};

use packings::Order;

// Number `index` of `width` bits, from a byte of the section on; its value stands above `low`, which is biased.
#[derive(Clone, Copy, Debug, PartialEq, Eq)]
pub struct Slot {
    pub start: usize,
    pub width: usize,
    pub index: usize,
    pub low: u64,
}

// Of ordinal i, where all values have one smallest value and width.
pub fn whole(width: u64, smallest: u64, i: u64) -> Option<Slot>
    ensures { (result ≡ whole_slot width smallest i) × (smallest < 2 ^ 64) }
{
    Some(Slot {
        start: 0,
        width: width as usize,
        index: i as usize,
        low: signed::biased_of(smallest),
    })
}

// The number that stands there.
pub fn number_in(section: &[u8], order: Order, slot: Option<Slot>) -> u64
    requires { Stands order section.now slot }
    ensures { result ≡ slot_number order section.now slot }
{
    let Some(at) = slot else {
        return 0;
    };
    let start = at.start;
    packings::fetch(&section[start..], order, at.width, at.index).number
}

// And its value, which must fit in 64 bits.
pub fn value_of(divisor: u64, slot: Option<Slot>, stored: u64) -> Option<i64>
    requires { 0 < divisor }
    ensures { fetched_of result ≡ slot_value divisor slot stored }
{
    let Some(at) = slot else {
        return None;
    };
    scaling::value_above(at.low, divisor, stored)
}
