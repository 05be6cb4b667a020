// The pairs of one block from a place on, into lent lists: one pass over the entries of a sparse block, the longs of a dense one, or all
// places. Each pair is what the look-up's steps give for its id, in whatever order damaged entries stand and whatever ranks say.
#![tactic(auto)]

ghost use Rattle.std.specs.Prelude.{◌≡◌, true, ◌+◌, ◌-◌, ◌≤◌, ◌<◌, length};
ghost use Rattle.std.proofs.lemmas.List.Edits.{sets};
ghost use Rattle.format.specs.Limits.{block_places};
ghost use Rattle.format.specs.Opening.{head_ok, length_ok, value_of};
ghost use Rattle.format.specs.Drawn.{drawn};
ghost use Rattle.column.specs.Opened.{column_of};
ghost use Rattle.read_in_block.specs.Stretch.{InBlock, Lent, StretchTo};

use blocks::{Block, Kind};
use column::Column;

mod dense;
mod full;
mod sparse;

// In a block of fewer ids than that pairs are taken one by one.
const FEW: usize = 6;

// How many pairs the lists hold, the place of the block that comes next, and whether a step failed there. `left`: the block has an id from that place
// on, whatever its value is; else nothing is known of what comes.
#[derive(Clone, Copy, Debug, PartialEq, Eq)]
pub struct Stretch {
    pub count: usize,
    pub place: usize,
    pub broken: bool,
    pub left: bool,
}

// The values of the ordinals from x on, into places `from` to `end`, up to the first that has none. Says where it stopped.
pub fn draw(
    values: &mut [i64],
    bytes: &[u8],
    column: Column,
    x: u64,
    from: usize,
    end: usize,
) -> usize
    requires { (head_ok (column_of column).head ≡ true) × (length_ok bytes.now (column_of column) ≡ true)
        × (x + (end - from) ≤ column.head.count) × (from ≤ end) × (end ≤ length values.old) }
    ensures { (result ≡ from + length (drawn (value_of bytes.now (column_of column)) (end - from) x))
        × (values.new ≡ sets values.old from (drawn (value_of bytes.now (column_of column)) (end - from) x)) }
{
    let head = column.head;
    let after = numbers::size(column.start) + numbers::size(head.id_bytes);
    let section = &bytes[after..];
    let edition = head.edition;
    let fields = head.fields;
    values::draw(values, section, edition, head.count, fields, x, from, end)
}

// From the place on.
pub fn pairs_in(
    ids: &mut [u32],
    values: &mut [i64],
    bytes: &[u8],
    column: Column,
    room: usize,
    from: usize,
    b: usize,
    block: Block,
    place: usize,
) -> Stretch
    requires { (Lent bytes.now (column_of column) room from ids.old values.old) × (InBlock bytes.now (column_of column) b block)
        × (place < block_places) }
    ensures { StretchTo bytes.now (column_of column) room b from place ids.old values.old result ids.new
        values.new }
{
    if block.count < FEW {
        return sparse::one_by_one(ids, values, bytes, column, room, from, b, block, place);
    }
    let kind = block.kind;
    match kind {
        Kind::Sparse => sparse::pairs(ids, values, bytes, column, room, from, b, block, place),
        Kind::Dense => dense::pairs(ids, values, bytes, column, room, from, b, block, place),
        Kind::All => full::pairs(ids, values, bytes, column, room, from, b, block, place),
    }
}
