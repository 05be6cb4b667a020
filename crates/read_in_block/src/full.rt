// The pairs of a block of all places.
ghost use Rattle.std.specs.Prelude.{◌≡◌, ◌+◌, ◌-◌, ◌≤◌, ◌<◌, length};
ghost use Rattle.std.proofs.lemmas.List.Edits.{sets};
ghost use Rattle.format.specs.Limits.{max_id, block_places};
ghost use Rattle.format.specs.Ids.{all, kind_of};
ghost use Rattle.column.specs.Opened.{column_of};
ghost use Rattle.read_in_block.specs.Rows.{up_from};
ghost use Rattle.read_in_block.specs.Stretch.{InBlock, Lent, StretchTo};

use crate::Stretch;
use blocks::Block;
use column::Column;

// The ids from `id` on, into places `from` to `end`.
fn count_up(ids: &mut [u32], from: usize, end: usize, id: u32)
    requires { (from ≤ end) × (end ≤ length ids.old) × (id + (end - from) ≤ max_id + 1) }
    ensures { ids.new ≡ sets ids.old from (up_from id (end - from)) }
{
    let mut y = id;
    for i in from..end {
        ids[i] = y;
        y += 1;
    }
}

// All places.
pub fn pairs(
    ids: &mut [u32],
    values: &mut [i64],
    bytes: &[u8],
    column: Column,
    room: usize,
    from: usize,
    b: usize,
    block: Block,
    place: usize,
) -> Stretch
    requires { (Lent bytes.now (column_of column) room from ids.old values.old) × (InBlock bytes.now (column_of column) b block)
        × (kind_of block.count ≡ all) × (place < block_places) }
    ensures { StretchTo bytes.now (column_of column) room b from place ids.old values.old result ids.new
        values.new }
{
    let end = from + (room - from).min(Block::PLACES - place);
    let x = block.ordinal + numbers::long(place);
    let i = crate::draw(values, bytes, column, x, from, end);
    count_up(ids, from, i, next::id_of(b, place));
    let r = place + (i - from);
    if i < end {
        return Stretch {
            count: i,
            place: r,
            broken: true,
            left: false,
        };
    }
    Stretch {
        count: i,
        place: r,
        broken: false,
        left: r < Block::PLACES,
    }
}
