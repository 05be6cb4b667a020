// The pairs of a sparse block: one pass over its entries.
ghost use Rattle.std.specs.Prelude.{◌≡◌, ◌+◌, ◌-◌, ◌*◌, ◌≤◌, ◌<◌, length};
ghost use Rattle.std.proofs.lemmas.List.Edits.{sets};
ghost use Rattle.format.specs.Limits.{max_block, block_places};
ghost use Rattle.format.specs.Ids.{sparse, kind_of};
ghost use Rattle.column.specs.Opened.{column_of};
ghost use Rattle.format.specs.ReadFrom.{id_after};
ghost use Rattle.read_in_block.specs.Rows.{entries_from, RisesTo};
ghost use Rattle.read_in_block.specs.Stretch.{InBlock, Lent, StretchTo};

use crate::Stretch;
use blocks::Block;
use column::Column;

// How far the entries at t rise, from entry j to `end`, the first of them from r on.
fn rising(s: &[u8], t: usize, j: usize, end: usize, r: usize) -> usize
    requires { (j ≤ end) × (t + 2 * end ≤ length s.now) }
    ensures { RisesTo s.now t r j end result }
{
    let mut least = r;
    for k in j..end {
        let e = numbers::size(numbers::short_at(s, t + 2 * k));
        if e < least {
            return k;
        }
        least = e + 1;
    }
    end
}

// The ids of the entries from j on, into places `from` to `end`. Says the place after the last, or r where there is none.
fn put_entries(
    ids: &mut [u32],
    s: &[u8],
    t: usize,
    j: usize,
    b: usize,
    r: usize,
    from: usize,
    end: usize,
) -> usize
    requires { (from ≤ end) × (end ≤ length ids.old) × (t + 2 * (j + (end - from)) ≤ length s.now) × (b ≤ max_block) }
    ensures { (b * block_places + result ≡ id_after (b * block_places + r) (entries_from s.now t b j (end - from)))
        × (ids.new ≡ sets ids.old from (entries_from s.now t b j (end - from))) }
{
    let mut y = r;
    for i in from..end {
        let k = j + (i - from);
        let e = numbers::size(numbers::short_at(s, t + 2 * k));
        let id = next::id_of(b, e);
        ids[i] = id;
        y = e + 1;
    }
    y
}

// The same one by one, which is sooner where there are few.
pub fn one_by_one(
    ids: &mut [u32],
    values: &mut [i64],
    bytes: &[u8],
    column: Column,
    room: usize,
    from: usize,
    b: usize,
    block: Block,
    place: usize,
) -> Stretch
    requires { (Lent bytes.now (column_of column) room from ids.old values.old) × (InBlock bytes.now (column_of column) b block)
        × (kind_of block.count ≡ sparse) × (place < block_places) }
    ensures { StretchTo bytes.now (column_of column) room b from place ids.old values.old result ids.new
        values.new }
{
    let head = column.head;
    let start = numbers::size(column.start);
    let after = start + numbers::size(head.id_bytes);
    let s = &bytes[start..after];
    let t = block.start;
    let count = block.count;
    let mut i = from;
    let mut r = place;
    for j in 0..count {
        let e = numbers::size(numbers::short_at(s, t + 2 * j));
        if e < r {
            continue;
        }
        if i == room {
            return Stretch {
                count: i,
                place: r,
                broken: false,
                left: true,
            };
        }
        let Some(value) = next::value_at(bytes, column, block.ordinal + numbers::long(j)) else {
            return Stretch {
                count: i,
                place: r,
                broken: true,
                left: false,
            };
        };
        let id = next::id_of(b, e);
        ids[i] = id;
        values[i] = value;
        i += 1;
        r = e + 1;
    }
    Stretch {
        count: i,
        place: Block::PLACES,
        broken: false,
        left: false,
    }
}

// Entries that rise are taken together. One below the place is passed over: what comes next is the first entry from the place on, in
// whatever order entries stand.
pub fn pairs(
    ids: &mut [u32],
    values: &mut [i64],
    bytes: &[u8],
    column: Column,
    room: usize,
    from: usize,
    b: usize,
    block: Block,
    place: usize,
) -> Stretch
    requires { (Lent bytes.now (column_of column) room from ids.old values.old) × (InBlock bytes.now (column_of column) b block)
        × (kind_of block.count ≡ sparse) × (place < block_places) }
    ensures { StretchTo bytes.now (column_of column) room b from place ids.old values.old result ids.new
        values.new }
{
    let head = column.head;
    let start = numbers::size(column.start);
    let after = start + numbers::size(head.id_bytes);
    let s = &bytes[start..after];
    let t = block.start;
    let count = block.count;
    let ordinal = block.ordinal;
    let mut j = next_in_block::first_entry(s, t, count, place as u16);
    let mut i = from;
    let mut r = place;
    // No range: a turn goes on by a run of entries.
    while j < count {
        if i == room {
            let e = numbers::size(numbers::short_at(s, t + 2 * j));
            return Stretch {
                count: i,
                place: r,
                broken: false,
                left: r <= e,
            };
        }
        let k = rising(s, t, j, j + (count - j).min(room - i), r);
        if k == j {
            j += 1;
            continue;
        }
        let end = i + (k - j);
        let x = ordinal + numbers::long(j);
        let n = crate::draw(values, bytes, column, x, i, end);
        let y = put_entries(ids, s, t, j, b, r, i, n);
        if n < end {
            return Stretch {
                count: n,
                place: y,
                broken: true,
                left: false,
            };
        }
        i = n;
        j = k;
        r = y;
    }
    Stretch {
        count: i,
        place: Block::PLACES,
        broken: false,
        left: false,
    }
}
