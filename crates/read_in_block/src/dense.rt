// The pairs of a dense block: one pass over its longs.
ghost use Rattle.std.specs.Prelude.{◌≡◌, true, false, ◌+◌, ◌-◌, ◌*◌, ◌/◌, ◌%◌, ◌^◌, ◌≤◌, ◌<◌, length, take};
ghost use Rattle.std.proofs.lemmas.List.Edits.{sets};
ghost use Rattle.std.specs.Int.Count.{ones_in};
ghost use Rattle.format.specs.Limits.{Power, max_count, max_block, block_places, bitmap_bytes, bitmap_longs};
ghost use Rattle.format.specs.Bytes.{low_at};
ghost use Rattle.format.specs.Ids.{dense, kind_of, rank_bytes};
ghost use Rattle.format.specs.Opening.{id_part};
ghost use Rattle.column.specs.Opened.{column_of};
ghost use Rattle.format.specs.ReadFrom.{id_after};
ghost use Rattle.next_in_block.specs.First.{inner_in};
ghost use Rattle.read_in_block.specs.Rows.{bits_from, BitsIn, longs_from};
ghost use Rattle.read_in_block.specs.Stretch.{InBlock, InLong, LongTo, LongsTo, WholeTo, Lent, StretchTo, before_long, long_at};

use crate::Stretch;
use blocks::Block;
use column::Column;

// With room for fewer pairs than that, longs are read one by one.
const FEW: usize = 64;

// The ids before the long after long k, of which there are `before` by long k: at the start of a stride its rank says so.
fn before_next(s: &[u8], t: usize, p: usize, k: usize, before: u64) -> u64
    requires { (Power p) × (k < bitmap_longs) × (t + rank_bytes p + bitmap_bytes ≤ length s.now)
        × (before ≡ before_long p s.now t k + ones_in 64 (long_at p s.now t k)) }
    ensures { k + 1 < bitmap_longs → result ≡ before_long p s.now t (k + 1) }
{
    let r = 64 * (k + 1);
    if r == Block::PLACES {
        return before;
    }
    if in_block::stride_long(p, r) == k + 1 {
        return in_block::stride_rank(s, t, p, r);
    }
    before
}

// The ids of the first bits of `rest`, which has those from place r on, into places `from` to `end`. Says the place after the last, or r where
// there is none.
fn put_bits(ids: &mut [u32], b: usize, r: usize, rest: u64, from: usize, end: usize) -> usize
    requires { (from ≤ end) × (end ≤ length ids.old) × (b ≤ max_block) × (r ≤ block_places) × (BitsIn r rest (end - from)) }
    ensures { (b * block_places + result ≡ id_after (b * block_places + r) (bits_from b r rest (end - from)))
        × (ids.new ≡ sets ids.old from (bits_from b r rest (end - from))) }
{
    let mut bits = rest;
    let mut y = r;
    for i in from..end {
        let z = next_in_block::zeros_below(bits);
        let id = next::id_of(b, y + z);
        ids[i] = id;
        bits = next_in_block::bits_above(bits, z);
        y = y + z + 1;
    }
    y
}

// The pairs of one long, of which `rest` has the bits from place r on and `inner` is the index of the first: as many values as it has ones (no
// index reaches the count), and as many ids as values came.
fn in_long(
    ids: &mut [u32],
    values: &mut [i64],
    bytes: &[u8],
    column: Column,
    room: usize,
    from: usize,
    b: usize,
    block: Block,
    r: usize,
    rest: u64,
    inner: u64,
) -> Stretch
    requires { (Lent bytes.now (column_of column) room from ids.old values.old) × (InBlock bytes.now (column_of column) b block)
        × (kind_of block.count ≡ dense)
        × (InLong column.head.power (id_part bytes.now (column_of column)) block.start (r / 64) r rest inner) }
    ensures { LongTo bytes.now (column_of column) room b block from r inner ids.old values.old result ids.new
        values.new }
{
    let want = numbers::size(blocks::ones_of(rest)).min(room - from);
    let count = numbers::long(block.count);
    if count <= inner {
        return Stretch {
            count: from,
            place: r,
            broken: 0 < want,
            left: false,
        };
    }
    let end = from + want.min(numbers::size(count - inner));
    let x = block.ordinal + inner;
    let n = crate::draw(values, bytes, column, x, from, end);
    let place = put_bits(ids, b, r, rest, from, n);
    Stretch {
        count: n,
        place,
        broken: n < from + want,
        left: false,
    }
}

// ---- whole longs

// Longs whose ids follow each other: how many ids, and the place after them.
#[derive(Clone, Copy, Debug, PartialEq, Eq)]
struct Longs {
    ones: usize,
    place: usize,
}

// The longs from place r on, whose index is `rank`, as long as their ids follow each other and are at most so many.
fn longs_from(s: &[u8], t: usize, p: usize, r: usize, rank: u64, most: usize) -> Longs
    requires { (Power p) × (r < block_places) × (t + rank_bytes p + bitmap_bytes ≤ length s.now) × (rank ≡ inner_in p s.now t r)
        × (rank + most ≤ max_count) }
    ensures { LongsTo p s.now t r rank most result }
{
    let m = t + blocks::rank_bytes(p);
    let mut y = r;
    let mut ones: usize = 0;
    while y < Block::PLACES {
        let k = y / 64;
        let rest = numbers::long_at(s, m + 8 * k) >> (y % 64);
        let more = numbers::size(blocks::ones_of(rest));
        if most - ones < more {
            return Longs { ones, place: y };
        }
        ones += more;
        let after = rank + numbers::long(ones);
        y = 64 * k + 64;
        if before_next(s, t, p, k, after) != after {
            return Longs { ones, place: y };
        }
    }
    Longs { ones, place: y }
}

// The bits of a long from bit d on, in their places.
fn bits_from(long: u64, d: usize) -> u64
    requires { d < 64 }
    ensures { result ≡ long / 2 ^ d * 2 ^ d }
{
    (long >> d) << d
}

// The ids from place r on into places `from` to `end`. Says the place after the last, or r where there is none.
fn put_longs(
    ids: &mut [u32],
    s: &[u8],
    t: usize,
    p: usize,
    b: usize,
    r: usize,
    from: usize,
    end: usize,
) -> usize
    requires { (from ≤ end) × (end ≤ length ids.old) × (b ≤ max_block) × (Power p) × (r < block_places)
        × (t + rank_bytes p + bitmap_bytes ≤ length s.now)
        × (end - from ≤ length (longs_from s.now (t + rank_bytes p) b (bitmap_longs - r / 64) (r / 64) r)) }
    ensures { (b * block_places + result ≡ id_after (b * block_places + r)
        (take (end - from) (longs_from s.now (t + rank_bytes p) b (bitmap_longs - r / 64) (r / 64) r)))
        × (ids.new ≡ sets ids.old from
        (take (end - from) (longs_from s.now (t + rank_bytes p) b (bitmap_longs - r / 64) (r / 64) r)))
        × (result ≤ block_places) }
{
    let m = t + blocks::rank_bytes(p);
    let mut k = r / 64;
    let mut bits = bits_from(numbers::long_at(s, m + 8 * k), r % 64);
    let mut y = r;
    let mut i = from;
    // No range: a turn goes on to the next id or to the next long.
    while i < end {
        if bits == 0 {
            k += 1;
            bits = numbers::long_at(s, m + 8 * k);
            continue;
        }
        let z = 64 * k + next_in_block::zeros_below(bits);
        let id = next::id_of(b, z);
        ids[i] = id;
        bits = id_reader::without_lowest(bits);
        y = z + 1;
        i += 1;
    }
    y
}

// How many pairs the lists hold, the place that comes next, and whether a step failed there.
#[derive(Clone, Copy, Debug, PartialEq, Eq)]
struct Row {
    count: usize,
    place: usize,
    broken: bool,
}

fn none_read(count: usize, place: usize) -> Row
    ensures { (result.count ≡ count) × (result.place ≡ place) × (result.broken ≡ false) }
{
    Row {
        count,
        place,
        broken: false,
    }
}

// The pairs of whole longs from place r on: all their values, and as many ids as values came. None, where there is room for few.
fn in_longs(
    ids: &mut [u32],
    values: &mut [i64],
    bytes: &[u8],
    column: Column,
    room: usize,
    from: usize,
    b: usize,
    block: Block,
    r: usize,
) -> Row
    requires { (Lent bytes.now (column_of column) room from ids.old values.old) × (InBlock bytes.now (column_of column) b block)
        × (kind_of block.count ≡ dense) × (r < block_places) }
    ensures { WholeTo bytes.now (column_of column) room b from r ids.old values.old result ids.new
        values.new }
{
    if room - from < FEW {
        return none_read(from, r);
    }
    let head = column.head;
    let start = numbers::size(column.start);
    let after = start + numbers::size(head.id_bytes);
    let s = &bytes[start..after];
    let p = numbers::size(head.power);
    let t = block.start;
    let rank = next_in_block::index_of(s, t, p, r);
    let count = numbers::long(block.count);
    if count <= rank {
        return none_read(from, r);
    }
    let most = (room - from).min(numbers::size(count - rank));
    let longs = longs_from(s, t, p, r, rank, most);
    let end = from + longs.ones;
    let n = crate::draw(values, bytes, column, block.ordinal + rank, from, end);
    let y = put_longs(ids, s, t, p, b, r, from, n);
    if n < end {
        return Row {
            count: n,
            place: y,
            broken: true,
        };
    }
    Row {
        count: n,
        place: longs.place,
        broken: false,
    }
}

// ---- the block

// Whether the long of place r, of those at m, has a bit from there on.
fn set_from(s: &[u8], m: usize, r: usize) -> bool
    requires { (m + bitmap_bytes ≤ length s.now) × (r ≤ block_places) }
    ensures { result ≡ true → (r < block_places) × (0 < ones_in 64 (low_at 8 s.now (m + 8 * (r / 64)) / 2 ^ (r % 64)))
        × (low_at 8 s.now (m + 8 * (r / 64)) < 2 ^ 64) }
{
    if r == Block::PLACES {
        return false;
    }
    let rest = numbers::long_at(s, m + 8 * (r / 64)) >> (r % 64);
    0 < blocks::ones_of(rest)
}

// Long after long, from the place's own on; `rank` is the index of the first id from r on.
fn by_longs(
    ids: &mut [u32],
    values: &mut [i64],
    bytes: &[u8],
    column: Column,
    room: usize,
    from: usize,
    b: usize,
    block: Block,
    place: usize,
) -> Stretch
    requires { (Lent bytes.now (column_of column) room from ids.old values.old) × (InBlock bytes.now (column_of column) b block)
        × (kind_of block.count ≡ dense) × (place < block_places) }
    ensures { StretchTo bytes.now (column_of column) room b from place ids.old values.old result ids.new
        values.new }
{
    let head = column.head;
    let start = numbers::size(column.start);
    let end = start + numbers::size(head.id_bytes);
    let s = &bytes[start..end];
    let p = numbers::size(head.power);
    let t = block.start;
    let m = t + blocks::rank_bytes(p);
    let mut rank = next_in_block::index_of(s, t, p, place);
    let mut i = from;
    let mut r = place;
    while r < Block::PLACES {
        let k = r / 64;
        let rest = numbers::long_at(s, m + 8 * k) >> (r % 64);
        let part = in_long(ids, values, bytes, column, room, i, b, block, r, rest, rank);
        let y = part.place;
        if part.broken {
            return Stretch {
                count: part.count,
                place: y,
                broken: true,
                left: false,
            };
        }
        if part.count == room {
            return Stretch {
                count: part.count,
                place: y,
                broken: false,
                left: set_from(s, m, y),
            };
        }
        let before = rank + numbers::long(part.count - i);
        rank = before_next(s, t, p, k, before);
        i = part.count;
        r = 64 * k + 64;
    }
    Stretch {
        count: i,
        place: r,
        broken: false,
        left: false,
    }
}

// Whole longs together, and what is left long after long.
pub fn pairs(
    ids: &mut [u32],
    values: &mut [i64],
    bytes: &[u8],
    column: Column,
    room: usize,
    from: usize,
    b: usize,
    block: Block,
    place: usize,
) -> Stretch
    requires { (Lent bytes.now (column_of column) room from ids.old values.old) × (InBlock bytes.now (column_of column) b block)
        × (kind_of block.count ≡ dense) × (place < block_places) }
    ensures { StretchTo bytes.now (column_of column) room b from place ids.old values.old result ids.new
        values.new }
{
    let row = in_longs(ids, values, bytes, column, room, from, b, block, place);
    let r = row.place;
    if row.broken {
        return Stretch {
            count: row.count,
            place: r,
            broken: true,
            left: false,
        };
    }
    if r == Block::PLACES {
        return Stretch {
            count: row.count,
            place: r,
            broken: false,
            left: false,
        };
    }
    by_longs(ids, values, bytes, column, room, row.count, b, block, r)
}
