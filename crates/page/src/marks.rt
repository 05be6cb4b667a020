// Steps 1 to 6 for the ids of a page: where each stands in the id section. They are the single look-up's, but for two things: ids of one block
// share steps 1 to 4, and a sparse block's search goes by its count (`in_block::index_in`), so that the searches of neighbours overlap.
ghost use Rattle.std.specs.Prelude.{◌≡◌, ◌+◌, ◌*◌, ◌/◌, ◌<◌, ◌≤◌, true, length, drop};
ghost use Rattle.format.specs.Limits.{Power, max_count, block_places, dense_count, bitmap_bytes};
ghost use Rattle.format.specs.Ids.{kind_of, rank_bytes, data_bytes};
ghost use Rattle.format.specs.IdsRead.{shorts};
ghost use Rattle.format.specs.Opening.{head_ok, length_ok, id_part};
ghost use Rattle.format.specs.LookUp.{halved, in_sparse, dense_at, place_at, steps};
ghost use Rattle.blocks.specs.Kinds.{kind_is};
ghost use Rattle.column.specs.Opened.{column_of};
ghost use Rattle.page.specs.Marks.{mark_of, marked, Listed, BlockIs};

use blocks::{Block, Kind};
use column::Column;
use in_block::Inner;
use lookup::Step;

// ---- steps 5 and 6

// Where an id stands: its ordinal and the words counted; not there, with the words; or a failed step. (An enum as `lookup::Step` is, for
// its reason.)
#[derive(Clone, Copy, Debug, PartialEq, Eq)]
pub enum Mark {
    At { ordinal: u64, words: u64 },
    Absent { words: u64 },
    Broken,
}

// Place r of a sparse block.
fn in_sparse(s: &[u8], block: Block, r: usize) -> Mark
    requires { (block.start + 2 * block.count ≤ length s.now) × (0 < block.count) × (block.count < dense_count) × (r < block_places)
        × (block.ordinal + block.count ≤ max_count) }
    ensures { (result ≡ mark_of block.ordinal (in_sparse (halved r (shorts block.count (drop block.start s.now)))))
        × (Listed (block.ordinal + block.count) result) }
{
    let start = block.start;
    let i = in_block::index_in(s, start, block.count, r as u32);
    if i < in_block::NOWHERE {
        return Mark::At {
            ordinal: block.ordinal + i,
            words: 0,
        };
    }
    Mark::Absent { words: 0 }
}

// Place r of a dense block.
fn in_dense(s: &[u8], block: Block, p: usize, r: usize) -> Mark
    requires { (Power p) × (r < block_places) × (block.start + rank_bytes p + bitmap_bytes ≤ length s.now)
        × (block.ordinal + block.count ≤ max_count) }
    ensures { (result ≡ mark_of block.ordinal (dense_at p s.now block.start block.count r))
        × (Listed (block.ordinal + block.count) result) }
{
    let start = block.start;
    let place = in_block::dense(s, start, p, block.count, r);
    match place {
        Inner::At { inner, words, .. } => Mark::At {
            ordinal: block.ordinal + numbers::wide32(inner),
            words,
        },
        Inner::Absent { words, .. } => Mark::Absent { words },
        Inner::Broken => Mark::Broken,
    }
}

// Place r of a block.
fn mark_in(s: &[u8], block: Block, p: usize, r: usize) -> Mark
    requires { (Power p) × (r < block_places) × (kind_is block.kind ≡ kind_of block.count) × (0 < block.count)
        × (block.start + data_bytes p block.count ≤ length s.now) × (block.ordinal + block.count ≤ max_count) }
    ensures { (result ≡ mark_of block.ordinal (place_at halved p s.now block.start block.count r))
        × (Listed (block.ordinal + block.count) result) }
{
    let kind = block.kind;
    match kind {
        Kind::Sparse => in_sparse(s, block, r),
        Kind::Dense => in_dense(s, block, p, r),
        Kind::All => Mark::At {
            ordinal: block.ordinal + numbers::long(r),
            words: 0,
        },
    }
}

// ---- steps 1 to 6

// The id section of a column that keeps the header rules and fits these bytes.
pub fn id_section(bytes: &[u8], column: Column) -> &[u8]
    requires { (head_ok (column_of column).head ≡ true) × (length_ok bytes.now (column_of column) ≡ true) }
    ensures { result.now ≡ id_part bytes.now (column_of column) }
{
    let head = column.head;
    let start = numbers::size(column.start);
    let end = start + numbers::size(head.id_bytes);
    &bytes[start..end]
}

// Steps 1 to 4 for an id, and so for each id of its block.
pub fn met_in(bytes: &[u8], column: Column, id: u32) -> Step
    requires { (head_ok (column_of column).head ≡ true) × (length_ok bytes.now (column_of column) ≡ true) }
    ensures { BlockIs bytes.now (column_of column) (id / block_places) result }
{
    lookup::block_for(id_section(bytes, column), lookup::ask_of(column, id))
}

// Where an id of this block stands.
pub fn find(bytes: &[u8], column: Column, id: u32, met: Step) -> Mark
    requires { (head_ok (column_of column).head ≡ true) × (length_ok bytes.now (column_of column) ≡ true)
        × (BlockIs bytes.now (column_of column) (id / block_places) met) }
    ensures { (marked bytes.now (column_of column) result ≡ steps halved bytes.now (column_of column) id)
        × (Listed column.head.count result) }
{
    let head = column.head;
    let power = numbers::size(head.power);
    match met {
        Step::At(block) => mark_in(
            id_section(bytes, column),
            block,
            power,
            blocks::place_of(id),
        ),
        Step::Absent => Mark::Absent { words: 0 },
        Step::Broken => Mark::Broken,
    }
}
