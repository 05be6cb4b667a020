// Writing a set on disk (document 02, [14]): refusals 3, 4 and 6, the number of blocks, and the blocks.
#![tactic(auto)]

ghost use Rattle.std.specs.Prelude.{◌≡◌, ◌+◌, ◌*◌, ◌≤◌, length};
ghost use Rattle.std.proofs.lemmas.List.Edits.{sets};
ghost use Rattle.format.specs.Limits.{block_places, max_blocks};
ghost use Rattle.format.specs.Bytes.{low, bytes_of, count_from};
ghost use Rattle.format.specs.Ids.{runs};
ghost use Rattle.format.specs.Runs.{Fine};
ghost use Rattle.format.specs.Writer.{write_reply, write_out};
ghost use Rattle.format.specs.SetBytes.{missing, set_data, set_block, set_bytes, set_write};
ghost use Rattle.answers.specs.Replies.{reply_of};
ghost use Rattle.block_writer.specs.Part.{places_from, run_of, From};
ghost use Rattle.section_writer.specs.Good.{Good};
ghost use Rattle.set_blocks.specs.Kinds.{kind_number};
ghost use Rattle.set_writer.specs.Head.{list_long, head_bytes, HeadOf};

use answers::Refusal;
use blocks::Block;
use section_writer::Runs;
use set_blocks::SetKind;

// ---- a block's data

// Puts n shorts, x and on.
fn put_span(out: &mut [u8], at: usize, x: usize, n: usize)
    requires { (at + 2 * n ≤ length out.old) × (x + n ≤ block_places) }
    ensures { out.new ≡ sets out.old at (bytes_of (low 2) (count_from n x)) }
{
    for i in 0..n {
        numbers::put_short(out, at + 2 * i, numbers::long(x + i));
    }
}

// Puts the missing places: the spans between the places.
fn put_missing(part: &[u32], out: &mut [u8], at: usize)
    requires { (From part.now 0 0) × (at + 2 * length (missing block_places 0 (places_from part.now 0)) ≤ length out.old) }
    ensures { out.new ≡ sets out.old at (bytes_of (low 2) (missing block_places 0 (places_from part.now 0))) }
{
    let mut x: usize = 0;
    let mut i = at;
    for id in part {
        let y = blocks::place_of(*id);
        let n = y - x;
        put_span(out, i, x, n);
        i += 2 * n;
        x = y + 1;
    }
    let n = Block::PLACES - x;
    put_span(out, i, x, n);
}

fn put_data(part: &[u32], out: &mut [u8], at: usize, kind: SetKind)
    requires { (From part.now 0 0)
        × (at + length (set_data (kind_number kind) (places_from part.now 0)) ≤ length out.old) }
    ensures { out.new ≡ sets out.old at (set_data (kind_number kind) (places_from part.now 0)) }
{
    match kind {
        SetKind::Listed => block_writer::put_sparse(part, out, at),
        SetKind::Missing => put_missing(part, out, at),
        SetKind::Bitmap => block_writer::put_dense(part, 0, out, at),
    }
}

// ---- a block

// A block's number, its kind and the length of its list.
#[derive(Clone, Copy, Debug, PartialEq, Eq)]
struct Head {
    block: u64,
    kind: SetKind,
    long: usize,
}

// The length of the list of a block of n ids.
fn list_len(kind: SetKind, n: usize) -> usize
    requires { n ≤ block_places }
    ensures { result ≡ list_long (kind_number kind) n }
{
    match kind {
        SetKind::Listed => n,
        SetKind::Missing => Block::PLACES - n,
        SetKind::Bitmap => 0,
    }
}

// The three numbers of the block that the ids of one block make.
fn head_of(part: &[u32]) -> Head
    requires { Fine (run_of part.now) }
    ensures { HeadOf part.now result }
{
    let n = part.len();
    let block = blocks::number_of(part[0]);
    let kind = set_blocks::kind_of(numbers::long(n));
    Head {
        block: numbers::long(block),
        kind,
        long: list_len(kind, n),
    }
}

// Puts the three numbers, and returns the place after them.
fn put_head(out: &mut [u8], at: usize, h: Head) -> usize
    requires { at + length (head_bytes h) ≤ length out.old }
    ensures { (out.new ≡ sets out.old at (head_bytes h)) × (result ≡ at + length (head_bytes h)) }
{
    let a = header_numbers::put_number(out, at, h.block);
    let b = header_numbers::put_number(out, a, h.kind.number());
    header_numbers::put_number(out, b, numbers::long(h.long))
}

// Puts the block that the ids of one block make.
fn put_block(part: &[u32], out: &mut [u8], at: usize)
    requires { (Fine (run_of part.now)) × (at + length (set_block (run_of part.now)) ≤ length out.old) }
    ensures { out.new ≡ sets out.old at (set_block (run_of part.now)) }
{
    let h = head_of(part);
    let start = put_head(out, at, h);
    put_data(part, out, start, h.kind);
}

// Its bytes.
fn block_len(part: &[u32]) -> usize
    requires { Fine (run_of part.now) }
    ensures { (result ≡ length (set_block (run_of part.now))) × (result ≤ 8222) }
{
    let h = head_of(part);
    let d = set_blocks::data_bytes(h.kind, h.long);
    let first = header_numbers::number_len(h.block);
    let second = header_numbers::number_len(h.kind.number());
    let third = header_numbers::number_len(numbers::long(h.long));
    first + second + third + d
}

// ---- the blocks

fn put_blocks(ids: &[u32], out: &mut [u8], at: usize)
    requires { (Good ids.now) × (at + length (bytes_of set_block (runs ids.now)) ≤ length out.old) }
    ensures { out.new ≡ sets out.old at (bytes_of set_block (runs ids.now)) }
{
    let mut pos = at;
    for run in (Runs { rest: ids }) {
        put_block(run, out, pos);
        pos += block_len(run);
    }
}

// How many blocks there are, and their bytes.
#[derive(Clone, Copy, Debug, PartialEq, Eq)]
struct Sizes {
    blocks: u64,
    bytes: usize,
}

fn plan(ids: &[u32]) -> Sizes
    requires { Good ids.now }
    ensures { (result.blocks ≡ length (runs ids.now)) × (result.bytes ≡ length (bytes_of set_block (runs ids.now)))
        × (result.blocks ≤ max_blocks) × (result.bytes ≤ 269402052) }
{
    let mut blocks: u64 = 0;
    let mut bytes: usize = 0;
    for run in (Runs { rest: ids }) {
        bytes += block_len(run);
        blocks += 1;
    }
    Sizes { blocks, bytes }
}

// Puts the number of blocks and the blocks.
fn put_set(ids: &[u32], out: &mut [u8], blocks: u64)
    requires { (Good ids.now) × (blocks ≡ length (runs ids.now)) × (length (set_bytes ids.now) ≤ length out.old) }
    ensures { out.new ≡ sets out.old 0 (set_bytes ids.now) }
{
    let at = header_numbers::put_number(out, 0, blocks);
    put_blocks(ids, out, at);
}

// Refusals 3, 4 and 6 in order, each over the whole input before the next. Success hands back the byte count.
pub fn write(ids: &[u32], out: &mut [u8]) -> Result<u64, Refusal>
    ensures replies { reply_of result ≡ write_reply (set_write ids.now (length out.old)) }
    ensures written { out.new ≡ write_out (set_write ids.now (length out.old)) out.old }
{
    if let Some(i) = writer::order_fault(ids) {
        return Err(Refusal::Order(numbers::long(i)));
    }
    if let Some(i) = writer::range_fault(ids) {
        return Err(Refusal::Range(numbers::long(i)));
    }
    let sizes = plan(ids);
    let total = header_numbers::number_len(sizes.blocks) + sizes.bytes;
    if total > out.len() {
        return Err(Refusal::Room(numbers::long(total)));
    }
    put_set(ids, out, sizes.blocks);
    Ok(numbers::long(total))
}
