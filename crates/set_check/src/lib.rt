// The check of a set on disk, and membership in it (document 02, [14]): one pass over the blocks tallies the ids, those below the id asked
// for, and whether it is there. Its time goes by the bytes: the ids of a bitmap, or those that are not missing, are not gone through.
#![tactic(auto)]

ghost use Rattle.std.specs.Prelude.{◌≡◌, not, ◌+◌, ◌*◌, ◌/◌, ◌%◌, ◌^◌, ◌≤◌, ◌<◌, eqb, length, drop};
ghost use Rattle.std.specs.Int.Count.{ones_in};
ghost use Rattle.format.specs.Limits.{max_count, block_places, bitmap_bytes, max_blocks};
ghost use Rattle.format.specs.Bytes.{low_at};
ghost use Rattle.format.specs.IdsRead.{shorts};
ghost use Rattle.format.specs.LookUp.{ones_from};
ghost use Rattle.format.specs.SetCalls.{set_check, set_find};
ghost use Rattle.answers.specs.Replies.{reply_of, member_of};
ghost use Rattle.set_blocks.specs.Found.{places_of};
ghost use Rattle.set_check.specs.Tally.{Sound, Full, Placed, Added, walked_of, walked_from, nothing, tallied};

use answers::Refusal;
use set_blocks::{SetBlock, SetKind};

// How many of a block's places are below the one asked for, and whether it is there. (No option: both are told of each block.)
#[derive(Clone, Copy, Debug, PartialEq, Eq)]
struct Place {
    below: u64,
    there: bool,
}

// ---- one block

// Among c shorts. The loop has no branch.
fn list_place(s: &[u8], at: usize, c: usize, r: u64) -> Place
    requires { at + 2 * c ≤ length s.now }
    ensures { Placed r (shorts c (drop at s.now)) result × (result.below ≤ c) }
{
    let mut below: u64 = 0;
    let mut there = false;
    for i in 0..c {
        let x = numbers::short_at(s, at + 2 * i);
        below += u64::from(x < r);
        there |= x == r;
    }
    Place { below, there }
}

// Among the places whose bit is set in a bitmap.
fn bits_place(s: &[u8], at: usize, r: usize) -> Place
    requires { (at + bitmap_bytes ≤ length s.now) × (r < block_places) }
    ensures { (result.below ≡ ones_from s.now at (r / 64) 0 + ones_in 64 (low_at 8 s.now (at + 8 * (r / 64)) % 2 ^ (r % 64)))
        × (result.there ≡ not (eqb (low_at 8 s.now (at + 8 * (r / 64)) / 2 ^ (r % 64) % 2) 0)) × (result.below ≤ block_places + 64) }
{
    let k = r / 64;
    let b = r % 64;
    let long = numbers::long_at(s, at + 8 * k);
    let there = in_block::bit_of(long, b) != 0;
    let before = blocks::ones_from(s, at, k, 0);
    let under = in_block::ones_under(long, b);
    Place {
        below: before + under,
        there,
    }
}

// Among the places of a block.
fn place_in(s: &[u8], block: SetBlock, r: usize) -> Place
    requires { (Sound s.now block) × (r < block_places) }
    ensures { Placed r (places_of s.now block) result × (result.below ≤ block_places + 64) }
{
    let at = block.start;
    let x = numbers::long(r);
    match block.kind {
        SetKind::Listed => list_place(s, at, block.long, x),
        SetKind::Missing => {
            let p = list_place(s, at, block.long, x);
            Place {
                below: x - p.below,
                there: !p.there,
            }
        }
        SetKind::Bitmap => bits_place(s, at, r),
    }
}

// ---- the pass over the blocks

// The ids so far, those of them below the id asked for, and whether it is among them. (No option, as in `Place`.)
#[derive(Clone, Copy, Debug, PartialEq, Eq)]
struct Tally {
    count: u64,
    below: u64,
    there: bool,
}

// The tally with one block more.
fn add_block(s: &[u8], block: SetBlock, id: u32, t: Tally) -> Tally
    requires { (Sound s.now block) × (Full s.now block) × (t.below ≤ t.count) × (t.count ≤ max_count) }
    ensures { Added s.now block id t result }
{
    let home = numbers::long(blocks::number_of(id));
    let count = t.count + block.count;
    let there = t.there;
    let number = block.block;
    if number < home {
        return Tally {
            count,
            below: t.below + block.count,
            there,
        };
    }
    if home < number {
        return Tally {
            count,
            below: t.below,
            there,
        };
    }
    let p = place_in(s, block, blocks::place_of(id));
    Tally {
        count,
        below: t.below + p.below,
        there: there | p.there,
    }
}

// The blocks, so many of them from a place on.
fn walk_blocks(s: &[u8], from: usize, blocks: u64, id: u32) -> Result<Tally, Refusal>
    requires { blocks ≤ max_blocks }
    ensures { walked_of result ≡ walked_from s.now id blocks 0 from nothing }
{
    let n = s.len();
    let mut left = blocks;
    let mut at = from;
    let mut least: u64 = 0;
    let mut t = Tally {
        count: 0,
        below: 0,
        there: false,
    };
    while left > 0 {
        let block = set_blocks::block_from(s, at, least)?;
        t = add_block(s, block, id, t);
        at = block.start + set_blocks::data_bytes(block.kind, block.long);
        least = block.block + 1;
        left -= 1;
    }
    if at != n {
        return Err(Refusal::Damaged);
    }
    Ok(t)
}

// The whole: the number of blocks, then the blocks.
fn walk(s: &[u8], id: u32) -> Result<Tally, Refusal>
    ensures { walked_of result ≡ tallied s.now id }
{
    let number = column::number_at(s, 0)?;
    if number.value > limits::MAX_BLOCKS {
        return Err(Refusal::Damaged);
    }
    walk_blocks(s, number.next, number.value, id)
}

// ---- the calls

// Refusals 7, 8 and 13 by the first fault in byte order; success hands back the number of ids.
pub fn check(s: &[u8]) -> Result<u64, Refusal>
    ensures { reply_of result ≡ set_check s.now }
{
    let t = walk(s, 0)?;
    Ok(t.count)
}

// Membership: refusal 14, then as the check; found with its ordinal, or absent.
pub fn find(s: &[u8], id: u32) -> Result<Option<u64>, Refusal>
    ensures { member_of result ≡ set_find s.now id }
{
    if !column::id_ok(id) {
        return Err(Refusal::Id);
    }
    let t = walk(s, id)?;
    Ok(t.there.then_some(t.below))
}
