// The judge of an id section in either byte order (document 02, [9]): its blocks, its end block, its jump entries. The check of a column
// asks it with the low byte first.
#![tactic(auto)]

ghost use Rattle.std.specs.Prelude.{◌≡◌, suc, ◌+◌, ◌*◌, ◌≤◌, ◌<◌, length, take, drop};
ghost use Rattle.format.specs.Refusals.{done};
ghost use Rattle.format.specs.Bytes.{same};
ghost use Rattle.format.specs.Ids.{not_two};
ghost use Rattle.format.specs.Limits.{Power, block_places, end_number, max_blocks};
ghost use Rattle.format.specs.Orders.{fixed_at, entry_in};
ghost use Rattle.format.specs.Judge.{judge_from, jumps_in, judge_entries, judge_rest, judge};
ghost use Rattle.answers.specs.Replies.{order_of};
ghost use Rattle.section_check.specs.Reasons.{reason_in, end_reason, Walked, Repeats, stand_is, walk_of, verdict_of};

use answers::{ByteOrder, Reason};
use block::{test_sparse, test_wide};
use blocks::{Block, data_bytes};
use numbers::{int_in, long, short_in, size};

mod block;

pub use block::ascending;

// Where the walk over the blocks stands: a block's start, the ids before it and the least number that it may have.
#[derive(Clone, Copy, Debug, Default, PartialEq, Eq)]
struct Stand {
    at: usize,
    count: u64,
    next: u64,
}

// The first fault, and its place in the section.
#[derive(Clone, Copy, Debug, PartialEq, Eq)]
pub struct Fault {
    pub reason: Reason,
    pub at: usize,
}

// A block numbered 32767 is the end block.
fn test_end(s: &[u8], order: ByteOrder, at: usize) -> Result<(), Reason>
    requires { (at + 4 ≤ length s.now) × (fixed_at (order_of order) 2 s.now at ≡ end_number) }
    ensures { reason_in result ≡ end_reason (order_of order) s.now at }
{
    if s.len() - at < 6 {
        return Err(Reason::CutOff);
    }
    if short_in(order, s, at + 2) != 0 {
        return Err(Reason::EndWrong);
    }
    if short_in(order, s, at + 4) != 65535 {
        return Err(Reason::EndWrong);
    }
    Ok(())
}

// Goes over sparse blocks, up to one of another kind or the end block.
fn sparse_blocks(s: &[u8], order: ByteOrder, p: usize, from: Stand) -> Result<Stand, Fault>
    requires { (Power p) × (from.at ≤ length s.now) × (from.count ≤ block_places * from.next) × (from.next ≤ max_blocks) }
    ensures { Walked (order_of order) p s.now from result }
{
    let mut here = from;
    while s.len() - here.at >= 4 {
        let k = short_in(order, s, here.at);
        if k == Block::END {
            return Ok(here);
        }
        let c = short_in(order, s, here.at + 2) + 1;
        let n = size(c);
        if n >= Block::DENSE_COUNT {
            return Ok(here);
        }
        if let Err(reason) = test_sparse(s, order, here.at, here.next, k, n, p) {
            return Err(Fault {
                reason,
                at: here.at,
            });
        }
        here = Stand {
            at: here.at + 4 + data_bytes(p, n),
            count: here.count + c,
            next: k + 1,
        };
    }
    Err(Fault {
        reason: Reason::CutOff,
        at: here.at,
    })
}

// The blocks, one after the other, up to the end block. Sparse ones have a loop of their own: in one loop with the dense ones they wait for
// its registers.
fn judge_blocks(s: &[u8], order: ByteOrder, p: usize) -> Result<Stand, Fault>
    requires { Power p }
    ensures { walk_of result ≡ judge_from (suc (length s.now)) (order_of order) p s.now 0 0 0 }
{
    let mut here = Stand::default();
    while s.len() - here.at >= 4 {
        let w = sparse_blocks(s, order, p, here)?;
        let k = short_in(order, s, w.at);
        if k == Block::END {
            if let Err(reason) = test_end(s, order, w.at) {
                return Err(Fault { reason, at: w.at });
            }
            return Ok(w);
        }
        let c = short_in(order, s, w.at + 2) + 1;
        let n = size(c);
        if let Err(reason) = test_wide(s, w.at, w.next, k, n, p) {
            return Err(Fault { reason, at: w.at });
        }
        here = Stand {
            at: w.at + 4 + data_bytes(p, n),
            count: w.count + c,
            next: k + 1,
        };
    }
    Err(Fault {
        reason: Reason::CutOff,
        at: here.at,
    })
}

fn entry_is(s: &[u8], order: ByteOrder, b: usize, o: u64, at: u64) -> bool
    requires { (o < 4294967296) × (at < 4294967296) }
    ensures { result ≡ same (take 8 (drop b s.now)) (entry_in (order_of order) (o, at)) }
{
    if s.len() < 8 {
        return false;
    }
    if b > s.len() - 8 {
        return false;
    }
    if int_in(order, s, b) != o {
        return false;
    }
    int_in(order, s, b + 4) == at
}

// How many of n entries at a place are (o, at), before the first that is not.
fn repeated(s: &[u8], order: ByteOrder, from: usize, n: usize, o: u64, at: u64) -> usize
    requires { (o < 4294967296) × (at < 4294967296) × (from < 4294967296) × (n ≤ 32768) }
    ensures { (result ≤ n) × (Repeats (order_of order) s.now from n o at result) }
{
    for i in 0..n {
        if !entry_is(s, order, from + 8 * i, o, at) {
            return i;
        }
    }
    n
}

// The entries of the blocks, which were judged already.
fn judge_entries(s: &[u8], order: ByteOrder, p: usize, end: Stand) -> Result<usize, Fault>
    requires { (Power p) × (judge_from (suc (length s.now)) (order_of order) p s.now 0 0 0 ≡ done (stand_is end)) }
    ensures { verdict_of result ≡ judge_entries (order_of order) (jumps_in (order_of order) p s.now) s.now (end.at + 6) }
{
    let base = end.at + 6;
    let mut at: usize = 0;
    let mut o: u64 = 0;
    let mut i: usize = 0;
    while at < end.at {
        let k = size(short_in(order, s, at));
        let c = short_in(order, s, at + 2) + 1;
        let n = k + 1 - i;
        let from = base + 8 * i;
        let r = repeated(s, order, from, n, o, long(at));
        if r < n {
            return Err(Fault {
                reason: Reason::JumpWrong,
                at: from + 8 * r,
            });
        }
        at = at + 4 + data_bytes(p, size(c));
        o += c;
        i = k + 1;
    }
    let last = base + 8 * i;
    if !entry_is(s, order, last, o, long(at)) {
        return Err(Fault {
            reason: Reason::JumpWrong,
            at: last,
        });
    }
    Ok(last + 8)
}

// What follows the end block.
fn judge_rest(s: &[u8], order: ByteOrder, p: usize, j: usize, end: Stand) -> Result<u64, Fault>
    requires { (Power p) × (judge_from (suc (length s.now)) (order_of order) p s.now 0 0 0 ≡ done (stand_is end)) }
    ensures { verdict_of result
        ≡ judge_rest (order_of order) (not_two (jumps_in (order_of order) p s.now)) j s.now (stand_is end) }
{
    let base = end.at + 6;
    let n = size(end.next) + 1;
    if n == 2 {
        if j != 0 {
            return Err(Fault {
                reason: Reason::JumpWrong,
                at: base,
            });
        }
        if base != s.len() {
            return Err(Fault {
                reason: Reason::LeftOver,
                at: base,
            });
        }
        return Ok(end.count);
    }
    if j != n {
        return Err(Fault {
            reason: Reason::JumpWrong,
            at: base,
        });
    }
    let after = judge_entries(s, order, p, end)?;
    if after != s.len() {
        return Err(Fault {
            reason: Reason::LeftOver,
            at: after,
        });
    }
    Ok(end.count)
}

// An id section of j jump entries, at an allowed power: the number of ids, or the first fault.
pub fn judge(s: &[u8], order: ByteOrder, p: usize, j: usize) -> Result<u64, Fault>
    requires { Power p }
    ensures { verdict_of result ≡ judge (order_of order) p j s.now }
{
    let end = judge_blocks(s, order, p)?;
    judge_rest(s, order, p, j, end)
}
