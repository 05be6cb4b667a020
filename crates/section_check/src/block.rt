// The tests of one block.
ghost use Rattle.std.specs.Prelude.{◌≡◌, ◌+◌, ◌*◌, ◌/◌, ◌≤◌, ◌<◌, length, drop};
ghost use Rattle.format.specs.Ids.{rank_bytes, data_bytes};
ghost use Rattle.format.specs.LookUp.{ones_from};
ghost use Rattle.format.specs.Limits.{Power, dense_count, block_places, bitmap_longs, bitmap_bytes};
ghost use Rattle.format.specs.Pairs.{asc_from};
ghost use Rattle.format.specs.Orders.{Order, numbers_in};
ghost use Rattle.format.specs.Judge.{ranks_from};
ghost use Rattle.answers.specs.Replies.{order_of};
ghost use Rattle.section_check.specs.Reasons.{reason_in, head_then, words_reason, block_reason};

use answers::{ByteOrder, Reason};
use blocks::{Block, data_bytes};
use numbers::short_in;

// The shorts ascend. The loop does not stop at one that does not, and so takes several at once.
pub fn ascending(s: &[u8], order: ByteOrder, t: usize, c: usize) -> bool
    requires { t + 2 * c ≤ length s.now }
    ensures { result ≡ asc_from 0 (numbers_in (order_of order) 2 c (drop t s.now)) }
{
    let mut right = true;
    for i in 1..c {
        let x = short_in(order, s, t + 2 * i);
        let y = short_in(order, s, t + 2 * (i - 1));
        right &= y < x;
    }
    right
}

// What one pass over a dense block's longs finds: their ones, and whether each rank entry is the ones before its stride.
#[derive(Clone, Copy, Debug, PartialEq, Eq)]
struct Words {
    ones: u64,
    right: bool,
}

// The entries are compared without a branch.
fn count_words(s: &[u8], t: usize, p: usize) -> Words
    requires { (Power p) × (t + rank_bytes p + bitmap_bytes ≤ length s.now) }
    ensures { (result.ones ≡ ones_from s.now (t + rank_bytes p) bitmap_longs 0)
        × (result.right ≡ ranks_from (rank_bytes p / 2) p s.now t (t + rank_bytes p) 0) }
{
    if p == 0 {
        let ones = blocks::ones_from(s, t, Block::LONGS, 0);
        return Words { ones, right: true };
    }
    let b = blocks::rank_bytes(p);
    let n = b / 2;
    let m = t + b;
    let w = blocks::stride(p);
    let mut right = true;
    let mut sum: u64 = 0;
    let mut first = 0;
    for j in 0..n {
        right &= numbers::rank_at(s, t + 2 * j) == sum;
        sum += blocks::stride_ones(s, m, p, first);
        first += w;
    }
    Words { ones: sum, right }
}

// ---- the tests

// A dense block's longs: ones unlike the count, then a wrong rank. Ones are the same in either byte order.
fn test_words(s: &[u8], t: usize, c: usize, p: usize) -> Result<(), Reason>
    requires { (Power p) × (dense_count ≤ c) × (c < block_places) × (t + data_bytes p c ≤ length s.now) }
    ensures { reason_in result ≡ words_reason p s.now t c }
{
    let Words { ones, right } = count_words(s, t, p);
    if numbers::size(ones) != c {
        return Err(Reason::OnesUnlike);
    }
    if !right {
        return Err(Reason::RankWrong);
    }
    Ok(())
}

// What every block is tested for first: cut off, block order.
fn test_head(s: &[u8], at: usize, next: u64, k: u64, c: usize, p: usize) -> Result<(), Reason>
    requires { (Power p) × (at + 4 ≤ length s.now) }
    ensures { reason_in result ≡ head_then p s.now at next k c 0 }
{
    if s.len() - (at + 4) < data_bytes(p, c) {
        return Err(Reason::CutOff);
    }
    if k < next {
        return Err(Reason::BlockOrder);
    }
    if k > limits::MAX_BLOCK {
        return Err(Reason::BlockOrder);
    }
    Ok(())
}

pub fn test_sparse(
    s: &[u8],
    order: ByteOrder,
    at: usize,
    next: u64,
    k: u64,
    c: usize,
    p: usize,
) -> Result<(), Reason>
    requires { (Power p) × (c < dense_count) × (at + 4 ≤ length s.now) }
    ensures { reason_in result ≡ block_reason (order_of order) p s.now at next k c }
{
    test_head(s, at, next, k, c, p)?;
    if !ascending(s, order, at + 4, c) {
        return Err(Reason::PlaceOrder);
    }
    Ok(())
}

// A dense or a full block's test, which is the same in either byte order.
pub fn test_wide(s: &[u8], at: usize, next: u64, k: u64, c: usize, p: usize) -> Result<(), Reason>
    requires { (Power p) × (dense_count ≤ c) × (at + 4 ≤ length s.now) }
    ensures { (o : Order) → reason_in result ≡ block_reason o p s.now at next k c }
{
    test_head(s, at, next, k, c, p)?;
    if c >= Block::PLACES {
        return Ok(());
    }
    test_words(s, at + 4, c, p)
}
