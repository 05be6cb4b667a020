// Step 5, sparse, for a page of ids: the rule of `halve`, with as many probes as the block's count tells. A probe that is equal moves neither
// end, so that those after it are the same once more. Then nothing of a search has to be guessed, and the next id's runs beside it.
ghost use Rattle.std.specs.Prelude.{◌≡◌, cond, ◌&&◌, ◌+◌, ◌*◌, ◌/◌, ◌≤◌, ◌<◌, ltb, eqb, length, drop};
ghost use Rattle.format.specs.Limits.{block_places, dense_count};
ghost use Rattle.format.specs.IdsRead.{shorts};
ghost use Rattle.format.specs.LookUp.{halved};
ghost use Rattle.in_block.specs.Place.{index_or};

use super::left;

// The entry to be probed where some are left, and the first where none are.
fn middle(lo: usize, hi: usize) -> usize
    requires { (lo < block_places) × (hi < block_places) }
    ensures { result ≡ cond (ltb lo hi) ((lo + hi) / 2) 0 }
{
    if lo < hi { (lo + hi) / 2 } else { 0 }
}

// Whether an entry is left and it is r. Both are asked at once: no branch.
fn is_there(lo: usize, hi: usize, x: u32, r: u32) -> bool
    ensures { result ≡ (ltb lo hi && eqb x r) }
{
    (lo < hi) & (x == r)
}

// The index of r among the entries of a sparse block, or `NOWHERE`. Before a probe n - 1 entries are left or n, so after the last at most one.
pub fn index_in(s: &[u8], at: usize, count: usize, r: u32) -> u64
    requires { (at + 2 * count ≤ length s.now) × (0 < count) × (count < dense_count) }
    ensures { result ≡ index_or (halved r (shorts count (drop at s.now))) }
{
    let mut lo = 0;
    let mut hi = count;
    let mut n = count + 1;
    while 1 < n {
        let m = (lo + hi) / 2;
        let x = numbers::short_at(s, at + 2 * m) as u32;
        lo = left(x, r, m + 1, lo);
        hi = left(r, x, m, hi);
        n = n / 2;
    }
    let m = middle(lo, hi);
    let x = numbers::short_at(s, at + 2 * m) as u32;
    if is_there(lo, hi, x, r) {
        return numbers::long(m);
    }
    super::NOWHERE
}
