// The last number that is at or below another, by halving what is left: of jump entries, and of ranks.
ghost use Rattle.std.specs.Prelude.{◌≡◌, ℕ, ◌<◌};
ghost use Rattle.format.specs.PairAt.{last_up_to};

// Of n numbers that `number` reads by their place.
pub fn last_up_to<F: Fn(usize) -> u64>(number: F, n: usize, x: u64) -> usize
    requires reads { (j : ℕ) → j < n → F.pre number j }
    requires few { n < 9223372036854775808 }
    ensures is_last { (f : ℕ → ℕ) → ((j : ℕ) (r : ℕ) → j < n → F.post number j r → r ≡ f j) → result ≡ last_up_to f x n }
    ensures within { 0 < n → result < n }
{
    let mut lo = 0;
    let mut hi = n;
    while 1 < hi - lo {
        let m = (lo + hi) / 2;
        if number(m) <= x {
            lo = m;
        } else {
            hi = m;
        }
    }
    lo
}
