// The values are taken part by part: some one by one, then as many as change nothing.
ghost use Rattle.std.specs.Prelude.{◌≡◌, ℕ, ◌+◌, ◌<◌, ◌≤◌, true};
ghost use Rattle.scaling.specs.Passed.{Passed};

// So many values are asked at once, without a branch, whether they change anything; where some do, or might, the next are taken one by one.
pub const AT_ONCE: usize = 128;

pub const ONE_BY_ONE: usize = 1024;

// A number that is at least a and at least b.
pub fn joined(a: u64, b: u64) -> u64
    ensures { (a ≤ result) × (b ≤ result) }
{
    a | b
}

// The place after the next `step` of n, or after all that are left.
pub fn part_end(n: usize, i: usize, step: usize) -> usize
    requires { (i < n) × (0 < step) }
    ensures { (i < result) × (result ≤ n) }
{
    i + step.min(n - i)
}

// The place after the parts of `step` places each, from `from` on, that `kept` holds of: it is asked of each part's first place, up to the first
// that it does not hold of, or that n cuts short.
pub fn passed<F: Fn(usize) -> bool>(from: usize, n: usize, step: usize, kept: F) -> usize
    requires { (0 < step) × (from ≤ n) × ((i : ℕ) → from ≤ i → i + step ≤ n → F.pre kept i) }
    ensures { (from ≤ result) × (result ≤ n) × Passed (λ i. F.post kept i true) step from result }
{
    let mut i = from;
    while step <= n - i && kept(i) {
        i += step;
    }
    i
}
