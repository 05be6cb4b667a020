// The values of edition 3 (document 02, [11]): runs of 16384 values, each with a summary in the directory that opens the section. Here they
// are read; `run_writer` writes them.
#![tactic(auto)]

ghost use Rattle.std.specs.Prelude.{◌≡◌, cond, ℕ, ◌+◌, ◌-◌, ◌*◌, ◌/◌, ◌%◌, ◌^◌, ◌≤◌, ◌<◌, min, eqb, length, drop};
ghost use Rattle.format.specs.Limits.{max_count};
ghost use Rattle.format.specs.ValueRuns.{run_length, run_count, directory_length, summary_at, in_run};
ghost use Rattle.format.specs.Editions.{runs, codec};
ghost use Rattle.answers.specs.Replies.{fields_of};
ghost use Rattle.run_values.specs.Summaries.{summary_is, SlotIs, reaches_in};

use answers::Fields;
use scaled_values::Slot;

// The values of a run.
pub const RUN: u64 = 16384;

// What the directory says of a run; smallest and greatest value are biased, and the start is a byte after the directory.
#[derive(Clone, Copy, Debug, PartialEq, Eq)]
pub struct Summary {
    pub smallest: u64,
    pub greatest: u64,
    pub start: u64,
    pub width: u64,
}

// How many runs n values make. No sum wraps.
pub fn run_count(n: u64) -> u64
    ensures { result ≡ run_count n }
{
    n / RUN + (n % RUN + 16383) / RUN
}

// How many of the n values are in run r.
pub fn count_in(n: u64, r: u64) -> u64
    requires { run_length * r ≤ n }
    ensures { result ≡ min run_length (n - run_length * r) }
{
    let left = n - RUN * r;
    left.min(RUN)
}

// The bytes of the directory.
pub fn directory_length(n: u64) -> usize
    ensures { result ≡ directory_length n }
{
    (25 * run_count(n)) as usize
}

// Whether the fields, and v as the value section's length, keep the header rules.
pub fn rules(n: u64, fields: Fields, v: u64) -> bool
    requires { n ≤ max_count }
    ensures { result ≡ (codec runs).fields_ok n (fields_of fields) v }
{
    if fields.width != 0 {
        return false;
    }
    if fields.smallest != 0 {
        return false;
    }
    if fields.divisor < 1 {
        return false;
    }
    25 * ((n + 16383) / RUN) <= v
}

// The summary of run r.
pub fn summary_at(section: &[u8], r: usize) -> Summary
    requires { 25 * r + 25 ≤ length section.now }
    ensures { (summary_is result ≡ summary_at section.now r) × (result.width < 256) }
{
    let at = 25 * r;
    let smallest = signed::turned(numbers::long_at(section, at));
    let greatest = signed::turned(numbers::long_at(section, at + 8));
    let start = numbers::long_at(section, at + 16);
    let width = u64::from(section[at + 24]);
    Summary {
        smallest,
        greatest,
        start,
        width,
    }
}

// Whether the w bits of number k, from a start on, are within so many bytes.
pub fn reaches(room: usize, start: u64, w: usize, k: usize) -> bool
    requires { k < run_length }
    ensures { result ≡ reaches_in room start w k }
{
    if w > limits::MAX_WIDTH as usize {
        return false;
    }
    if w == 0 {
        return true;
    }
    let from = start as usize;
    if room < from {
        return false;
    }
    if room - from < (k * w + w + 7) / 8 {
        return false;
    }
    true
}

// The byte from which numbers of w bits are fetched. Width 0 fetches nothing, and its run may start anywhere.
pub fn fetched_from(from: usize, start: u64, w: usize) -> usize
    requires { (w ≡ 0 → ⊥) → from + start < 2 ^ 64 }
    ensures { result ≡ cond (eqb w 0) from (from + start) }
{
    if w == 0 {
        return from;
    }
    from + (start as usize)
}

// Step 7 in a run: where its number k stands; the directory ends at `from`.
pub fn slot_in(section: &[u8], from: usize, x: Summary, k: usize) -> Option<Slot>
    requires { (from ≤ length section.now) × (k < run_length) }
    ensures { SlotIs section.now result (λ (g : ℕ). in_run g (drop from section.now) (summary_is x) k) }
{
    let w = x.width as usize;
    if !reaches(section.len() - from, x.start, w, k) {
        return None;
    }
    Some(Slot {
        start: fetched_from(from, x.start, w),
        width: w,
        index: k,
        low: x.smallest,
    })
}

// Step 7: where the number of ordinal i, of n, stands.
pub fn slot_at(section: &[u8], n: u64, i: u64) -> Option<Slot>
    requires { (directory_length n ≤ length section.now) × (i < n) }
    ensures { SlotIs section.now result
        (λ (g : ℕ). in_run g (drop (directory_length n) section.now) (summary_at section.now (i / run_length)) (i % run_length)) }
{
    let x = summary_at(section, (i / RUN) as usize);
    slot_in(section, directory_length(n), x, (i % RUN) as usize)
}
