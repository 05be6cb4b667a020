// The first value in a range, in a section of edition 3 (document 02, [11]). Both ends of a range are biased.
#![tactic(auto)]

ghost use Rattle.std.specs.Prelude.{◌≡◌, true, cond, ℕ, ◌+◌, ◌-◌, ◌*◌, ◌/◌, ◌%◌, ◌≤◌, ◌<◌, min, length};
ghost use Rattle.std.proofs.Math.Option.{Option, none};
ghost use Rattle.format.specs.Refusals.{Outcome, done};
ghost use Rattle.format.specs.ValueRuns.{run_length, run_count, summary_at};
ghost use Rattle.format.specs.Editions.{runs, codec};
ghost use Rattle.format.specs.FirstBetween.{between, skipped, scan_from, runs_from};
ghost use Rattle.format.specs.BetweenFrom.{from_value};
ghost use Rattle.answers.specs.Replies.{fields_of};
ghost use Rattle.signed.specs.Sign.{unbiased};
ghost use Rattle.run_values.specs.Summaries.{summary_is};
ghost use Rattle.run_search.specs.Sought.{found_or};

use answers::{Fields, Refusal};
use packings::Order;
use run_values::{RUN, Summary};

// Whether a value is in the range.
fn within(low: u64, high: u64, v: i64) -> bool
    ensures { result ≡ between (unbiased low) (unbiased high) v }
{
    let b = signed::biased(v);
    if b < low {
        return false;
    }
    b <= high
}

// Whether a run is skipped unread: its smallest value is above the range, or its greatest below it.
fn passed_by(low: u64, high: u64, x: Summary) -> bool
    ensures { result ≡ skipped (unbiased low) (unbiased high) (summary_is x) }
{
    if high < x.smallest {
        return true;
    }
    x.greatest < low
}

// The values of run r in turn, from value `from` on.
fn scan_run(
    section: &[u8],
    n: u64,
    fields: Fields,
    r: u64,
    x: Summary,
    from: u64,
    low: u64,
    high: u64,
) -> Result<Option<u64>, Refusal>
    requires { ((codec runs).fields_ok n (fields_of fields) (length section.now) ≡ true) × (r < run_count n) × (summary_is x ≡ summary_at section.now r)
        × (from < run_length) }
    ensures { (more : Outcome (Option ℕ)) → found_or result more
        ≡ scan_from ((codec runs).value n (fields_of fields) section.now) (unbiased low) (unbiased high) (min run_length (n - run_length * r) - from)
        (run_length * r + from) more }
{
    let start = run_values::directory_length(n);
    let first = RUN * r;
    let count = run_values::count_in(n, r);
    for k in from..count {
        let slot = run_values::slot_in(section, start, x, k as usize);
        let stored = scaled_values::number_in(section, Order::High, slot);
        let Some(v) = scaled_values::value_of(fields.divisor, slot, stored) else {
            return Err(Refusal::Broken);
        };
        if within(low, high, v) {
            return Ok(Some(first + k));
        }
    }
    Ok(None)
}

// The same, unless the run's summary shows that it holds none.
fn in_run(
    section: &[u8],
    n: u64,
    fields: Fields,
    r: u64,
    from: u64,
    low: u64,
    high: u64,
) -> Result<Option<u64>, Refusal>
    requires { ((codec runs).fields_ok n (fields_of fields) (length section.now) ≡ true) × (r < run_count n) × (from < run_length) }
    ensures { (more : Outcome (Option ℕ)) → found_or result more
        ≡ cond (skipped (unbiased low) (unbiased high) (summary_at section.now r)) more
        (scan_from ((codec runs).value n (fields_of fields) section.now) (unbiased low) (unbiased high) (min run_length (n - run_length * r) - from)
        (run_length * r + from) more) }
{
    let x = run_values::summary_at(section, r as usize);
    if passed_by(low, high, x) {
        return Ok(None);
    }
    scan_run(section, n, fields, r, x, from, low, high)
}

// The runs in turn, from run `first` on.
fn in_runs(
    section: &[u8],
    n: u64,
    fields: Fields,
    first: u64,
    low: u64,
    high: u64,
) -> Result<Option<u64>, Refusal>
    requires { ((codec runs).fields_ok n (fields_of fields) (length section.now) ≡ true) × (first ≤ run_count n) }
    ensures { found_or result (done none)
        ≡ runs_from ((codec runs).value n (fields_of fields) section.now) (summary_at section.now) (unbiased low) (unbiased high) n
        (run_count n - first) first }
{
    let runs = run_values::run_count(n);
    for r in first..runs {
        if let Some(ordinal) = in_run(section, n, fields, r, 0, low, high)? {
            return Ok(Some(ordinal));
        }
    }
    Ok(None)
}

// The first ordinal from `from` on: what is left of its run, and then the runs after it.
pub fn first_from(
    section: &[u8],
    n: u64,
    fields: Fields,
    from: u64,
    low: u64,
    high: u64,
) -> Result<Option<u64>, Refusal>
    requires { ((codec runs).fields_ok n (fields_of fields) (length section.now) ≡ true) × (from < n) }
    ensures { found_or result (done none)
        ≡ from_value ((codec runs).value n (fields_of fields) section.now) (summary_at section.now) (unbiased low) (unbiased high) n
        (from / run_length) (from % run_length) }
{
    let r = from / RUN;
    if let Some(ordinal) = in_run(section, n, fields, r, from % RUN, low, high)? {
        return Ok(Some(ordinal));
    }
    in_runs(section, n, fields, r + 1, low, high)
}
