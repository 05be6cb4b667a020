// The value section of edition 3 (document 02, [11]) written, run by run.
#![tactic(auto)]

ghost use Rattle.std.specs.Prelude.{◌≡◌, ◌++◌, ◌+◌, ◌-◌, ◌*◌, ◌/◌, ◌≤◌, ◌<◌, length, drop};
ghost use Rattle.std.proofs.lemmas.List.Edits.{sets};
ghost use Rattle.format.specs.Limits.{max_count, max_width};
ghost use Rattle.format.specs.Pairs.{Each, Fits};
ghost use Rattle.format.specs.ValueRuns.{run_length, run_bytes, summary_of, summary_bytes};
ghost use Rattle.format.specs.Editions.{runs, codec};
ghost use Rattle.answers.specs.Replies.{fields_of};
ghost use Rattle.run_values.specs.Summaries.{summary_is};

use answers::Fields;
use packings::Order;
use run_values::{RUN, Summary, count_in, directory_length, run_count};

// What the header says of the values.
pub fn plan(values: &[i64]) -> Fields
    ensures { (fields_of result ≡ (codec runs).fields values.now) × Each Fits values.now }
{
    let scale = scaling::scale_of(values);
    Fields {
        width: 0,
        smallest: 0,
        divisor: scale.divisor,
    }
}

// The summary of a run that starts at a byte after the directory.
fn summary_of(part: &[i64], divisor: u64, start: u64) -> Summary
    requires { 0 < divisor }
    ensures { (summary_is result ≡ summary_of divisor start part.now) × (result.width ≤ max_width) × Each Fits part.now }
{
    let ends = scaling::ends_of(part);
    let width = packings::width_for(Order::High, (ends.high - ends.low) / divisor);
    Summary {
        smallest: ends.low,
        greatest: ends.high,
        start,
        width,
    }
}

// The value section's length, by the fields of the values.
pub fn length(values: &[i64], fields: Fields) -> u64
    requires { (fields_of fields ≡ (codec runs).fields values.now) × Each Fits values.now × (length values.now ≤ max_count) }
    ensures { (result ≡ length ((codec runs).section values.now)) × (result ≤ 33 * length values.now) }
{
    let n = values.len() as u64;
    let count = run_count(n);
    let mut sum = directory_length(n) as u64;
    for r in 0..count {
        let i = (RUN * r) as usize;
        let j = i + (count_in(n, r) as usize);
        let x = summary_of(&values[i..j], fields.divisor, 0);
        sum += packing::packed_bytes((j - i) as u64, x.width);
    }
    sum
}

// Puts a summary at a place.
fn put_summary(out: &mut [u8], at: usize, x: Summary)
    requires { (at + 25 ≤ length out.old) × (x.width ≤ max_width) }
    ensures { out.new ≡ sets out.old at (summary_bytes (summary_is x)) }
{
    numbers::put_long(out, at, signed::turned(x.smallest));
    numbers::put_long(out, at + 8, signed::turned(x.greatest));
    numbers::put_long(out, at + 16, x.start);
    let width = x.width as u8;
    out[at + 24] = width;
}

// Puts run r of a section: its summary into the directory, which ends at `from`, and its bytes `start` bytes after that. Says how many.
fn put_run(out: &mut [u8], part: &[i64], r: usize, from: usize, start: usize, divisor: u64) -> usize
    requires { (25 * r + 25 ≤ from) × (0 < divisor) × (length part.now ≤ run_length) × Each Fits part.now
        × (from + start + length (run_bytes divisor part.now) ≤ length out.old) }
    ensures { (result ≡ length (run_bytes divisor part.now))
        × (out.new ≡ sets (sets out.old (25 * r) (summary_bytes (summary_of divisor start part.now))) (from + start)
        (run_bytes divisor part.now)) }
{
    let x = summary_of(part, divisor, start as u64);
    put_summary(out, 25 * r, x);
    let bytes = packing::packed_bytes(part.len() as u64, x.width) as usize;
    let at = from + start;
    let end = at + bytes;
    scaled_values::put_numbers(
        &mut out[at..end],
        Order::High,
        part,
        x.smallest,
        divisor,
        x.width as usize,
    );
    bytes
}

// Writes the value section to the front of out, the part of the output that starts where the section starts.
pub fn put(out: &mut [u8], values: &[i64], fields: Fields)
    requires { (fields_of fields ≡ (codec runs).fields values.now) × Each Fits values.now
        × (length ((codec runs).section values.now) ≤ length out.old) }
    ensures { out.new ≡ (codec runs).section values.now ++ drop (length ((codec runs).section values.now))
        out.old }
{
    let n = values.len() as u64;
    let count = run_count(n);
    let from = directory_length(n);
    let mut start: usize = 0;
    for r in 0..count {
        let i = (RUN * r) as usize;
        let j = i + (count_in(n, r) as usize);
        start += put_run(out, &values[i..j], r as usize, from, start, fields.divisor);
    }
}
