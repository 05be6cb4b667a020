// The values of a section of edition 3 (document 02, [11]), all of them into a lent buffer.
#![tactic(auto)]

ghost use Rattle.std.specs.Prelude.{◌≡◌, true, List, ◌++◌, ◌+◌, ◌-◌, ◌≤◌, ◌<◌, ℤ, length, drop};
ghost use Rattle.std.proofs.Math.Option.{some};
ghost use Rattle.std.proofs.lemmas.List.Edits.{sets};
ghost use Rattle.format.specs.Limits.{max_count};
ghost use Rattle.format.specs.ValueRuns.{run_length, in_run};
ghost use Rattle.format.specs.Editions.{runs, codec};
ghost use Rattle.format.specs.Check.{all_values};
ghost use Rattle.format.specs.Drawn.{drawn};
ghost use Rattle.format.specs.Stores.{Fill};
ghost use Rattle.format.specs.Codec.{scaled};
ghost use Rattle.answers.specs.Replies.{fields_of};
ghost use Rattle.packings.specs.declared.Order as Od;
ghost use Rattle.packings.specs.Packings.{packing_of};
ghost use Rattle.run_values.specs.Summaries.{summary_is, reaches_in};

use answers::Fields;
use packings::Order;
use run_values::Summary;

// The values of a run, each of which is there, into a buffer of their count: a run is a packed section of its own, as edition 1's is. The
// directory ends at `from`.
fn fill_run(values: &mut [i64], section: &[u8], from: usize, divisor: u64, x: Summary)
    requires { (from ≤ length section.now) × (0 < divisor) × (0 < length values.old) × (length values.old ≤ run_length)
        × ((vs : List ℤ) × (all_values (length values.old) (in_run divisor (drop from section.now) (summary_is x)) ≡ some vs)) }
    ensures { (vs : List ℤ) → all_values (length values.old) (in_run divisor (drop from section.now) (summary_is x)) ≡ some vs
        → values.new ≡ vs }
{
    let n = values.len();
    let bytes = packing::packed_bytes(n as u64, x.width) as usize;
    let at = run_values::fetched_from(from, x.start, x.width as usize);
    let end = at + bytes;
    let fields = Fields {
        width: x.width,
        smallest: signed::number_of(x.smallest),
        divisor,
    };
    scaled_reader::fill(values, &section[at..end], Order::High, n, fields);
}

// The n values of a section, each of which is there, from the buffer's front on.
pub fn fill(values: &mut [i64], section: &[u8], n: usize, fields: Fields)
    requires { ((codec runs).fields_ok n (fields_of fields) (length section.now) ≡ true) × (n ≤ length values.old)
        × ((vs : List ℤ) × (all_values n ((codec runs).value n (fields_of fields) section.now) ≡ some vs)) }
    ensures { (vs : List ℤ) → all_values n ((codec runs).value n (fields_of fields) section.now) ≡ some vs
        → values.new ≡ vs ++ drop n values.old }
{
    let from = run_values::directory_length(n as u64);
    for r in 0..run_values::run_count(n as u64) {
        let x = run_values::summary_at(section, r as usize);
        let i = (run_values::RUN * r) as usize;
        let end = i + (run_values::count_in(n as u64, r) as usize);
        fill_run(&mut values[i..end], section, from, fields.divisor, x);
    }
}

// ---- some of them

// The values of the numbers from k on, of n, into places `from` to `end`, up to the first that has none: number after number, high bit first. Says
// where it stopped. (`scaled_reader::draw` once more: with a third caller it is compiled into none of them, and a reading of one pair takes a
// quarter longer.)
fn draw_numbers(
    values: &mut [i64],
    section: &[u8],
    n: usize,
    fields: Fields,
    x: usize,
    from: usize,
    end: usize,
) -> usize
    requires { (n ≤ max_count) × ((scaled (packing_of Od.Order.High)).fields_ok n (fields_of fields) (length section.now) ≡ true)
        × (x + (end - from) ≤ n) × (from ≤ end) × (end ≤ length values.old) }
    ensures { (result ≡ from + length (drawn ((scaled (packing_of Od.Order.High)).value n (fields_of fields) section.now) (end - from) x))
        × (values.new
        ≡ sets values.old from (drawn ((scaled (packing_of Od.Order.High)).value n (fields_of fields) section.now) (end - from) x)) }
{
    let low = signed::biased_of(fields.smallest);
    let w = fields.width as usize;
    let mut at = packing::byte_of(x, w);
    let mut skip = packing::skip_of(x, w);
    for i in from..end {
        let stored = packings::next_of(section, Order::High, w, x + (i - from), n, at, skip);
        let Some(value) = scaling::value_above(low, fields.divisor, stored) else {
            return i;
        };
        values[i] = value;
        let next = skip + w;
        at += next >> 3;
        skip = next & 7;
    }
    end
}

// The values of a run from number k on, into places `from` to `end`, up to the first that has none: of a run whose `count` numbers are all
// within the section, number after number. Says where it stopped.
fn draw_run(
    values: &mut [i64],
    section: &[u8],
    directory: usize,
    divisor: u64,
    x: Summary,
    count: usize,
    k: usize,
    from: usize,
    end: usize,
) -> usize
    requires { (directory ≤ length section.now) × (0 < divisor) × (0 < count) × (count ≤ run_length) × (k + (end - from) ≤ count) × (from ≤ end)
        × (end ≤ length values.old) × (reaches_in (length section.now - directory) x.start x.width (count - 1) ≡ true) }
    ensures { (result ≡ from + length (drawn (in_run divisor (drop directory section.now) (summary_is x)) (end - from) k))
        × (values.new
        ≡ sets values.old from (drawn (in_run divisor (drop directory section.now) (summary_is x)) (end - from) k)) }
{
    let bytes = packing::packed_bytes(count as u64, x.width) as usize;
    let at = run_values::fetched_from(directory, x.start, x.width as usize);
    let after = at + bytes;
    let fields = Fields {
        width: x.width,
        smallest: signed::number_of(x.smallest),
        divisor,
    };
    draw_numbers(values, &section[at..after], count, fields, k, from, end)
}

// The values of the ordinals from x on, of n, into places `from` to `end`, as far as x's run goes and up to the first that has none. Says where
// it stopped: at once, where the run is not whole within the section.
pub fn draw(
    values: &mut [i64],
    section: &[u8],
    n: usize,
    fields: Fields,
    x: usize,
    from: usize,
    end: usize,
) -> usize
    requires { (n ≤ max_count) × ((codec runs).fields_ok n (fields_of fields) (length section.now) ≡ true) × (x + (end - from) ≤ n) × (from ≤ end)
        × (end ≤ length values.old) }
    ensures { (from ≤ result) × (result ≤ end)
        × Fill values.old from (drawn ((codec runs).value n (fields_of fields) section.now) (end - from) x) values.new result
        (drawn ((codec runs).value n (fields_of fields) section.now) (end - result) (x + (result - from))) }
{
    if from == end {
        return from;
    }
    let r = (x as u64) / run_values::RUN;
    let k = ((x as u64) % run_values::RUN) as usize;
    let summary = run_values::summary_at(section, r as usize);
    let count = run_values::count_in(n as u64, r) as usize;
    let directory = run_values::directory_length(n as u64);
    let room = section.len() - directory;
    if !run_values::reaches(room, summary.start, summary.width as usize, count - 1) {
        return from;
    }
    let last = from + (count - k).min(end - from);
    draw_run(
        values,
        section,
        directory,
        fields.divisor,
        summary,
        count,
        k,
        from,
        last,
    )
}
