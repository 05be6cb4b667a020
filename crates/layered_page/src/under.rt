// The machine column's answers for the ids that are absent in the correction, in parts of the page.
ghost use Rattle.std.specs.Prelude.{◌≡◌, ◌+◌, ◌%◌, ◌^◌, ◌<◌, ◌≤◌, min, map, length, take, if◌then◌else◌, nat_eq};
ghost use Rattle.format.specs.Page.{place_words, page_words};
ghost use Rattle.column.specs.Opened.{opened_of};
ghost use Rattle.page.specs.Openings.{look_by, Fit};
ghost use Rattle.layered_page.specs.Absent.{absent_ids, absent_places, put_all, lost_words};
ghost use Rattle.layered_page.specs.Pages.{Numbered, Laid, Within, Spread, Answers, Under, Above, Whole};

use super::ABSENT;
use answers::Refusal;
use column::Column;
use layered::LayeredWords;

// So many places of the page are asked for at once.
const PART: usize = 256;

// ---- one part

// One more where the id is absent. (A function of its own, so that `gather` has no branch.)
fn one_more(n: usize, kind: u8) -> usize
    requires { n < 18446744073709551615 }
    ensures { result ≡ (if nat_eq kind 1 then n + 1 else n) }
{
    if kind == ABSENT { n + 1 } else { n }
}

// The ids that are absent in the correction, and their places; hands back how many.
fn gather(batch: &mut [u32], places: &mut [usize], ids: &[u32], kinds: &[u8]) -> usize
    requires { (length ids.now ≤ length batch.old) × (length ids.now ≤ length places.old) × (length kinds.now ≡ length ids.now) }
    ensures { (result ≤ length ids.now) × (take result batch.new ≡ absent_ids kinds.now ids.now)
        × (take result places.new ≡ absent_places 0 kinds.now) }
{
    let mut n: usize = 0;
    for (i, id) in ids.iter().enumerate() {
        batch[n] = *id;
        places[n] = i;
        n = one_more(n, kinds[i]);
    }
    n
}

// Each answer in its place.
fn scatter(
    ordinals: &mut [u64],
    values: &mut [i64],
    kinds: &mut [u8],
    places: &[usize],
    below_ordinals: &[u64],
    below_values: &[i64],
    below_kinds: &[u8],
)
    requires { Spread places.now ordinals.old values.old kinds.old below_ordinals.now below_values.now below_kinds.now }
    ensures { (ordinals.new ≡ put_all ordinals.old places.now below_ordinals.now)
        × (values.new ≡ put_all values.old places.now below_values.now)
        × (kinds.new ≡ put_all kinds.old places.now below_kinds.now) }
{
    for (i, place) in places.iter().enumerate() {
        let at = *place;
        let value = below_values[i];
        ordinals[at] = below_ordinals[i];
        values[at] = value;
        kinds[at] = below_kinds[i];
    }
}

// The words of one id.
fn words_of(bytes: &[u8], opening: Result<Column, Refusal>, id: u32) -> u64
    requires { Fit bytes.now opening }
    ensures { result ≡ place_words (look_by bytes.now (opened_of opening) id) % 2 ^ 64 }
{
    let ids = [id];
    let mut ordinals = [0u64; 1];
    let mut values = [0i64; 1];
    let mut kinds = [0u8; 1];
    page::fill_by(&mut ordinals, &mut values, &mut kinds, &ids, bytes, opening)
}

// The words that were counted in the correction for ids that the machine column refuses: a refusal counts none.
fn lost(kinds: &[u8], ids: &[u32], bytes: &[u8], opening: Result<Column, Refusal>) -> u64
    requires { (Fit bytes.now opening) × (length ids.now ≤ length kinds.now) }
    ensures { result ≡ lost_words (look_by bytes.now (opened_of opening)) kinds.now ids.now % 2 ^ 64 }
{
    let mut words: u64 = 0;
    for (i, id) in ids.iter().enumerate() {
        if kinds[i] <= ABSENT {
            continue;
        }
        words = std::num::wrapping_add_u64(words, words_of(bytes, opening, *id));
    }
    words
}

// The words of a part: the machine column's, and those that do not count in the correction.
#[derive(Clone, Copy, Debug, PartialEq, Eq)]
struct Counts {
    machine: u64,
    lost: u64,
}

// The machine column's answers for these ids, each in its place.
fn answer(
    ordinals: &mut [u64],
    values: &mut [i64],
    kinds: &mut [u8],
    places: &[usize],
    ids: &[u32],
    machine: &[u8],
    bottom: Result<Column, Refusal>,
    correction: &[u8],
    top: Result<Column, Refusal>,
) -> Counts
    requires { (length ids.now ≤ 256) × (length places.now ≡ length ids.now) × (Within places.now ordinals.old values.old kinds.old)
        × (Fit machine.now bottom) × (Fit correction.now top) }
    ensures { Answers (look_by correction.now (opened_of top)) (look_by machine.now (opened_of bottom)) ids.now
        places.now ordinals.old ordinals.new values.old values.new kinds.old
        kinds.new result.machine result.lost }
{
    let mut below_ordinals = [0u64; PART];
    let mut below_values = [0i64; PART];
    let mut below_kinds = [0u8; PART];
    let words = page::fill_by(
        &mut below_ordinals,
        &mut below_values,
        &mut below_kinds,
        ids,
        machine,
        bottom,
    );
    scatter(
        ordinals,
        values,
        kinds,
        places,
        &below_ordinals,
        &below_values,
        &below_kinds,
    );
    let uncounted = lost(&below_kinds, ids, correction, top);
    Counts {
        machine: words,
        lost: uncounted,
    }
}

fn part(
    ordinals: &mut [u64],
    values: &mut [i64],
    kinds: &mut [u8],
    ids: &[u32],
    machine: &[u8],
    bottom: Result<Column, Refusal>,
    correction: &[u8],
    top: Result<Column, Refusal>,
) -> Counts
    requires { (length ids.now ≤ 256) × (Fit machine.now bottom) × (Fit correction.now top)
        × (Numbered (look_by correction.now (opened_of top))) × (Numbered (look_by machine.now (opened_of bottom)))
        × (Laid (look_by correction.now (opened_of top)) ids.now ordinals.old values.old kinds.old) }
    ensures { Under (look_by correction.now (opened_of top)) (look_by machine.now (opened_of bottom)) ids.now
        ordinals.new values.new kinds.new result.machine result.lost }
{
    let mut batch = [0u32; PART];
    let mut places = [0usize; PART];
    let n = gather(&mut batch, &mut places, ids, kinds);
    answer(
        ordinals,
        values,
        kinds,
        &places[0..n],
        &batch[0..n],
        machine,
        bottom,
        correction,
        top,
    )
}

// ---- all parts

// Where the part from place i on ends.
fn part_end(i: usize, n: usize) -> usize
    requires { i ≤ n }
    ensures { result ≡ min n (i + 256) }
{
    i + (n - i).min(PART)
}

// Both columns' answers in the places of the ids, where the correction's stand; so many words were counted there.
pub fn fill_under(
    ordinals: &mut [u64],
    values: &mut [i64],
    kinds: &mut [u8],
    ids: &[u32],
    machine: &[u8],
    bottom: Result<Column, Refusal>,
    correction: &[u8],
    top: Result<Column, Refusal>,
    counted: u64,
) -> Result<LayeredWords, Refusal>
    requires { (Fit machine.now bottom) × (Fit correction.now top)
        × (Numbered (look_by correction.now (opened_of top))) × (Numbered (look_by machine.now (opened_of bottom)))
        × (Above (look_by correction.now (opened_of top)) ids.now ordinals.old values.old kinds.old)
        × (counted ≡ page_words (map (look_by correction.now (opened_of top)) ids.now) % 2 ^ 64) }
    ensures { Whole (look_by correction.now (opened_of top)) (look_by machine.now (opened_of bottom)) ids.now
        ordinals.old ordinals.new values.old values.new kinds.old kinds.new result }
{
    let n = ids.len();
    let mut below: u64 = 0;
    let mut above = counted;
    let mut i: usize = 0;
    // No `chunks_mut`: of what is stored through it a proof knows the length alone.
    while i < n {
        let end = part_end(i, n);
        let counts = part(
            &mut ordinals[i..end],
            &mut values[i..end],
            &mut kinds[i..end],
            &ids[i..end],
            machine,
            bottom,
            correction,
            top,
        );
        below = std::num::wrapping_add_u64(below, counts.machine);
        above = std::num::wrapping_sub_u64(above, counts.lost);
        i = end;
    }
    Ok(LayeredWords {
        machine_words: below,
        correction_words: above,
    })
}
