// What C sees: the words of each answer of the library, put where C wants them, and C's columns and numbers as the library's. C's structs
// are these words with names (include/signalfern.h), and an array that is lent is a plain pointer on every processor. The calls stand in
// crate signalfern_c, the words of a look-up's answer in `lookup::apart`. Those of two columns are in layers.rt, of a page of ids in pages.rt,
// of pairs in pairs.rt, of a range of values in ranges.rt, of a bare id section in sections.rt, of sets in sets.rt.
#![tactic(auto)]

ghost use Rattle.std.specs.Prelude.{◌≡◌, ◌-◌, ◌≤◌, ◌∷◌, replicate};
ghost use Rattle.answers.specs.Replies.{refusal_number, refusal_with, reply_of, candidate_of};
ghost use Rattle.answers.specs.Words.{reply_words, column_words, opened_in, candidate_words};
ghost use Rattle.column.specs.Opened.{column_of, opened_of};

use answers::{ABSENT, FOUND, Next, Pair, Refusal};
use column::Column;
use lookup::apart;
use values::Edition;

pub mod layers;
pub mod pages;
pub mod pairs;
pub mod ranges;
pub mod sections;
pub mod sets;

// The words of a call that is refused: the refusal's number, the number with it, and 0 in the rest.
fn refused<const N: usize>(why: Refusal) -> [u64; N]
    requires { 2 ≤ N }
    ensures { result ≡ refusal_number why ∷ refusal_with why ∷ replicate (N - 2) 0 }
{
    let mut words = [0u64; N];
    words[0] = why.number();
    words[1] = why.number_with();
    words
}

// signalfern_reply
pub fn put_reply(out: &mut [u64; 2], reply: Result<u64, Refusal>)
    ensures { out.new ≡ reply_words (reply_of reply) }
{
    match reply {
        Ok(n) => {
            *out = [0, n];
        }
        Err(why) => {
            *out = refused(why);
        }
    }
}

// signalfern_column
pub fn put_column(out: &mut [u64; 12], opened: Result<Column, Refusal>)
    ensures { out.new ≡ column_words (opened_of opened) }
{
    match opened {
        Ok(c) => {
            let h = c.head;
            let edition = h.edition;
            let f = h.fields;
            *out = [
                0,
                0,
                column::number_of(edition),
                h.count,
                h.power,
                h.id_bytes,
                h.jump_count,
                f.width,
                f.smallest,
                f.divisor,
                h.value_bytes,
                c.start,
            ];
        }
        Err(why) => {
            *out = refused(why);
        }
    }
}

// signalfern_candidate
pub fn put_candidate(out: &mut [u64; 6], next: Next)
    ensures { out.new ≡ candidate_words (candidate_of next.candidate) next.cursor.last }
{
    let last = next.cursor.last;
    let candidate = next.candidate;
    match candidate {
        Ok(Some(Pair { id, ordinal, value })) => {
            *out = [FOUND, 0, id as u64, ordinal, signed::bits_of(value), last];
        }
        Ok(None) => {
            *out = [ABSENT, 0, 0, 0, 0, last];
        }
        Err(why) => {
            *out = [why.number(), why.number_with(), 0, 0, 0, last];
        }
    }
}

// A width above every edition's.
const TOO_WIDE: u64 = Column::MAX_WIDTH + 1;

// A column handed in: where its edition number is none, one that breaks a header rule.
pub fn column_in(words: &[u64; 12]) -> Column
    ensures { column_of result ≡ opened_in words.now }
{
    let Some(edition) = column::edition_in(words[2]) else {
        return apart::laid_as(Edition::Plain, TOO_WIDE, words);
    };
    apart::laid(edition, words)
}
