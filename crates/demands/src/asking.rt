// Demands 1 and 3 for a page of ids (document 02, [3]), the next candidate ([1]) and the first value in a range ([11]). Bytes that hold a list are those that
// the check accepts (`check_then_read`).
ghost use Rattle.std.specs.Prelude.{◌≡◌, [], ◌∷◌, ℕ, ◌≤◌, length};
ghost use Rattle.format.specs.Limits.{max_id};
ghost use Rattle.format.specs.Refusals.{done, refused, EDITION};
ghost use Rattle.format.specs.Editions.{runs, editions};
ghost use Rattle.format.specs.Next.{new_cursor, last_after};
ghost use Rattle.format.specs.FirstBetween.{first_in};
ghost use Rattle.answers.specs.Replies.{candidate_of, between_of};
ghost use Rattle.format.specs.Says.{NextSays};
ghost use Rattle.demands.specs.Terms.{IfRefused, PageTold, HeaderTold, Holds, PageAnswers, NextAnswers};
ghost use Rattle.demands.specs.Tables.{BetweenSays};

use answers::{Cursor, Next, Refusal};

// BUFFER with the number of ids, before a byte is read and whatever the bytes are. On bytes that hold a list the sum of the words by the formula, and in each
// place what a look-up of its id answers by the list, ids above the limit included.
pub fn look_up_page(
    bytes: &[u8],
    ids: &[u32],
    ordinals: &mut [u64],
    values: &mut [i64],
    kinds: &mut [u8],
) -> Result<u64, Refusal>
    ensures says { PageTold bytes.now ids.now ordinals.old ordinals.new values.old values.new
        kinds.old kinds.new result }
    ensures refused { IfRefused result ((ordinals.new ≡ ordinals.old) × (values.new ≡ values.old)
        × (kinds.new ≡ kinds.old)) }
    ensures answers { length ids.now ≤ length ordinals.old → length ids.now ≤ length values.old
        → length ids.now ≤ length kinds.old → (n : ℕ) (x : Holds bytes.now n)
        → PageAnswers x ids.now ordinals.old ordinals.new values.old
        values.new kinds.old kinds.new result }
{
    signalfern::look_up_page(bytes, ids, ordinals, values, kinds)
}

// Below a new cursor lies no target.
pub fn new_cursor() -> Cursor
    ensures { result.last ≡ new_cursor }
{
    Cursor::new()
}

// A refusal keeps the cursor, and an answer leaves the target there. Any cursor is fit: on bytes that hold a list, the list's own answer from it.
pub fn next(cursor: Cursor, bytes: &[u8], target: u32) -> Next
    ensures says { NextSays editions bytes.now cursor.last target (candidate_of result.candidate) }
    ensures header { HeaderTold editions bytes.now ((target ≤ max_id) × (cursor.last ≤ target)) (λ why w. candidate_of result.candidate ≡ refused why w) }
    ensures cursor { result.cursor.last ≡ last_after (candidate_of result.candidate) cursor.last target }
    ensures answers { (n : ℕ) (x : Holds bytes.now n) → NextAnswers x cursor.last target result }
{
    signalfern::next(cursor, bytes, target)
}

// In a column of edition 3 the plain scan of its list, in any other EDITION.
pub fn first_between(bytes: &[u8], low: i64, high: i64) -> Result<Option<u64>, Refusal>
    ensures says { BetweenSays bytes.now low high (between_of result) }
    ensures header { HeaderTold (runs ∷ []) bytes.now (Unit {0}) (λ why w. between_of result ≡ refused why w) }
    ensures scans { (n : ℕ) (x : Holds bytes.now n) → x.edition ≡ runs → between_of result ≡ done (first_in low high 0 x.values) }
    ensures others { (n : ℕ) (x : Holds bytes.now n) → (x.edition ≡ runs → ⊥) → between_of result ≡ refused EDITION 0 }
{
    signalfern::first_between(bytes, low, high)
}
