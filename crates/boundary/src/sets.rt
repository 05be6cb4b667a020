// The answer on a member of a set on disk (document 02, [14]).
ghost use Rattle.std.specs.Prelude.{◌≡◌};
ghost use Rattle.answers.specs.Replies.{member_of};
ghost use Rattle.answers.specs.Words.{member_words};

use super::ranges;
use answers::Refusal;

// signalfern_member, told by the same words as the answer on a range.
pub fn put_member(out: &mut [u64; 3], answer: Result<Option<u64>, Refusal>)
    ensures { out.new ≡ member_words (member_of answer) }
{
    ranges::put_between(out, answer);
}
