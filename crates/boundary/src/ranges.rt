// The answer on a range of values (document 02, [11]).
ghost use Rattle.std.specs.Prelude.{◌≡◌};
ghost use Rattle.answers.specs.Replies.{between_of};
ghost use Rattle.answers.specs.Words.{between_words};

use super::refused;
use answers::{ABSENT, FOUND, Refusal};

// signalfern_between
pub fn put_between(out: &mut [u64; 3], between: Result<Option<u64>, Refusal>)
    ensures { out.new ≡ between_words (between_of between) }
{
    match between {
        Ok(Some(ordinal)) => {
            *out = [FOUND, 0, ordinal];
        }
        Ok(None) => {
            *out = [ABSENT, 0, 0];
        }
        Err(why) => {
            *out = refused(why);
        }
    }
}
