// The answer on a page of ids (document 02, [3]).
ghost use Rattle.std.specs.Prelude.{◌≡◌};
ghost use Rattle.answers.specs.Replies.{reply_of};
ghost use Rattle.answers.specs.Words.{page_words};

use super::refused;
use answers::Refusal;

// signalfern_page, for so many ids.
pub fn put_page(out: &mut [u64; 3], reply: Result<u64, Refusal>, n: usize)
    ensures { out.new ≡ page_words n (reply_of reply) }
{
    match reply {
        Ok(words) => {
            *out = [0, n as u64, words];
        }
        Err(why) => {
            *out = refused(why);
        }
    }
}
