// The answers on pairs from an id on, and on the pair with an ordinal.
ghost use Rattle.std.specs.Prelude.{◌≡◌};
ghost use Rattle.answers.specs.Replies.{candidate_of, readout_of};
ghost use Rattle.answers.specs.Words.{pair_words, readout_words};

use super::refused;
use answers::{ABSENT, FOUND, Pair, Readout, Refusal};

// signalfern_readout
pub fn put_readout(out: &mut [u64; 3], readout: Result<Readout, Refusal>)
    ensures { out.new ≡ readout_words (readout_of readout) }
{
    match readout {
        Ok(Readout::More(n)) => {
            *out = [0, 0, n];
        }
        Ok(Readout::Ended(n)) => {
            *out = [1, 0, n];
        }
        Err(why) => {
            *out = refused(why);
        }
    }
}

// signalfern_pair
pub fn put_pair(out: &mut [u64; 5], pair: Result<Option<Pair>, Refusal>)
    ensures { out.new ≡ pair_words (candidate_of pair) }
{
    match pair {
        Ok(Some(Pair { id, ordinal, value })) => {
            *out = [FOUND, 0, id as u64, ordinal, signed::bits_of(value)];
        }
        Ok(None) => {
            *out = [ABSENT, 0, 0, 0, 0];
        }
        Err(why) => {
            *out = refused(why);
        }
    }
}
