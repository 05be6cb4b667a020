// The judgement of a bare id section, and its byte order (document 02, [9]).
ghost use Rattle.std.specs.Prelude.{◌≡◌};
ghost use Rattle.answers.specs.Replies.{order_of, judgement_of};
ghost use Rattle.answers.specs.Words.{order_in, judgement_words};

use answers::{ByteOrder, Refusal, Rejection};

pub fn order_in(high_first: u32) -> ByteOrder
    ensures { order_of result ≡ order_in high_first }
{
    if high_first == 0 {
        return ByteOrder::LowFirst;
    }
    ByteOrder::HighFirst
}

// signalfern_judgement
pub fn put_judgement(out: &mut [u64; 4], judgement: Result<u64, Rejection>)
    ensures { out.new ≡ judgement_words (judgement_of judgement) }
{
    match judgement {
        Ok(n) => {
            *out = [0, n, 0, 0];
        }
        Err(Rejection::Faulty(why, at)) => {
            *out = [1, 0, at, why.number()];
        }
        Err(Rejection::Header) => {
            *out = [Refusal::Header.number(), 0, 0, 0];
        }
    }
}
