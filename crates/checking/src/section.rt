// The judgement of a bare id section (document 02, [9]).
ghost use Rattle.std.specs.Prelude.{◌≡◌};
ghost use Rattle.format.specs.Judge.{judge_section};
ghost use Rattle.answers.specs.Replies.{order_of, judgement_of};

use answers::{ByteOrder, Rejection};
use column::Column;

// Accepted with the number of ids, or the first fault; an entry count or a power outside document 01's limits is told before a byte is read.
pub fn judge_section(
    bytes: &[u8],
    jump_count: u64,
    power: u64,
    order: ByteOrder,
) -> Result<u64, Rejection>
    ensures { judgement_of result ≡ judge_section (order_of order) power jump_count bytes.now }
{
    if !column::power_ok(power) {
        return Err(Rejection::Header);
    }
    if jump_count > Column::MAX_JUMPS {
        return Err(Rejection::Header);
    }
    let p = numbers::size(power);
    let j = numbers::size(jump_count);
    // By a match: with map_err the proof did not close.
    match section_check::judge(bytes, order, p, j) {
        Ok(n) => Ok(n),
        Err(fault) => Err(Rejection::Faulty(fault.reason, numbers::long(fault.at))),
    }
}
