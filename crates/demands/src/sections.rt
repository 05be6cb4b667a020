// Document 02, [9], as a proved program: another maker's id section, judged by its bytes, entry count, rank power and byte order.
ghost use Rattle.std.specs.Prelude.{◌≡◌, true, false, ◌↔◌, ◌⊎◌, ℕ, ◌<◌};
ghost use Rattle.format.specs.Limits.{power_ok, max_jumps};
ghost use Rattle.answers.specs.Replies.{order_of, reason_number};
ghost use Rattle.answers.specs.declared.Reason.{Reason};
ghost use Rattle.answers.specs.declared.Rejection.{Rejection};
ghost use Rattle.format.specs.Lists.{SectionIn};
ghost use Rattle.format.specs.JudgeFaults.{Why};
ghost use Rattle.format.specs.Judge.{limits_ok};
ghost use Rattle.format.specs.Lists.{OneList};

use answers::{ByteOrder, Rejection};

// Accepted with the number of ids exactly if some list within the limits has this section and this entry count, and that is one list; a reason
// and a place exactly if they are right; HEADER exactly outside the limits.
pub fn judge_section(
    bytes: &[u8],
    jump_count: u64,
    power: u64,
    order: ByteOrder,
) -> Result<u64, Rejection>
    ensures accepts { (n : ℕ) → (result ≡ Ok n) ↔ ((power_ok power ≡ true) × SectionIn (order_of order) power jump_count bytes.now n) }
    ensures one_list { power_ok power ≡ true → (i j m n : ℕ) (x : SectionIn (order_of order) power i bytes.now m)
        (y : SectionIn (order_of order) power j bytes.now n) → OneList x y }
    ensures faults { (why : Reason) (at : ℕ) → (result ≡ Err (Rejection.Faulty why at))
        ↔ ((limits_ok power jump_count ≡ true) × Why (order_of order) power jump_count bytes.now (reason_number why) at) }
    ensures header { (result ≡ Err Rejection.Header) ↔ ((power_ok power ≡ false) ⊎ (max_jumps < jump_count)) }
{
    signalfern::judge_section(bytes, jump_count, power, order)
}
