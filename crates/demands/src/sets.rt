// Demands 1 and 2 for the set on disk (document 02, [14]), membership, and that a set and a column of the same ids answer alike.
ghost use Rattle.std.specs.Prelude.{◌≡◌, ◌↔◌, ℕ, ◌≤◌, length};
ghost use Rattle.format.specs.Limits.{max_id};
ghost use Rattle.format.specs.Refusals.{done, and_then};
ghost use Rattle.format.specs.Pairs.{ValidIds};
ghost use Rattle.format.specs.LookUp.{Look};
ghost use Rattle.format.specs.SetBytes.{set_bytes};
ghost use Rattle.format.specs.SetCalls.{member_in, as_member};
ghost use Rattle.answers.specs.Replies.{reply_of, answer_of, member_of};
ghost use Rattle.format.specs.Lists.{SetOf};
ghost use Rattle.format.specs.Says.{SetSays};
ghost use Rattle.demands.specs.Terms.{IfRefused, Told, Writes, Holds};
ghost use Rattle.demands.specs.Tables.{SetCheckSays, SetFindSays};

use answers::Refusal;

// Exactly the set's bytes whenever there is room, for each strictly ascending id list within the limits, and else ROOM with their count.
pub fn set_write(ids: &[u32], out: &mut [u8]) -> Result<u64, Refusal>
    ensures says { Told (SetSays ids.now (length out.old)) out.old out.new result }
    ensures refused { IfRefused result (out.new ≡ out.old) }
    ensures writes { ValidIds ids.now → Writes (set_bytes ids.now) out.old out.new result }
{
    signalfern::set_write(ids, out)
}

// The check accepts exactly the sets, each of one list, with its number of ids; 8 comes with the place of the byte that decided it and 7 with the byte count,
// exactly where all before that number is sound, and all else is 13.
pub fn set_check(bytes: &[u8]) -> Result<u64, Refusal>
    ensures says { SetCheckSays bytes.now (reply_of result) }
    ensures accepts { (n : ℕ) → (reply_of result ≡ done n) ↔ SetOf bytes.now n }
    ensures one_list { (m n : ℕ) (x : SetOf bytes.now m) (y : SetOf bytes.now n) → x.ids ≡ y.ids }
{
    signalfern::set_check(bytes)
}

// 14, then as the check; and of a set its list's answer.
pub fn set_find(bytes: &[u8], id: u32) -> Result<Option<u64>, Refusal>
    ensures says { SetFindSays bytes.now id (member_of result) }
    ensures finds { (n : ℕ) (x : SetOf bytes.now n) → id ≤ max_id → member_of result ≡ done (member_in x.ids id) }
{
    signalfern::set_find(bytes, id)
}

// What three calls answered; where the writer refused, that.
#[derive(Clone, Copy, Debug, PartialEq, Eq)]
pub struct SetTrip {
    pub wrote: Result<u64, Refusal>,
    pub checked: Result<u64, Refusal>,
    pub member: Result<Option<u64>, Refusal>,
}

// What `set_write` wrote, the check accepts with the number of ids, and membership knows.
pub fn write_then_find(ids: &[u32], out: &mut [u8], id: u32) -> SetTrip
    ensures checks { (n : ℕ) → reply_of result.wrote ≡ done n → reply_of result.checked ≡ done (length ids.now) }
    ensures finds { (n : ℕ) → reply_of result.wrote ≡ done n → id ≤ max_id → member_of result.member ≡ done (member_in ids.now id) }
{
    let wrote = signalfern::set_write(ids, out);
    match wrote {
        Err(why) => SetTrip {
            wrote,
            checked: wrote,
            member: Err(why),
        },
        Ok(n) => {
            let end = n as usize;
            let checked = set_check(&out[0..end]);
            let member = set_find(&out[0..end], id);
            SetTrip {
                wrote,
                checked,
                member,
            }
        }
    }
}

// What a look-up in a column and membership in a set answered.
#[derive(Clone, Copy, Debug, PartialEq, Eq)]
pub struct Both {
    pub answer: Result<answers::Look, Refusal>,
    pub member: Result<Option<u64>, Refusal>,
}

// "Show that it and the id section of the same list answer every membership question alike": any id, also above its limit.
pub fn look_up_then_find(bytes: &[u8], set: &[u8], id: u32) -> Both
    ensures { (m n : ℕ) (x : Holds bytes.now m) (y : SetOf set.now n) → x.ids ≡ y.ids
        → and_then (answer_of result.answer) (λ (l : Look). done (as_member l)) ≡ member_of result.member }
{
    let answer = signalfern::look_up(bytes, id);
    let member = signalfern::set_find(set, id);
    Both { answer, member }
}
