// The three demands as proved programs: each calls the shipped calls one after the other as a client does, on any input at all, and promises
// a demand's sentences in the client's terms (specs/Terms.antt). Nothing is known of the calls but what they promise.
//
// Demand 1, "every public call ends on any input, refuses exactly what documents 01 and 02 say with the number given there, and a refused call
// changes no byte that it was lent". That a call ends is part of every proof, and no call has a `requires`. Each call has a function of its own,
// named as the call, that does nothing else: its clause `says` is the call's table, a line for each case, in order, with its numbers; `refused` is
// that nothing lent is changed; `header` is document 02, [4]. A call without `refused` is lent nothing that it can change.
//
//   here         write, check, read, look_up          opened.rt    open, look_up_in, next_in, first_between_in, look_up_layered_in
//   planning.rt     write_planned, plan                  asking.rt    look_up_page, next, new_cursor, first_between
//   pairs.rt     read_from, pair_at, first_between_from, and those of an opened column
//   layers.rt    look_up_layered, layered_values, layered_part
//   layered_pages.rt  look_up_layered_page, look_up_layered_page_in
//   layered_pairs.rt  read_layered_from, read_layered_from_in
//   sets.rt      set_write, set_check, set_find       sections.rt  judge_section
//
// Demands 2 and 3 are below for document 01's calls, and in those files for document 02's.
#![tactic(auto)]

ghost use Rattle.std.specs.Prelude.{◌≡◌, ◌↔◌, ◌++◌, ℕ, ◌≤◌, length, take, drop};
ghost use Rattle.format.specs.Limits.{max_id};
ghost use Rattle.format.specs.Refusals.{done, refused};
ghost use Rattle.format.specs.Editions.{Edition, number_of, editions};
ghost use Rattle.format.specs.Opening.{Opened, open_column};
ghost use Rattle.format.specs.Page.{place_words};
ghost use Rattle.answers.specs.Replies.{reply_of, answer_of};
ghost use Rattle.format.specs.Says.{WriteSays, CheckSays, LookSays};
ghost use Rattle.demands.specs.Terms.{IfRefused, Told, ReadTold, HeaderTold, Allowed, column_in, Writes, Holds, Same, Filled, ComesBack};
ghost use Rattle.demands.specs.Terms.{WordsBound, FewProbes, Answers};

use answers::{Look, Refusal};
use column::Column;

mod asking;
mod fits;
mod layered_pages;
mod layered_pairs;
mod layers;
mod opened;
mod pairs;
mod planning;
mod sections;
mod sets;

// ---- the writer: demand 1, and

// Demand 2: "The writer gives exactly the bytes that document 01 lays down, for each allowed rank power and each strictly ascending id list within the
// limits with one value an id, whenever the output has room", and else ROOM with their count. What was in the output after them stays.
pub fn write(
    ids: &[u32],
    values: &[i64],
    edition: u32,
    power: u32,
    out: &mut [u8],
) -> Result<u64, Refusal>
    ensures says { Told (WriteSays edition power ids.now values.now (length out.old)) out.old out.new result }
    ensures refused { IfRefused result (out.new ≡ out.old) }
    ensures writes { (ed : Edition) → edition ≡ number_of ed → Allowed power ids.now values.now
        → Writes (column_in ed power ids.now values.now) out.old out.new result }
{
    signalfern::write(ids, values, edition, power, out)
}

// ---- the check and the reading: demand 1

pub fn check(bytes: &[u8]) -> Result<u64, Refusal>
    ensures says { CheckSays editions bytes.now (reply_of result) }
    ensures header { HeaderTold editions bytes.now (Unit {0}) (λ why w. reply_of result ≡ refused why w) }
{
    signalfern::check(bytes)
}

// BUFFER with n after the header and before any id or value is judged.
pub fn read(bytes: &[u8], ids: &mut [u32], values: &mut [i64]) -> Result<u64, Refusal>
    ensures says { ReadTold bytes.now ids.old ids.new values.old values.new result }
    ensures refused { IfRefused result ((ids.new ≡ ids.old) × (values.new ≡ values.old)) }
    ensures header { HeaderTold editions bytes.now (Unit {0}) (λ why w. reply_of result ≡ refused why w) }
{
    signalfern::read(bytes, ids, values)
}

// What the check and the reading answered.
#[derive(Clone, Copy, Debug, PartialEq, Eq)]
pub struct Back {
    pub checked: Result<u64, Refusal>,
    pub read: Result<u64, Refusal>,
}

// Demand 2: "The check accepts exactly those bytes, and reading them into buffers of n places or more gives the same ids and values", and changes no
// place after n. They are the column of one list only, and those that `write` writes for it. Into such buffers the reading refuses as the check does.
pub fn check_then_read(bytes: &[u8], ids: &mut [u32], values: &mut [i64]) -> Back
    ensures accepts { (n : ℕ) → (reply_of result.checked ≡ done n) ↔ Holds bytes.now n }
    ensures one_list { (m n : ℕ) (x : Holds bytes.now m) (y : Holds bytes.now n) → Same x y }
    ensures written { (n : ℕ) (x : Holds bytes.now n) → Allowed x.power x.ids x.values
        × (column_in x.edition x.power x.ids x.values ≡ bytes.now) }
    ensures reads { (n : ℕ) (x : Holds bytes.now n) → n ≤ length ids.old → n ≤ length values.old
        → Filled x.ids x.values ids.old ids.new values.old values.new result.read }
    ensures alike { (c : Opened) → open_column editions bytes.now ≡ done c → c.head.count ≤ length ids.old
        → c.head.count ≤ length values.old → reply_of result.read ≡ reply_of result.checked }
{
    let checked = signalfern::check(bytes);
    let read = signalfern::read(bytes, ids, values);
    Back { checked, read }
}

// What three calls answered; where the writer refused, that.
#[derive(Clone, Copy, Debug, PartialEq, Eq)]
pub struct Trip {
    pub wrote: Result<u64, Refusal>,
    pub checked: Result<u64, Refusal>,
    pub read: Result<u64, Refusal>,
}

// What a writer left, checked and read back. (No writer tells more bytes than the output has; this function does not know that.)
fn come_back(wrote: Result<u64, Refusal>, out: &[u8], ids: &mut [u32], values: &mut [i64]) -> Trip
    ensures same { result.wrote ≡ wrote }
    ensures back { (n m : ℕ) → reply_of wrote ≡ done n → n ≤ length out.now → (x : Holds (take n out.now) m)
        → ComesBack x.ids x.values ids.old ids.new values.old values.new wrote result.checked result.read }
    ensures refused { IfRefused wrote ((ids.new ≡ ids.old) × (values.new ≡ values.old)) }
{
    let Ok(n) = wrote else {
        return Trip {
            wrote,
            checked: wrote,
            read: wrote,
        };
    };
    let end = n as usize;
    if end > out.len() {
        return Trip {
            wrote,
            checked: wrote,
            read: wrote,
        };
    }
    let back = check_then_read(&out[0..end], ids, values);
    let checked = back.checked;
    let read = back.read;
    Trip {
        wrote,
        checked,
        read,
    }
}

// So what the writer wrote, the check accepts with the number of ids, and the reading gives back.
pub fn write_then_check_then_read(
    ids: &[u32],
    values: &[i64],
    edition: u32,
    power: u32,
    out: &mut [u8],
    ids_back: &mut [u32],
    values_back: &mut [i64],
) -> Trip
    ensures { ComesBack ids.now values.now ids_back.old ids_back.new values_back.old
        values_back.new result.wrote result.checked result.read }
{
    fits::each_fits(values);
    let wrote = signalfern::write(ids, values, edition, power, out);
    come_back(wrote, out, ids_back, values_back)
}

// And accepted bytes, read and written again in the edition and at the rank power that they have, come out as they were.
pub fn read_then_write(
    bytes: &[u8],
    ids: &mut [u32],
    values: &mut [i64],
    out: &mut [u8],
) -> Result<u64, Refusal>
    ensures { (n : ℕ) (x : Holds bytes.now n) → n ≤ length ids.old → n ≤ length values.old
        → length bytes.now ≤ length out.old → (reply_of result ≡ done (length bytes.now))
        × (out.new ≡ bytes.now ++ drop (length bytes.now) out.old) }
{
    let n = signalfern::read(bytes, ids, values)?;
    let opened = Column::open(bytes)?;
    let head = opened.head;
    let number = column::number_of(head.edition) as u32;
    let power = head.power as u32;
    let end = n as usize;
    signalfern::write(&ids[0..end], &values[0..end], number, power, out)
}

// ---- the look-up: demand 1

// On any bytes that are opened the words are at most 2 to the power p-6, or 1024 without ranks, and the probes at most 12.
pub fn look_up(bytes: &[u8], id: u32) -> Result<Look, Refusal>
    ensures says { LookSays editions bytes.now id (answer_of result) }
    ensures header { HeaderTold editions bytes.now (id ≤ max_id) (λ why w. answer_of result ≡ refused why w) }
    ensures words { (c : Opened) → open_column editions bytes.now ≡ done c → WordsBound c.head.power (place_words (answer_of result)) }
    ensures probes { FewProbes result }
{
    signalfern::look_up(bytes, id)
}

// What the check, the look-up in the bytes and that in the opened column answered.
#[derive(Clone, Copy, Debug, PartialEq, Eq)]
pub struct Looked {
    pub checked: Result<u64, Refusal>,
    pub direct: Result<Look, Refusal>,
    pub opened: Result<Look, Refusal>,
}

// Demand 3: "For all bytes that the check accepts and every id up to 2147352575, the look-up and the walk over all blocks answer alike. Both say found
// exactly when the id is in the column's list; neither refuses. The ordinal is the number of listed ids below the id, the value the one written
// with it. The words equal the formula; at p from 7 to 15 they are at most 2 to the power p-6, without ranks at most 1024."
pub fn check_then_look_up(bytes: &[u8], id: u32) -> Looked
    ensures { (n : ℕ) → reply_of result.checked ≡ done n
        → (x : Holds bytes.now n) × (id ≤ max_id → Answers x id result.direct × Answers x id result.opened) }
{
    let checked = signalfern::check(bytes);
    let direct = signalfern::look_up(bytes, id);
    let opened = opened::open_then_look_up(bytes, id);
    Looked {
        checked,
        direct,
        opened,
    }
}
