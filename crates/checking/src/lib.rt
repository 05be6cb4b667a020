// The check of a column (document 01, "Refusal numbers": 7 to 11, then 13). The judgement of a bare id section stands in section.rt.
#![tactic(auto)]

ghost use Rattle.std.specs.Prelude.{◌≡◌};
ghost use Rattle.format.specs.Refusals.{done};
ghost use Rattle.format.specs.Editions.{editions};
ghost use Rattle.format.specs.Opening.{open_column};
ghost use Rattle.format.specs.Rules.{HeadFacts};
ghost use Rattle.format.specs.Check.{accepted, check};
ghost use Rattle.answers.specs.Replies.{reply_of};
ghost use Rattle.column.specs.Opened.{head_is, column_of};
ghost use Rattle.checking.specs.Tests.{ids_ok, is_taken};

use answers::{ByteOrder, Refusal};
use column::{Column, Head};

pub mod section;

// Whether an id section is judged to hold the header's count of ids.
fn ids_ok(section: &[u8], h: Head) -> bool
    requires { HeadFacts (head_is h) }
    ensures { result ≡ ids_ok (head_is h) section.now }
{
    let p = numbers::size(h.power);
    let j = numbers::size(h.jump_count);
    match section_check::judge(section, ByteOrder::LowFirst, p, j) {
        Ok(n) => n == h.count,
        Err(_) => false,
    }
}

// Whether the bytes that a column was opened from are the column of some pair list.
pub fn accepts(bytes: &[u8], c: Column) -> bool
    requires { open_column editions bytes.now ≡ done (column_of c) }
    ensures { result ≡ is_taken (accepted bytes.now (column_of c)) }
{
    let h = c.head;
    let start = numbers::size(c.start);
    let end = start + numbers::size(h.id_bytes);
    if !ids_ok(&bytes[start..end], h) {
        return false;
    }
    let edition = h.edition;
    let fields = h.fields;
    values::check(&bytes[end..], edition, h.count, fields)
}

// n for a column, and else the first refusal.
pub fn check(bytes: &[u8]) -> Result<u64, Refusal>
    ensures { reply_of result ≡ check editions bytes.now }
{
    let c = Column::open(bytes)?;
    if !accepts(bytes, c) {
        return Err(Refusal::Damaged);
    }
    Ok(c.head.count)
}
