// The full reading (document 01, "Refusal numbers": 7 to 11, 12, 13): all is verified before anything is written.
#![tactic(auto)]

ghost use Rattle.std.specs.Prelude.{◌≡◌, ◌≤◌, length};
ghost use Rattle.format.specs.Refusals.{done};
ghost use Rattle.format.specs.Editions.{editions};
ghost use Rattle.format.specs.Opening.{open_column};
ghost use Rattle.format.specs.Check.{accepted, reading, read_reply, ids_after, values_after};
ghost use Rattle.answers.specs.Replies.{reply_of};
ghost use Rattle.column.specs.Opened.{column_of};
ghost use Rattle.reader.specs.Answered.{Answered, Whole};

use answers::Refusal;
use column::Column;
use numbers::size;

// The ids of an accepted column, into a buffer that has room for them.
fn read_ids(bytes: &[u8], c: Column, ids: &mut [u32])
    requires { (Whole bytes.now (column_of c)) × (c.head.count ≤ length ids.old) }
    ensures { ids.new ≡ ids_after (accepted bytes.now (column_of c)) ids.old }
{
    let h = c.head;
    let start = size(c.start);
    let end = start + size(h.id_bytes);
    let power = size(h.power);
    id_reader::fill_ids(ids, &bytes[start..end], power);
}

// And its values.
fn read_values(bytes: &[u8], c: Column, values: &mut [i64])
    requires { (Whole bytes.now (column_of c)) × (c.head.count ≤ length values.old) }
    ensures { values.new ≡ values_after (accepted bytes.now (column_of c)) values.old }
{
    let h = c.head;
    let start = size(c.start) + size(h.id_bytes);
    let edition = h.edition;
    let fields = h.fields;
    values::fill(values, &bytes[start..], edition, h.count, fields);
}

// An opened column: 12 if a buffer is too short, 13 if it is no column, and else its pairs.
fn read_opened(bytes: &[u8], c: Column, ids: &mut [u32], values: &mut [i64]) -> Result<u64, Refusal>
    requires { open_column editions bytes.now ≡ done (column_of c) }
    ensures { Answered (reading editions bytes.now (length ids.old) (length values.old))
        result ids.old ids.new values.old values.new }
{
    let h = c.head;
    let n = size(h.count);
    if ids.len() < n {
        return Err(Refusal::Buffer(h.count));
    }
    if values.len() < n {
        return Err(Refusal::Buffer(h.count));
    }
    if !checking::accepts(bytes, c) {
        return Err(Refusal::Damaged);
    }
    read_ids(bytes, c, ids);
    read_values(bytes, c, values);
    Ok(h.count)
}

// n for a column, whose pairs then are the first n places of both buffers; and else the first refusal, with both as they were.
pub fn read(bytes: &[u8], ids: &mut [u32], values: &mut [i64]) -> Result<u64, Refusal>
    ensures reply { reply_of result ≡ read_reply (reading editions bytes.now (length ids.old) (length values.old)) }
    ensures in_ids { ids.new
        ≡ ids_after (reading editions bytes.now (length ids.old) (length values.old)) ids.old }
    ensures in_values { values.new
        ≡ values_after (reading editions bytes.now (length ids.old) (length values.old)) values.old }
{
    read_opened(bytes, Column::open(bytes)?, ids, values)
}
