// The calls on a set on disk (document 02, [14]).
ghost use Rattle.std.specs.Prelude.{◌≡◌, length};
ghost use Rattle.format.specs.Writer.{write_reply, write_out};
ghost use Rattle.format.specs.SetBytes.{set_write};
ghost use Rattle.format.specs.SetCalls.{set_check, set_find};
ghost use Rattle.answers.specs.Words.{reply_words, member_words};

use boundary::sets;

#[unsafe(no_mangle)]
pub extern "C" fn signalfern_set_write_to(ids: &[u32], out: &mut [u8], reply: &mut [u64; 2])
    ensures replies { reply.new ≡ reply_words (write_reply (set_write ids.now (length out.old))) }
    ensures written { out.new ≡ write_out (set_write ids.now (length out.old)) out.old }
{
    let told = signalfern::set_write(ids, out);
    boundary::put_reply(reply, told);
}

#[unsafe(no_mangle)]
pub extern "C" fn signalfern_set_check_to(bytes: &[u8], reply: &mut [u64; 2])
    ensures { reply.new ≡ reply_words (set_check bytes.now) }
{
    let told = signalfern::set_check(bytes);
    boundary::put_reply(reply, told);
}

#[unsafe(no_mangle)]
pub extern "C" fn signalfern_set_find_to(bytes: &[u8], id: u32, member: &mut [u64; 3])
    ensures { member.new ≡ member_words (set_find bytes.now id) }
{
    let told = signalfern::set_find(bytes, id);
    sets::put_member(member, told);
}
