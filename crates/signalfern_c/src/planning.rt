// The calls on plans for C (document 02, [12]).
ghost use Rattle.std.specs.Prelude.{◌≡◌, length};
ghost use Rattle.format.specs.Plan.{plan};
ghost use Rattle.format.specs.Writer.{write_planned, write_reply, write_out};
ghost use Rattle.answers.specs.Words.{reply_words};

#[unsafe(no_mangle)]
pub extern "C" fn signalfern_write_planned_to(
    ids: &[u32],
    values: &[i64],
    table: &[i64],
    power: u32,
    out: &mut [u8],
    reply: &mut [u64; 2],
)
    ensures replies { reply.new
        ≡ reply_words (write_reply (write_planned power ids.now values.now table.now (length out.old))) }
    ensures written { out.new
        ≡ write_out (write_planned power ids.now values.now table.now (length out.old)) out.old }
{
    let told = signalfern::write_planned(ids, values, table, power, out);
    boundary::put_reply(reply, told);
}

#[unsafe(no_mangle)]
pub extern "C" fn signalfern_plan_to(values: &[i64], table: &mut [i64], reply: &mut [u64; 2])
    ensures replies { reply.new ≡ reply_words (write_reply (plan values.now (length table.old))) }
    ensures proposed { table.new ≡ write_out (plan values.now (length table.old)) table.old }
{
    let told = signalfern::plan(values, table);
    boundary::put_reply(reply, told);
}
