// Plans (document 02, [12]): demands 1 and 2 for the writer that takes one, the planner, and that what `plan` leaves in the lent table `write_planned` takes.
ghost use Rattle.std.specs.Prelude.{◌≡◌, true, false, List, ◌++◌, ◌∷◌, ◌↔◌, ℕ, ◌≤◌, ◌<◌, ℤ, length, drop};
ghost use Rattle.format.specs.Limits.{max_count};
ghost use Rattle.format.specs.Refusals.{done, refused, BUFFER, PLAN};
ghost use Rattle.format.specs.Editions.{table};
ghost use Rattle.format.specs.Plan.{plan_ok, plan_edition};
ghost use Rattle.format.specs.Column.{column};
ghost use Rattle.answers.specs.Replies.{reply_of};
ghost use Rattle.format.specs.Says.{Within, PlannedSays, PlanSays};
ghost use Rattle.demands.specs.Terms.{IfRefused, Told, Allowed, column_in, Writes, ComesBack};

use answers::Refusal;

// An allowed list and a plan that the small check takes give exactly the column of the plan's edition whenever there is room, and else ROOM; 17 exactly
// where all else but the room is in order and the small check does not take the plan.
pub fn write_planned(
    ids: &[u32],
    values: &[i64],
    table: &[i64],
    power: u32,
    out: &mut [u8],
) -> Result<u64, Refusal>
    ensures says { Told (PlannedSays power ids.now values.now table.now (length out.old))
        out.old out.new result }
    ensures refused { IfRefused result (out.new ≡ out.old) }
    ensures writes { Allowed power ids.now values.now → plan_ok table.now values.now ≡ true
        → Writes (column (plan_edition table.now) power ids.now values.now) out.old out.new result }
    ensures seventeen { (w : ℕ) → (reply_of result ≡ refused PLAN w) ↔ ((length ids.now ≡ length values.now) × Within power ids.now
        × (plan_ok table.now values.now ≡ false) × (w ≡ 0)) }
{
    signalfern::write_planned(ids, values, table, power, out)
}

// BUFFER with 256 exactly for a shorter table. Else the table that the small check takes for these values, wherever it takes one, in the first places; and
// plain, which is no entry, where it takes none.
pub fn plan(values: &[i64], lent: &mut [i64]) -> Result<u64, Refusal>
    ensures says { Told (PlanSays values.now (length lent.old)) lent.old lent.new result }
    ensures refused { IfRefused result (lent.new ≡ lent.old) }
    ensures a_table { 256 ≤ length lent.old → length values.now ≤ max_count → (u : ℤ) (us : List ℤ)
        → plan_ok (u ∷ us) values.now ≡ true
        → (reply_of result ≡ done (length (u ∷ us))) × (lent.new ≡ (u ∷ us) ++ drop (length (u ∷ us)) lent.old) }
    ensures plain { 256 ≤ length lent.old → ((u : ℤ) (us : List ℤ) → plan_ok (u ∷ us) values.now ≡ false)
        → (reply_of result ≡ done 0) × (lent.new ≡ lent.old) }
{
    signalfern::plan(values, lent)
}

// What the planner left in the lent table is taken for the same values: never 17, and the bytes are those of edition 4 ("The writer told edition 4 takes
// the plan; plain gives edition 1"), as if `write` were told it.
pub fn plan_then_write(
    ids: &[u32],
    values: &[i64],
    lent: &mut [i64],
    power: u32,
    out: &mut [u8],
) -> Result<u64, Refusal>
    ensures writes { 256 ≤ length lent.old → Allowed power ids.now values.now
        → Writes (column_in table power ids.now values.now) out.old out.new result }
    ensures taken { (w : ℕ) → reply_of result ≡ refused PLAN w → ⊥ }
    ensures no_buffer { length lent.old < 256 → (reply_of result ≡ refused BUFFER 256) × (out.new ≡ out.old) }
{
    let n = signalfern::plan(values, lent)?;
    let end = n as usize;
    signalfern::write_planned(ids, values, &lent[0..end], power, out)
}

// What was written by a plan, the check accepts with the number of ids, and the reading gives back.
pub fn planned_then_check_then_read(
    ids: &[u32],
    values: &[i64],
    table: &[i64],
    power: u32,
    out: &mut [u8],
    ids_back: &mut [u32],
    values_back: &mut [i64],
) -> crate::Trip
    ensures { ComesBack ids.now values.now ids_back.old ids_back.new values_back.old
        values_back.new result.wrote result.checked result.read }
{
    crate::fits::each_fits(values);
    let wrote = signalfern::write_planned(ids, values, table, power, out);
    crate::come_back(wrote, out, ids_back, values_back)
}
