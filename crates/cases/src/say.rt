// What is written to standard output, and the count of cases and of those that came out otherwise. A line that it does not take is passed over, and
// the program goes on: it does not fail for what is not read.

#[derive(Clone, Copy, Debug, Default, PartialEq, Eq)]
pub struct Tally {
    cases: u64,
    wrong: u64,
}

impl Tally {
    // One case more.
    pub fn add(&mut self, right: bool) {
        self.cases = self.cases.wrapping_add(1);
        self.wrong = self.wrong.wrapping_add(u64::from(!right));
    }
}

// One case more, with a line of its own.
pub fn case(rt: &impl Print, t: &mut Tally, name: &str, right: bool) {
    t.add(right);
    let found = if right { "as expected" } else { "OTHERWISE" };
    let _ = println!(rt; "{name}: {found}");
}

// Several cases more, each done by both in that way, in one line.
pub fn by_both(rt: &impl Print, t: &mut Tally, name: &str, done: &str, more: Tally) {
    t.cases = t.cases.wrapping_add(more.cases);
    t.wrong = t.wrong.wrapping_add(more.wrong);
    let cases = more.cases;
    let right = cases.wrapping_sub(more.wrong);
    let _ = println!(rt; "{name}: {cases} {done} by both, {right} agree");
}

pub fn total(rt: &impl Print, t: Tally) {
    let cases = t.cases;
    let wrong = t.wrong;
    let _ = println!(rt; "{cases} cases, {wrong} disagreements");
}
