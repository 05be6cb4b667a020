// The types of the library's answers, and those that its crates hand to each other; specs/Replies.antt gives the paper's number and values for
// each of their cases.
#![tactic(auto)]

ghost use Rattle.std.specs.Prelude.{◌≡◌};
ghost use Rattle.format.specs.Next.{new_cursor};
ghost use Rattle.answers.specs.Replies.{refusal_number, refusal_with, reason_number};

// Document 01's refusals, and document 02's BACK ([1]) and PLAN ([12]), each with the number that goes with it, where that is not always 0; for SHORT and
// NUMBER it is document 02's ([4]). There is no OFFSET, which cannot happen (document 02, [7]).
#[derive(Clone, Copy, Debug, PartialEq, Eq)]
pub enum Refusal {
    Lengths,
    Power,
    Order(u64),
    Range(u64),
    Room(u64),
    Short(u64),
    Number(u64),
    Edition,
    Header,
    Length,
    Buffer(u64),
    Damaged,
    Id,
    Broken,
    Back,
    Plan,
}

// What a look-up finds of an id that is not refused.
#[derive(Clone, Copy, Debug, PartialEq, Eq)]
pub enum Look {
    Found {
        ordinal: u64,
        value: i64,
        words: u64,
        probes: u64,
    },
    Absent {
        words: u64,
        probes: u64,
    },
}

// The kind of an answer, where a number tells it: found, absent, or else the refusal's number (document 02, [3]).
pub const FOUND: u64 = 0;

pub const ABSENT: u64 = 1;

// The last target that was answered (document 02, [1]). Any is fit.
#[derive(Clone, Copy, Debug, PartialEq, Eq)]
pub struct Cursor {
    pub last: u64,
}

impl Cursor {
    // Below a new one lies no target.
    pub fn new() -> Cursor
        ensures { result.last ≡ new_cursor }
    {
        Cursor { last: 0 }
    }
}

// A listed id with its ordinal and value. (These two stand apart: next to each other, a caller reads them as one number of 16 bytes just after they
// were written as two, which stalls.)
#[derive(Clone, Copy, Debug, PartialEq, Eq)]
pub struct Pair {
    pub ordinal: u64,
    pub id: u32,
    pub value: i64,
}

// What a call for the next candidate answers, the next pair or none, with the cursor afterwards.
#[derive(Clone, Copy, Debug, PartialEq, Eq)]
pub struct Next {
    pub cursor: Cursor,
    pub candidate: Result<Option<Pair>, Refusal>,
}

// Pairs from an id on: so many, above which more are listed (or a step fails); or so many, and no listed id is left.
#[derive(Clone, Copy, Debug, PartialEq, Eq)]
pub enum Readout {
    More(u64),
    Ended(u64),
}

// The byte order of an id section's shorts, ints and longs (document 02, [9]): low byte first as Lucene 9 writes them, or high byte first
// as Lucene 8 does.
#[derive(Clone, Copy, Debug, PartialEq, Eq)]
pub enum ByteOrder {
    LowFirst,
    HighFirst,
}

// Why an id section is faulty, in the order in which document 02, [9] tests it.
#[derive(Clone, Copy, Debug, PartialEq, Eq)]
pub enum Reason {
    CutOff,
    BlockOrder,
    PlaceOrder,
    OnesUnlike,
    RankWrong,
    EndWrong,
    JumpWrong,
    LeftOver,
}

// Why the judge of an id section does not accept it: a reason and the fault's place in the section, or that the entry count or the power is
// outside document 01's limits.
#[derive(Clone, Copy, Debug, PartialEq, Eq)]
pub enum Rejection {
    Faulty(Reason, u64),
    Header,
}

// What the header says of the values, in the words of its edition: the numbers 6 to 8 (the smallest value as its header number).
#[derive(Clone, Copy, Debug, PartialEq, Eq)]
pub struct Fields {
    pub width: u64,
    pub smallest: u64,
    pub divisor: u64,
}

impl Refusal {
    // The refusal's number.
    pub fn number(self) -> u64
        ensures { result ≡ refusal_number self }
    {
        match self {
            Refusal::Lengths => 1,
            Refusal::Power => 2,
            Refusal::Order(_) => 3,
            Refusal::Range(_) => 4,
            // 5 is not used: it was OFFSET, which cannot happen (document 02, [7])
            Refusal::Room(_) => 6,
            Refusal::Short(_) => 7,
            Refusal::Number(_) => 8,
            Refusal::Edition => 9,
            Refusal::Header => 10,
            Refusal::Length => 11,
            Refusal::Buffer(_) => 12,
            Refusal::Damaged => 13,
            Refusal::Id => 14,
            Refusal::Broken => 15,
            Refusal::Back => 16,
            Refusal::Plan => 17,
        }
    }

    // The number with it: an index, the bytes or the places needed, the byte count or the place of a byte (document 02, [4]), or 0.
    pub fn number_with(self) -> u64
        ensures { result ≡ refusal_with self }
    {
        match self {
            Refusal::Order(n)
            | Refusal::Range(n)
            | Refusal::Room(n)
            | Refusal::Short(n)
            | Refusal::Number(n)
            | Refusal::Buffer(n) => n,
            _ => 0,
        }
    }
}

impl Reason {
    // The reason's number, 1 to 8.
    pub fn number(self) -> u64
        ensures { result ≡ reason_number self }
    {
        match self {
            Reason::CutOff => 1,
            Reason::BlockOrder => 2,
            Reason::PlaceOrder => 3,
            Reason::OnesUnlike => 4,
            Reason::RankWrong => 5,
            Reason::EndWrong => 6,
            Reason::JumpWrong => 7,
            Reason::LeftOver => 8,
        }
    }
}
