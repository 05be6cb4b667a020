// The limits of documents 01 and 02, each with one name and one place, as format/specs has them for the definitions. Those of a column are
// associated constants of its type (`Column`), as document 01 wants it; the crates below that type take them from here. A number here is held to
// its definition by the contract of each function that goes by it.

// ---- document 01, "Limits, each with one name and one place"

// The greatest id, and the most pairs: one for each id.
#![tactic(auto)]

pub const MAX_ID: u32 = 2147352575;

pub const MAX_COUNT: u64 = 2147352576;

// A rank power is 0 or between these.
pub const MIN_POWER: u64 = 7;

pub const MAX_POWER: u64 = 15;

// The most jump entries.
pub const MAX_JUMPS: u64 = 32767;

// The greatest width of a stored number.
pub const MAX_WIDTH: u64 = 64;

// The block of the greatest id, and the most blocks: one for each number.
pub const MAX_BLOCK: u64 = 32765;

pub const MAX_BLOCKS: u64 = MAX_BLOCK + 1;

// ---- document 02, [12]

// The fewest and the most entries of a table.
pub const MIN_ENTRIES: usize = 2;

pub const MAX_ENTRIES: usize = 256;
