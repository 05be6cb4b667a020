// The runs of ids: those of one block after those of another. The passes of the writers go over them.
ghost use Rattle.std.specs.Prelude.{◌≡◌, ◌/◌, ◌≤◌, ◌<◌, ◌==◌, length, get_or, take, drop};
ghost use Rattle.std.specs.Iterator.{at_most};
ghost use Rattle.format.specs.Pairs.{Asc};
ghost use Rattle.format.specs.Limits.{block_places};
ghost use Rattle.section_writer.specs.Ascending.{asc_prop};
ghost use Rattle.section_writer.specs.Good.{Begins};
ghost use Rattle.section_writer.specs.Given.{GivesRun};

use blocks::Block;

// So many ids are looked at first: most runs of a sparse list end among them, and a search among all that a block can have takes sixteen probes.
const FEW: usize = 16;

// Among how many ids the run of block b ends: the first few, unless the last of those is in the block too; else as many as a block has places.
fn searched(ids: &[u32], b: usize) -> usize
    requires { (0 < length ids.now) × Asc 0 ids.now × (b ≡ get_or ids.now 0 0 / block_places) }
    ensures { (result ≤ length ids.now) × (result < length ids.now → get_or ids.now result 0 / block_places ≡ b → ⊥) }
{
    let most = ids.len().min(Block::PLACES);
    let few = most.min(FEW);
    let last = ids[few - 1];
    if blocks::number_of(last) == b {
        return most;
    }
    few
}

// How many ids of the first one's block there are: since the ids ascend, they stand together, and are no more than a block's places.
fn run_len(ids: &[u32]) -> usize
    requires { (0 < length ids.now) × Asc 0 ids.now }
    ensures { (result ≤ length ids.now) × Begins ids.now (take result ids.now) (drop result ids.now) }
{
    let b = blocks::number_of(ids[0]);
    let n = searched(ids, b);
    ids[..n].partition_point(
        |id| -> bool
            ensures { result ≡ (id.now / block_places == b) }
        { blocks::number_of(*id) == b },
    )
}

// What is left of ids that ascend.
#[derive(Drop)]
pub struct Runs<'a> {
    pub rest: &'a [u32],
    ghost up: { Asc 0 rest.now } by { asc_prop 0 rest.now },
}

impl<'a> Iterator for Runs<'a> {
    type Item = &'a [u32];

    ghost next_gives = { λ old given new. GivesRun old.rest.now given new.rest.now };

    ghost remaining = { λ runs. at_most (length runs.rest.now) };

    fn next(&mut self) -> Option<&'a [u32]> {
        if self.rest.is_empty() {
            return None;
        }
        let (run, rest) = self.rest.split_at(run_len(self.rest));
        self.rest = rest;
        Some(run)
    }
}
