// Demands 1 and 3 for a correction on top of a machine column (document 02, [10]).
ghost use Rattle.std.specs.Prelude.{◌≡◌, ℕ, ◌≤◌};
ghost use Rattle.format.specs.Limits.{max_id};
ghost use Rattle.format.specs.Refusals.{done};
ghost use Rattle.format.specs.Editions.{editions};
ghost use Rattle.format.specs.Opening.{Opened, open_column};
ghost use Rattle.format.specs.LookUp.{absent, look_up};
ghost use Rattle.format.specs.Layered.{Layer, machine, correction, of_layer, refused_by, look_up_layered, Part, lists_part, IsPart};
ghost use Rattle.layered.specs.Answers.{layered_of, part_of, words_in};
ghost use Rattle.demands.specs.Terms.{HeaderTold, WordsBound, Holds, pairs_of, LayeredAnswers};
ghost use Rattle.demands.specs.Tables.{LayeredSays, PartSays};

use layered::{LayerRefusal, LayeredLook};

// The correction's look-up decides, and the machine column's for an id that is absent there. On any bytes each column's words are within the bound of its
// own rank power; on bytes that hold lists the answer is theirs and that of their walks.
pub fn look_up_layered(below: &[u8], above: &[u8], id: u32) -> Result<LayeredLook, LayerRefusal>
    ensures says { LayeredSays (look_up editions above.now id) (look_up editions below.now id) (layered_of result) }
    ensures top_header { HeaderTold editions above.now (id ≤ max_id) (λ why w. layered_of result ≡ refused_by correction why w) }
    ensures below_header { HeaderTold editions below.now ((k : ℕ) × (look_up editions above.now id ≡ done (absent k)))
        (λ why w. layered_of result ≡ refused_by machine why w) }
    ensures words { (layer : Layer) (c : Opened) → open_column editions (of_layer below.now above.now layer) ≡ done c
        → WordsBound c.head.power (words_in layer result) }
    ensures answers { (i j : ℕ) (x : Holds below.now i) (y : Holds above.now j) → id ≤ max_id → LayeredAnswers x y id (layered_of result) }
{
    signalfern::look_up_layered(below, above, id)
}

// The value section of the column that holds the id, the correction's where both do, as a part of the lent bytes; absent or refused, an empty part of the
// machine column.
pub fn layered_values<'a>(below: &'a [u8], above: &'a [u8], id: u32) -> &'a [u8]
    ensures says { (p : Part) × PartSays below.now above.now (look_up_layered editions below.now above.now id) p
        × IsPart result below.entry above.entry p }
    ensures by_lists { (i j : ℕ) (x : Holds below.now i) (y : Holds above.now j) (u v : Opened)
        → open_column editions below.now ≡ done u → open_column editions above.now ≡ done v → id ≤ max_id
        → IsPart result below.entry above.entry (lists_part u (pairs_of x) v (pairs_of y) id) }
{
    signalfern::layered_values(below, above, id)
}

// The same part as numbers.
pub fn layered_part(below: &[u8], above: &[u8], id: u32) -> layered::Part
    ensures says { PartSays below.now above.now (look_up_layered editions below.now above.now id) (part_of result) }
    ensures by_lists { (i j : ℕ) (x : Holds below.now i) (y : Holds above.now j) (u v : Opened)
        → open_column editions below.now ≡ done u → open_column editions above.now ≡ done v → id ≤ max_id
        → part_of result ≡ lists_part u (pairs_of x) v (pairs_of y) id }
{
    signalfern::layered_part(below, above, id)
}
