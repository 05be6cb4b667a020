// The answers on a machine column and a correction (document 02, [10]), made of the words of two look-ups. A part is told to C by numbers:
// no reference is handed out.
ghost use Rattle.std.specs.Prelude.{◌≡◌, ℕ, get_or};
ghost use Rattle.format.specs.Refusals.{Outcome};
ghost use Rattle.format.specs.LookUp.{Look};
ghost use Rattle.format.specs.Layered.{layer_number, underneath, on_top};
ghost use Rattle.answers.specs.Words.{answer_words, layered_words, part_words, layered_page_words, layered_readout_words};
ghost use Rattle.layered.specs.Answers.{layer_of, part_of, layered_reply_of, layered_readout_of};
ghost use Rattle.boundary.specs.Kinds.{Apart};

use super::refused;
use answers::{Readout, Refusal};
use layered::{Layer, LayerRefusal, LayeredWords, Part};

// signalfern_layered, where the correction's look-up, told so, does not say absent.
pub fn put_on_top(out: &mut [u64; 7], told: &[u64; 6])
    ensures { (n : ℕ) (above below : Outcome Look) → told.now ≡ answer_words n above → (get_or told.now 0 0 ≡ 1 → ⊥)
        → out.new ≡ layered_words (on_top above below) }
{
    *out = [told[0], told[1], 1, told[2], told[3], 0, told[4]];
}

// The same by the machine column's look-up, where so many words were counted in the correction. A refusal tells no words.
pub fn put_underneath(out: &mut [u64; 7], counted: u64, told: &[u64; 6])
    ensures { (n : ℕ) (below : Outcome Look) → told.now ≡ answer_words n below → Apart below
        → out.new ≡ layered_words (underneath counted below) }
{
    if 1 < told[0] {
        *out = [told[0], told[1], 0, 0, 0, 0, 0];
        return;
    }
    *out = [told[0], told[1], 0, told[2], told[3], told[4], counted];
}

fn layer_word(layer: Layer) -> u64
    ensures { result ≡ layer_number (layer_of layer) }
{
    match layer {
        Layer::Machine => 0,
        Layer::Correction => 1,
    }
}

// signalfern_part
pub fn put_part(out: &mut [u64; 3], part: Part)
    ensures { out.new ≡ part_words (part_of part) }
{
    let layer = part.layer;
    *out = [layer_word(layer), part.start as u64, part.len as u64];
}

// signalfern_layered_page, for so many ids.
pub fn put_layered_page(out: &mut [u64; 4], reply: Result<LayeredWords, Refusal>, n: usize)
    ensures { out.new ≡ layered_page_words n (layered_reply_of reply) }
{
    match reply {
        Ok(
            LayeredWords {
                machine_words,
                correction_words,
            },
        ) => {
            *out = [0, n as u64, machine_words, correction_words];
        }
        Err(why) => {
            *out = refused(why);
        }
    }
}

// signalfern_layered_readout
pub fn put_layered_readout(out: &mut [u64; 4], readout: Result<Readout, LayerRefusal>)
    ensures { out.new ≡ layered_readout_words (layered_readout_of readout) }
{
    match readout {
        Ok(Readout::More(n)) => {
            *out = [0, 0, 0, n];
        }
        Ok(Readout::Ended(n)) => {
            *out = [1, 0, 0, n];
        }
        Err(LayerRefusal { layer, why }) => {
            *out = [why.number(), why.number_with(), layer_word(layer), 0];
        }
    }
}
