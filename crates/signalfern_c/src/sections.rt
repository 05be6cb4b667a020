// The judge of a bare id section (document 02, [9]).
ghost use Rattle.std.specs.Prelude.{◌≡◌};
ghost use Rattle.format.specs.Judge.{judge_section};
ghost use Rattle.answers.specs.Words.{order_in, judgement_words};

use boundary::sections;

#[unsafe(no_mangle)]
pub extern "C" fn signalfern_judge_section_to(
    bytes: &[u8],
    jump_count: u64,
    power: u64,
    high_first: u32,
    judgement: &mut [u64; 4],
)
    ensures { judgement.new ≡ judgement_words (judge_section (order_in high_first) power jump_count bytes.now) }
{
    let told = signalfern::judge_section(bytes, jump_count, power, sections::order_in(high_first));
    sections::put_judgement(judgement, told);
}
