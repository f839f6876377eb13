// The answer of mending: both counts are written and no refusal returned, or the refusal is returned and the cells are as they were.
#![tactic(auto, unfolding(crate::specs::Handed::refusal_in, crate::specs::Handed::told))]

ghost use Rattle.std.specs.Prelude.{◌≡◌};
ghost use Rattle.refusals.specs.Answers.{answered, tested};
ghost use Rattle.handed.specs.Handed.{refusal_in, told};
ghost use Rattle.handed.specs.Mends.{remaining_in, dropped_in};

use mending::answer::Sizes;
use refusals::Refusal;

// How many vertices remain, and how many were dropped.
pub fn hand_mended(
    answer: Result<Sizes, Refusal>,
    vertices: &mut u64,
    count: &mut u64,
) -> Result<(), Refusal>
    ensures { (tested result ≡ refusal_in (answered answer))
        × (vertices.new ≡ told remaining_in (answered answer) vertices.old)
        × (count.new ≡ told dropped_in (answered answer) count.old) }
{
    let sizes = answer?;
    *vertices = sizes.vertices as u64;
    *count = sizes.dropped as u64;
    Ok(())
}
