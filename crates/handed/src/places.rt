// The answer of a shift: the start that follows, and how many places were written. The function writes both and returns no refusal, or returns the
// refusal and leaves the cells as they were.
#![tactic(auto, unfolding(crate::specs::Handed::refusal_in, crate::specs::Handed::told))]

ghost use Rattle.std.specs.Prelude.{◌≡◌};
ghost use Rattle.refusals.specs.Answers.{answered, tested};
ghost use Rattle.handed.specs.Handed.{refusal_in, told};
ghost use Rattle.handed.specs.Places.{places_in, following_in};

use inspection::Shift;
use refusals::Refusal;

// The following start, and the number of places.
pub fn hand_inspected(
    answer: Result<Shift, Refusal>,
    start: &mut u64,
    count: &mut u64,
) -> Result<(), Refusal>
    ensures { (tested result ≡ refusal_in (answered answer))
        × (start.new ≡ told following_in (answered answer) start.old)
        × (count.new ≡ told places_in (answered answer) count.old) }
{
    let shift = answer?;
    *start = shift.following;
    *count = shift.places as u64;
    Ok(())
}
