// Answers that are an integer. The function writes the answer and returns no refusal, or returns the refusal and leaves the cell as it was.
#![tactic(auto, unfolding(crate::specs::Handed::refusal_in, crate::specs::Handed::told))]

ghost use Rattle.std.specs.Prelude.{◌≡◌};
ghost use Rattle.refusals.specs.Answers.{answered, tested};
ghost use Rattle.handed.specs.Handed.{refusal_in, told, itself};

use refusals::Refusal;

// An integer.
pub fn hand_integer(answer: Result<i64, Refusal>, out: &mut i64) -> Result<(), Refusal>
    ensures { (tested result ≡ refusal_in (answered answer)) × (out.new ≡ told itself (answered answer) out.old) }
{
    *out = answer?;
    Ok(())
}
