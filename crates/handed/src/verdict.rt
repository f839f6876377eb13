// The verdict on a path. On an answer the fault's number is written, and its index only where there is a fault; a refusal leaves the cells as they were.
#![tactic(auto, unfolding(crate::specs::Handed::refusal_in, crate::specs::Handed::told, crate::specs::Handed::told_found, crate::specs::Verdicts::fault_number, crate::specs::Verdicts::fault_index))]

ghost use Rattle.std.specs.Prelude.{◌≡◌};
ghost use Rattle.refusals.specs.Answers.{answered, tested};
ghost use Rattle.handed.specs.Handed.{refusal_in, told, told_found, itself};
ghost use Rattle.handed.specs.Verdicts.{fault_number, index_in};

use path_check::Fault;
use refusals::Refusal;

// The fault's number, and the index of the point at which it is or from which the leg leads on.
pub fn hand_verdict(
    answer: Result<Option<Fault>, Refusal>,
    fault: &mut u32,
    index: &mut u64,
) -> Result<(), Refusal>
    ensures { (tested result ≡ refusal_in (answered answer))
        × (fault.new ≡ told fault_number (answered answer) fault.old)
        × (index.new ≡ told_found itself (index_in (answered answer)) index.old) }
{
    match answer? {
        None => *fault = 0,
        Some(Fault::Point(i)) => {
            *fault = 1;
            *index = i as u64;
        }
        Some(Fault::Leg(i)) => {
            *fault = 2;
            *index = i as u64;
        }
    }
    Ok(())
}
