// What a caller is told of a refusal.
#![tactic(auto, unfolding(crate::specs::Handed::place_of, refusals::specs::Refusals::tells_place))]

ghost use Rattle.std.specs.Prelude.{◌≡◌};
ghost use Rattle.refusals.specs.Answers.{tested};
ghost use Rattle.handed.specs.Handed.{place_of};

use refusals::Refusal;

// The refusal's number, 0 for none.
pub fn refusal_number(handed: Result<(), Refusal>) -> u32
    ensures { result ≡ (tested handed).number }
{
    match handed {
        Ok(()) => 0,
        Err(refusal) => refusal.number(),
    }
}

// The refusal's number, 0 for none; and its place, where it tells one: the cell is not written otherwise.
pub fn hand_refusal(handed: Result<(), Refusal>, place: &mut u64) -> u32
    ensures value { result ≡ (tested handed).number }
    ensures place_after { place.new ≡ place_of (tested handed) place.old }
{
    match handed {
        Ok(()) => 0,
        Err(refusal) => {
            if let Some(at) = refusal.place() {
                *place = at;
            }
            refusal.number()
        }
    }
}
