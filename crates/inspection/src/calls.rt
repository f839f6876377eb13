// The public call: next_places.
ghost use Rattle.std.specs.Prelude.{◌≡◌, length};
ghost use Rattle.refusals.specs.Answers.{answered, tested};
ghost use Rattle.inspection.specs.Calls.{one_to, of_shift, next_places_call, next_places_room};

use crate::Shift;
use refusals::{Refusal, screen};

// The most places of a path, and the most that one shift inspects.
const PATH_MOST: u64 = 10001;

const SHIFT_MOST: u64 = 64;

// Whether a number is 1 at least, and at most so much.
fn one_to(most: u64, x: u64) -> bool
    ensures { result ≡ one_to most x }
{
    if 1 <= x { x <= most } else { false }
}

// The path's places, the shift's and the start, in this order.
#[tactic(auto, using(refusals::proofs::Tests::refused), unfolding(crate::specs::Calls::of_shift))]
fn lent(n: u64, k: u64, start: u64) -> Result<(), Refusal>
    ensures { tested result ≡ of_shift n k start }
{
    screen::unless(one_to(PATH_MOST, n), Refusal::Inspection)?;
    screen::unless(one_to(SHIFT_MOST, k), Refusal::Inspection)?;
    screen::unless(start < n, Refusal::Inspection)
}

// The next k places of a path of n, or all where n is smaller, from the start on, in the room: how many they are, and the
// following start.
#[tactic(auto, using(crate::proofs::Screened::start_below, refusals::proofs::Tests::refused), unfolding(crate::specs::Calls::next_refusal))]
pub fn next_places(n: u64, k: u64, start: u64, room: &mut [u64]) -> Result<Shift, Refusal>
    ensures result_value { answered result ≡ next_places_call n k start (length room.old) }
    ensures room_after { room.new ≡ next_places_room n k start room.old }
{
    let m = crate::per_shift(n, k) as usize;
    lent(n, k, start)?;
    screen::fit(m, room.len())?;
    let following = crate::lay(n, start, m, room);
    Ok(Shift {
        places: m,
        following,
    })
}
