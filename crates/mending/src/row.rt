// The tests of a ring to mend, of what is left of it, and of the three rooms.
ghost use Rattle.std.specs.Prelude.{◌≡◌, ◌≤◌};
ghost use Rattle.refusals.specs.Answers.{tested};
ghost use Rattle.mending.specs.Rows.{of_mendable, of_mending};

use refusals::lists::fault;
use refusals::row::rooms;
use refusals::screen::{fit, numbers, unless};
use refusals::{Refusal, VERTICES_LEAST, VERTICES_MOST};

// A ring of 1 to 256 vertices. The numbers of one with a fault are not read.
#[tactic(auto, using(refusals::proofs::Tests::refused), unfolding(crate::specs::Rows::of_mendable))]
pub fn mendable(ring: &[f64]) -> Result<(), Refusal>
    ensures { tested result ≡ of_mendable ring.now }
{
    fault(ring.len(), 2, 1, VERTICES_MOST, 0)?;
    numbers(ring)
}

// What is left of a ring, then the rooms for it and for what is dropped.
#[tactic(auto, using(refusals::proofs::Tests::refused), unfolding(crate::specs::Rows::of_mending))]
pub fn mending(
    remaining: usize,
    gone: usize,
    room: usize,
    dropped: usize,
    points: usize,
) -> Result<(), Refusal>
    requires remaining_bound { remaining ≤ 256 }
    requires gone_bound { gone ≤ 256 }
    ensures { tested result ≡ of_mending remaining gone room dropped points }
{
    unless(VERTICES_LEAST <= remaining, Refusal::Remaining)?;
    fit(2 * remaining, room)?;
    rooms(2 * gone, dropped, 2 * gone, points)
}
