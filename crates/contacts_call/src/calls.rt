// The public call: find_contacts.
#![tactic(auto, using(refusals::proofs::Tests::refused, crate::proofs::Screened::lent_is), unfolding(crate::specs::Calls::find_refusal))]

ghost use Rattle.std.specs.Prelude.{◌≡◌, length};
ghost use Rattle.refusals.specs.Answers.{answered};
ghost use Rattle.contacts_call.specs.Calls.{find_call, find_which, find_points};

use crate::write::answer;
use refusals::{Refusal, row};

// The contacts of two polygons: per contact kind, stationary index, orbiting index and foot in `which`, x and y in `points`.
pub fn find_contacts(
    stationary: &[f64],
    orbiting: &[f64],
    tolerance: f64,
    which: &mut [u64],
    points: &mut [f64],
) -> Result<usize, Refusal>
    ensures { (answered result ≡ find_call stationary.now orbiting.now tolerance (length which.old)
        (length points.old))
        × (which.new ≡ find_which stationary.now orbiting.now tolerance which.old
        points.old)
        × (points.new ≡ find_points stationary.now orbiting.now tolerance which.old
        points.old) }
{
    row::touching(stationary, orbiting, tolerance)?;
    answer(stationary, orbiting, tolerance, which, points)
}
