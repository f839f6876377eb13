// The public call: clear_path.
#![tactic(auto, using(crate::proofs::Placed::path_lent, refusals::proofs::Tests::refused))]

ghost use Rattle.std.specs.Prelude.{◌≡◌};
ghost use Rattle.refusals.specs.Answers.{answered};
ghost use Rattle.clear_path.specs.Calls.{clear_path_call};

use crate::{PathGround, path_ground, row};
use refusals::Refusal;

// Whether the orbiting polygon, as drawn, is found to be clear of the stationary one on each leg of a path, the last leading back
// to the first point; else the first leg that is not, and why.
pub fn clear_path(stationary: &[i32], orbiting: &[i32], path: &[i32]) -> Result<PathGround, Refusal>
    ensures { answered result ≡ clear_path_call stationary.now orbiting.now path.now }
{
    row::whole_path(stationary, orbiting, path)?;
    Ok(path_ground(stationary, orbiting, path))
}
