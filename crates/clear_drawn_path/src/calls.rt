// The public call: clear_path.
#![tactic(auto, using(crate::proofs::Drawn::path_tested, refusals::proofs::Tests::refused))]

ghost use Rattle.std.specs.Prelude.{◌≡◌};
ghost use Rattle.refusals.specs.Answers.{answered};
ghost use Rattle.clear_drawn_path.specs.Calls.{clear_path_call};

use crate::{PathFound, path_found};
use drawn_rows::drawn_path;
use refusals::Refusal;

// Whether the disc, as drawn, is found to be clear of the stationary polygon on each leg of a path but for a depth, where it is
// closed on that from the last point to the first too; else the first leg that is not, and why.
pub fn clear_path(
    stationary: &[f64],
    orbiting: &[f64],
    path: &[f64],
    closed: bool,
    units: u32,
) -> Result<PathFound, Refusal>
    ensures { answered result ≡ clear_path_call stationary.now orbiting.now path.now closed units }
{
    drawn_path(stationary, orbiting, path, units)?;
    Ok(path_found(stationary, orbiting, path, closed, units))
}
