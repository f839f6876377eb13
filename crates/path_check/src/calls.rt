// The public call: check_path.
#![tactic(auto, using(refusals::proofs::Tests::refused))]

ghost use Rattle.std.specs.Prelude.{◌≡◌};
ghost use Rattle.refusals.specs.Answers.{answered};
ghost use Rattle.path_check.specs.Calls.{path_call};

use crate::{Fault, path_fault, row};
use refusals::{Refusal, Settings};

// The first fault of a path of the orbiting polygon along the stationary one, or none. Windings are those lent.
pub fn check_path(
    stationary: &[f64],
    orbiting: &[f64],
    settings: Settings,
    path: &[f64],
) -> Result<Option<Fault>, Refusal>
    ensures { answered result ≡ path_call stationary.now orbiting.now settings path.now }
{
    row::checking(stationary, orbiting, settings, path)?;
    Ok(path_fault(stationary, orbiting, settings.contact_tolerance, path))
}
