// The public calls: signed_area2, signed_area_robust.
#![tactic(auto, using(refusals::proofs::Tests::refused))]

ghost use Rattle.std.specs.Prelude.{◌≡◌};
ghost use Rattle.refusals.specs.Answers.{answered};
ghost use Rattle.signed_area.specs.Calls.{area2_call, robust_call};

use refusals::{Refusal, row};

// Twice the signed area of a ring: above 0 where its order is counter-clockwise.
pub fn signed_area2(ring: &[f64]) -> Result<f64, Refusal>
    ensures { answered result ≡ area2_call ring.now }
{
    row::ring(ring)?;
    Ok(crate::signed_area2(ring))
}

// The signed area of a ring by a compensated sum, 0.0 below three vertices.
pub fn signed_area_robust(ring: &[f64]) -> Result<f64, Refusal>
    ensures { answered result ≡ robust_call ring.now }
{
    row::ring(ring)?;
    Ok(crate::signed_area_robust(ring))
}
