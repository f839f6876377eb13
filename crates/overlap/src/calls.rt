// The public calls: polygons_overlap, polygons_overlap_with_tolerance.
#![tactic(auto, using(refusals::proofs::Tests::refused))]

ghost use Rattle.std.specs.Prelude.{◌≡◌};
ghost use Rattle.refusals.specs.Answers.{answered};
ghost use Rattle.overlap.specs.Calls.{overlap_call, overlap_with_call};

use refusals::{Refusal, row};

// Whether two polygons overlap, or lie no more than 1e-6 apart.
pub fn polygons_overlap(a: &[f64], b: &[f64]) -> Result<bool, Refusal>
    ensures { answered result ≡ overlap_call a.now b.now }
{
    row::two_polygons(a, b)?;
    Ok(crate::polygons_overlap(a, b, 1e-6))
}

// The same with a lent tolerance.
pub fn polygons_overlap_with_tolerance(
    a: &[f64],
    b: &[f64],
    tolerance: f64,
) -> Result<bool, Refusal>
    ensures { answered result ≡ overlap_with_call a.now b.now tolerance }
{
    row::touching(a, b, tolerance)?;
    Ok(crate::polygons_overlap(a, b, tolerance))
}
