// The public calls: compute_translation_vectors, handle_perfect_fit.
#![tactic(auto)]

ghost use Rattle.std.specs.Prelude.{◌≡◌, length};
ghost use Rattle.refusals.specs.Answers.{answered};
ghost use Rattle.vectors_call.specs.Calls.{vectors_call, vectors_room, sources_room, fit_call, fit_room, fit_sources};

use crate::write::answer;
use plane::Point;
use refusals::{Refusal, row};

// The vectors of the contacts of two polygons: per vector its direction and its distance in `vectors`, its contact's index in `sources`.
#[tactic(auto, using(refusals::proofs::Tests::refused, contacts_call::proofs::Screened::lent_is, crate::proofs::Screened::all_fit), unfolding(crate::specs::Calls::vectors_refusal))]
pub fn compute_translation_vectors(
    stationary: &[f64],
    orbiting: &[f64],
    tolerance: f64,
    vectors: &mut [f64],
    sources: &mut [u64],
) -> Result<usize, Refusal>
    ensures { (answered result ≡ vectors_call stationary.now orbiting.now tolerance (length vectors.old)
        (length sources.old))
        × (vectors.new ≡ vectors_room stationary.now orbiting.now tolerance vectors.old
        sources.old)
        × (sources.new ≡ sources_room stationary.now orbiting.now tolerance vectors.old
        sources.old) }
{
    row::touching(stationary, orbiting, tolerance)?;
    let origin = Point { x: 0.0, y: 0.0 };
    let nowhere = [0.0; 0];
    answer(
        stationary, orbiting, origin, &nowhere, tolerance, vectors, sources,
    )
}

// Those of them that do not lead to a visited position from the reference.
#[tactic(auto, using(refusals::proofs::Tests::refused, crate::proofs::Screened::lent_is), unfolding(crate::specs::Calls::fit_refusal))]
pub fn handle_perfect_fit(
    stationary: &[f64],
    orbiting: &[f64],
    reference: Point,
    visited: &[f64],
    tolerance: f64,
    vectors: &mut [f64],
    sources: &mut [u64],
) -> Result<usize, Refusal>
    ensures { (answered result ≡ fit_call stationary.now orbiting.now reference visited.now tolerance
        (length vectors.old) (length sources.old))
        × (vectors.new ≡ fit_room stationary.now orbiting.now reference visited.now tolerance
        vectors.old sources.old)
        × (sources.new ≡ fit_sources stationary.now orbiting.now reference visited.now
        tolerance vectors.old sources.old) }
{
    row::perfect_fit(stationary, orbiting, reference, visited, tolerance)?;
    answer(
        stationary, orbiting, reference, visited, tolerance, vectors, sources,
    )
}
