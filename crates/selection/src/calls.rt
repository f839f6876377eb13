// The public call: select_translation_vector.
#![tactic(auto, using(refusals::proofs::Tests::refused), unfolding(crate::specs::Calls::chosen_index))]

ghost use Rattle.std.specs.Prelude.{◌≡◌};
ghost use Rattle.refusals.specs.Answers.{answered};
ghost use Rattle.selection.specs.Calls.{select_call};

use plane::Point;
use refusals::{Refusal, row};

// The index of the vector to slide along, none where there is no vector. A list has three numbers for each vector: the direction's x and y, and the distance. All bit patterns are taken.
pub fn select_translation_vector(
    vectors: &[f64],
    previous: Option<Point>,
    centroid: Point,
    position: Point,
) -> Result<Option<usize>, Refusal>
    ensures { answered result ≡ select_call vectors.now previous centroid position }
{
    row::vectors(vectors)?;
    if vectors.is_empty() {
        return Ok(None);
    }
    let preferred = crate::preferred(centroid, position);
    Ok(Some(crate::select(vectors, previous, preferred)))
}
