// The tests of what the call is lent: two polygons and a path. The numbers of lists with a fault are not read.
#![tactic(auto, using(refusals::proofs::Tests::refused))]

ghost use Rattle.std.specs.Prelude.{[], ◌∷◌, ◌≡◌, ◌/◌, length};
ghost use Rattle.ring.specs.Each.{each};
ghost use Rattle.refusals.specs.Refusals.{first_of};
ghost use Rattle.refusals.specs.Lists.{fault_of};
ghost use Rattle.refusals.specs.Answers.{tested};
ghost use Rattle.whole_engine.specs.Rows.{wrong_whole};
ghost use Rattle.clear_calls.specs.Rows.{whole_polygon_extent};
ghost use Rattle.clear_path.specs.Rows.{whole_path_extent, is_placed, wrong_place, of_whole_path};

use clear_calls::row::polygon;
use refusals::lists::fault;
use refusals::screen::unless;
use refusals::{POINTS_MOST, Refusal};
use whole_engine::row::numbers;
use whole_moves::are_moved_within;

// A path has three points at least.
const POINTS_LEAST: usize = 3;

// Whether the orbiting polygon is within the bounds at each point of a path.
fn are_placed(orbiting: &[i32], path: &[i32]) -> bool
    ensures { result ≡ each (is_placed orbiting.now path.now) 0 (length path.now / 2) }
{
    let n = path.len() / 2;
    for i in 0..n {
        if !are_moved_within(orbiting, path[2 * i], path[2 * i + 1]) {
            return false;
        }
    }
    true
}

// The lengths of two polygons and of a path.
fn lengths(stationary: &[i32], orbiting: &[i32], path: &[i32]) -> Result<(), Refusal>
    ensures { tested result ≡ fault_of
        (whole_polygon_extent stationary.now
        ∷ whole_polygon_extent orbiting.now
        ∷ whole_path_extent path.now
        ∷ []) }
{
    polygon(stationary, 0)?;
    polygon(orbiting, 1)?;
    fault(path.len(), 2, POINTS_LEAST, POINTS_MOST, 2)
}

// The numbers of the polygons, and those of the orbiting one at each point of the path.
fn path_numbers(stationary: &[i32], orbiting: &[i32], path: &[i32]) -> Result<(), Refusal>
    ensures { tested result ≡ first_of
        (wrong_whole stationary.now
        ∷ wrong_whole orbiting.now
        ∷ wrong_place orbiting.now path.now
        ∷ []) }
{
    numbers(stationary)?;
    numbers(orbiting)?;
    unless(are_placed(orbiting, path), Refusal::Number)
}

// Two polygons and a path.
#[tactic(auto, using(refusals::proofs::Tests::refused), unfolding(crate::specs::Rows::of_whole_path))]
pub fn whole_path(stationary: &[i32], orbiting: &[i32], path: &[i32]) -> Result<(), Refusal>
    ensures { tested result ≡ of_whole_path stationary.now orbiting.now path.now }
{
    lengths(stationary, orbiting, path)?;
    path_numbers(stationary, orbiting, path)
}
