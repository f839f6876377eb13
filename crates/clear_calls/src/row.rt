// The tests of what the calls are lent: two polygons and a move, and a reason. The numbers of lists with a fault are not read.
#![tactic(auto, using(refusals::proofs::Tests::refused))]

ghost use Rattle.std.specs.Prelude.{[], ◌∷◌, ◌≡◌};
ghost use Rattle.refusals.specs.Refusals.{first_of};
ghost use Rattle.refusals.specs.Lists.{list_fault, fault_of};
ghost use Rattle.refusals.specs.Answers.{tested};
ghost use Rattle.whole_engine.specs.Rows.{wrong_whole};
ghost use Rattle.clear_calls.specs.Rows.{whole_polygon_extent, reason_extent, wrong_end, of_whole_move, of_reason};

use refusals::lists::fault;
use refusals::screen::unless;
use refusals::{Refusal, VERTICES_LEAST, VERTICES_MOST};
use whole_engine::row::numbers;
use whole_moves::are_moved_within;

// The length of a polygon of 3 to 256 corners, in its place.
pub fn polygon(list: &[i32], place: u64) -> Result<(), Refusal>
    ensures { tested result ≡ list_fault (whole_polygon_extent list.now) place }
{
    fault(list.len(), 2, VERTICES_LEAST, VERTICES_MOST, place)
}

// The corners at the end of a move.
fn end(orbiting: &[i32], dx: i32, dy: i32) -> Result<(), Refusal>
    ensures { tested result ≡ wrong_end orbiting.now dx dy }
{
    unless(are_moved_within(orbiting, dx, dy), Refusal::Number)
}

// The lengths of two polygons.
fn lengths(stationary: &[i32], orbiting: &[i32]) -> Result<(), Refusal>
    ensures { tested result
        ≡ fault_of (whole_polygon_extent stationary.now ∷ whole_polygon_extent orbiting.now ∷ []) }
{
    polygon(stationary, 0)?;
    polygon(orbiting, 1)
}

// Their numbers, and those at the end of the move.
fn move_numbers(stationary: &[i32], orbiting: &[i32], dx: i32, dy: i32) -> Result<(), Refusal>
    ensures { tested result ≡ first_of
        (wrong_whole stationary.now
        ∷ wrong_whole orbiting.now
        ∷ wrong_end orbiting.now dx dy
        ∷ []) }
{
    numbers(stationary)?;
    numbers(orbiting)?;
    end(orbiting, dx, dy)
}

// Two polygons and a move.
#[tactic(auto, using(refusals::proofs::Tests::refused), unfolding(crate::specs::Rows::of_whole_move))]
pub fn whole_move(stationary: &[i32], orbiting: &[i32], dx: i32, dy: i32) -> Result<(), Refusal>
    ensures { tested result ≡ of_whole_move stationary.now orbiting.now dx dy }
{
    lengths(stationary, orbiting)?;
    move_numbers(stationary, orbiting, dx, dy)
}

// The lengths of two polygons and of a reason, which has four numbers for each edge of the stationary one.
fn reason_lengths(stationary: &[i32], orbiting: &[i32], reason: &[i32]) -> Result<(), Refusal>
    ensures { tested result ≡ fault_of
        (whole_polygon_extent stationary.now
        ∷ whole_polygon_extent orbiting.now
        ∷ reason_extent stationary.now reason.now
        ∷ []) }
{
    lengths(stationary, orbiting)?;
    let edges = stationary.len() / 2;
    fault(reason.len(), 4, edges, edges, 2)
}

// Their numbers, and those at the end of the move.
fn reason_numbers(
    stationary: &[i32],
    orbiting: &[i32],
    dx: i32,
    dy: i32,
    reason: &[i32],
) -> Result<(), Refusal>
    ensures { tested result ≡ first_of
        (wrong_whole stationary.now
        ∷ wrong_whole orbiting.now
        ∷ wrong_whole reason.now
        ∷ wrong_end orbiting.now dx dy
        ∷ []) }
{
    numbers(stationary)?;
    numbers(orbiting)?;
    numbers(reason)?;
    end(orbiting, dx, dy)
}

// Two polygons, a move and a reason.
#[tactic(auto, using(refusals::proofs::Tests::refused), unfolding(crate::specs::Rows::of_reason))]
pub fn reason(
    stationary: &[i32],
    orbiting: &[i32],
    dx: i32,
    dy: i32,
    reason: &[i32],
) -> Result<(), Refusal>
    ensures { tested result ≡ of_reason stationary.now orbiting.now dx dy reason.now }
{
    reason_lengths(stationary, orbiting, reason)?;
    reason_numbers(stationary, orbiting, dx, dy, reason)
}
