// The rows of tests of what calls are lent, in docs/SCOPE.md's order: the first that refuses. The numbers of lists are read only where
// no list has a fault.
ghost use Rattle.std.specs.Prelude.{◌≡◌};
ghost use Rattle.refusals.specs.Refusals.{first};
ghost use Rattle.refusals.specs.Answers.{tested};
ghost use Rattle.refusals.specs.Screens.{wrong_number};
ghost use Rattle.refusals.specs.Rows.{of_points3, of_points4, of_near, of_ring, of_polygon, of_two_rings, of_two_polygons, of_list, of_vectors};
ghost use Rattle.refusals.specs.Rows.{of_touching, of_moving, fit_lengths, fit_numbers, of_fit, of_trace, of_rooms};

use crate::screen::{
    finite_numbers, fit, numbers, point, position, result_room, settings, tolerance, work_room,
};
use crate::{Refusal, Settings, lists};
use plane::Point;

// Three single points.
#[tactic(auto, using(crate::proofs::Tests::refused), unfolding(crate::specs::Rows::of_points3))]
pub fn points3(a: Point, b: Point, c: Point) -> Result<(), Refusal>
    ensures { tested result ≡ of_points3 a b c }
{
    point(a)?;
    point(b)?;
    point(c)
}

// Four single points.
#[tactic(auto, using(crate::proofs::Tests::refused), unfolding(crate::specs::Rows::of_points4, crate::specs::Rows::of_points3))]
pub fn points4(a: Point, b: Point, c: Point, d: Point) -> Result<(), Refusal>
    ensures { tested result ≡ of_points4 a b c d }
{
    point(a)?;
    points3(b, c, d)
}

// A point, a segment and a tolerance.
#[tactic(auto, using(crate::proofs::Tests::refused), unfolding(crate::specs::Rows::of_near, crate::specs::Rows::of_points3))]
pub fn near(p: Point, a: Point, b: Point, tol: f64) -> Result<(), Refusal>
    ensures { tested result ≡ of_near p a b tol }
{
    points3(p, a, b)?;
    tolerance(tol)
}

// A ring of 0 to 256 vertices. The numbers of one with a fault are not read.
#[tactic(auto, using(crate::proofs::Tests::refused), unfolding(crate::specs::Rows::of_ring))]
pub fn ring(ring: &[f64]) -> Result<(), Refusal>
    ensures { tested result ≡ of_ring ring.now }
{
    lists::ring(ring, 0)?;
    numbers(ring)
}

// A polygon of 3 to 256 vertices, in the same way.
#[tactic(auto, using(crate::proofs::Tests::refused), unfolding(crate::specs::Rows::of_polygon))]
pub fn polygon(polygon: &[f64]) -> Result<(), Refusal>
    ensures { tested result ≡ of_polygon polygon.now }
{
    lists::polygon(polygon, 0)?;
    numbers(polygon)
}

// The numbers of two lists.
#[tactic(auto, using(crate::proofs::Tests::refused))]
fn both(a: &[f64], b: &[f64]) -> Result<(), Refusal>
    ensures { tested result ≡ first (wrong_number a.now) (wrong_number b.now) }
{
    numbers(a)?;
    numbers(b)
}

// Two rings: the faults of both come before the numbers of either.
#[tactic(auto, using(crate::proofs::Tests::refused), unfolding(crate::specs::Rows::of_two_rings))]
pub fn two_rings(a: &[f64], b: &[f64]) -> Result<(), Refusal>
    ensures { tested result ≡ of_two_rings a.now b.now }
{
    lists::ring(a, 0)?;
    lists::ring(b, 1)?;
    both(a, b)
}

// Two polygons of 3 to 256 vertices, in the same order.
#[tactic(auto, using(crate::proofs::Tests::refused), unfolding(crate::specs::Rows::of_two_polygons))]
pub fn two_polygons(a: &[f64], b: &[f64]) -> Result<(), Refusal>
    ensures { tested result ≡ of_two_polygons a.now b.now }
{
    lists::polygon(a, 0)?;
    lists::polygon(b, 1)?;
    both(a, b)
}

// A list to simplify and a tolerance.
#[tactic(auto, using(crate::proofs::Tests::refused), unfolding(crate::specs::Rows::of_list))]
pub fn list(list: &[f64], tol: f64) -> Result<(), Refusal>
    ensures { tested result ≡ of_list list.now tol }
{
    lists::points(list, 0)?;
    finite_numbers(list)?;
    tolerance(tol)
}

// Vectors, of which all numbers are taken.
#[tactic(auto, using(crate::proofs::Tests::refused), unfolding(crate::specs::Rows::of_vectors))]
pub fn vectors(vectors: &[f64]) -> Result<(), Refusal>
    ensures { tested result ≡ of_vectors vectors.now }
{
    lists::vectors(vectors, 0)
}

// Two polygons and a tolerance.
#[tactic(auto, using(crate::proofs::Tests::refused), unfolding(crate::specs::Rows::of_touching))]
pub fn touching(stationary: &[f64], orbiting: &[f64], tol: f64) -> Result<(), Refusal>
    ensures { tested result ≡ of_touching stationary.now orbiting.now tol }
{
    two_polygons(stationary, orbiting)?;
    tolerance(tol)
}

// Two polygons, a move or a position, and a tolerance.
#[tactic(auto, using(crate::proofs::Tests::refused), unfolding(crate::specs::Rows::of_moving))]
pub fn moving(stationary: &[f64], orbiting: &[f64], p: Point, tol: f64) -> Result<(), Refusal>
    ensures { tested result ≡ of_moving stationary.now orbiting.now p tol }
{
    two_polygons(stationary, orbiting)?;
    position(p)?;
    tolerance(tol)
}

// The faults of two polygons and of visited positions.
#[tactic(auto, using(crate::proofs::Tests::refused), unfolding(crate::specs::Rows::fit_lengths))]
fn fit_lengths(stationary: &[f64], orbiting: &[f64], visited: &[f64]) -> Result<(), Refusal>
    ensures { tested result ≡ fit_lengths stationary.now orbiting.now visited.now }
{
    lists::polygon(stationary, 0)?;
    lists::polygon(orbiting, 1)?;
    lists::points(visited, 2)
}

// Their numbers, a reference and a tolerance.
#[tactic(auto, using(crate::proofs::Tests::refused), unfolding(crate::specs::Rows::fit_numbers))]
fn fit_numbers(
    stationary: &[f64],
    orbiting: &[f64],
    from: Point,
    visited: &[f64],
    tol: f64,
) -> Result<(), Refusal>
    ensures { tested result ≡ fit_numbers stationary.now orbiting.now from visited.now tol }
{
    numbers(stationary)?;
    numbers(orbiting)?;
    position(from)?;
    finite_numbers(visited)?;
    tolerance(tol)
}

// Two polygons, a reference, visited positions and a tolerance.
#[tactic(auto, using(crate::proofs::Tests::refused), unfolding(crate::specs::Rows::of_fit))]
pub fn perfect_fit(
    stationary: &[f64],
    orbiting: &[f64],
    from: Point,
    visited: &[f64],
    tol: f64,
) -> Result<(), Refusal>
    ensures { tested result ≡ of_fit stationary.now orbiting.now from visited.now tol }
{
    fit_lengths(stationary, orbiting, visited)?;
    fit_numbers(stationary, orbiting, from, visited, tol)
}

// Two polygons, the settings, a work room and a result room.
#[tactic(auto, using(crate::proofs::Tests::refused), unfolding(crate::specs::Rows::of_trace))]
pub fn tracing(
    stationary: &[f64],
    orbiting: &[f64],
    s: Settings,
    work: usize,
    res: usize,
) -> Result<(), Refusal>
    ensures { tested result ≡ of_trace stationary.now orbiting.now s work res }
{
    two_polygons(stationary, orbiting)?;
    settings(s)?;
    work_room(work)?;
    result_room(work, res)
}

// Two rooms, and how many numbers each must hold.
#[tactic(auto, using(crate::proofs::Tests::refused), unfolding(crate::specs::Rows::of_rooms))]
pub fn rooms(needed: usize, size: usize, needed2: usize, size2: usize) -> Result<(), Refusal>
    ensures { tested result ≡ of_rooms needed size needed2 size2 }
{
    fit(needed, size)?;
    fit(needed2, size2)
}
