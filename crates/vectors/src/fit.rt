// The vectors that do not lead to a visited position.
ghost use Rattle.std.specs.Prelude.{◌≡◌, ◌<◌};
ghost use Rattle.ring.specs.Ring.{count};
ghost use Rattle.pairs.specs.Pairs.{Sides};
ghost use Rattle.vectors.specs.Fit.{visited_of, potential_of, keeps};
ghost use Rattle.vectors.specs.Places.{Ready, Takes, kept_left};

use crate::{Place, Step, TranslationVector, next_vector};
use near::is_near;
use plane::Point;
use plane::vector::ahead;
use ring::point_at;
use scalar::smaller;

// Whether a position is nearer than ten tolerances to one of the visited positions.
pub fn is_visited(position: Point, visited: &[f64], tol: f64) -> bool
    ensures { result ≡ visited_of position visited.now tol }
{
    let n = visited.len() / 2;
    let near = tol * 10.0;
    for i in 0..n {
        if is_near(position, point_at(visited, i), near) {
            return true;
        }
    }
    false
}

// Where a vector leads from a position, followed for 1.0 at most.
fn potential(from: Point, v: TranslationVector) -> Point
    ensures { result ≡ potential_of from v }
{
    ahead(from, v.direction, smaller(v.distance, 1.0))
}

// Whether a vector leads to no visited position.
fn is_kept(from: Point, visited: &[f64], tol: f64, v: TranslationVector) -> bool
    ensures { result ≡ keeps from visited.now tol v }
{
    !is_visited(potential(from, v), visited, tol)
}

// The next vector from a place on that leads to no visited position.
pub fn next_kept(
    stationary: &[f64],
    orbiting: &[f64],
    tol: f64,
    from: Point,
    visited: &[f64],
    place: Place,
) -> Option<Step>
    requires sides { Sides (count stationary.now) (count orbiting.now) }
    requires ready { Ready stationary.now orbiting.now place }
    ensures { Takes stationary.now orbiting.now tol (kept_left from visited.now tol) place result }
{
    let mut at = place;
    while let Some(step) = next_vector(stationary, orbiting, tol, at) {
        if is_kept(from, visited, tol, step.vector) {
            return Some(step);
        }
        at = step.rest;
    }
    None
}
