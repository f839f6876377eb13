// The vectors that lead to no visited position, counted, and written to rooms that the caller lends.
ghost use Rattle.std.specs.Prelude.{◌≡◌, ◌+◌, ◌*◌, ◌<◌, ◌≤◌, length, set};
ghost use Rattle.ring.specs.Ring.{count};
ghost use Rattle.ring.specs.Room.{laid};
ghost use Rattle.pairs.specs.Pairs.{Sides};
ghost use Rattle.vectors.specs.Vectors.{vector_numbers, sources_of};
ghost use Rattle.refusals.specs.Answers.{answered, outcome, left};
ghost use Rattle.vectors.specs.Fit.{fit_of};
ghost use Rattle.vectors_call.specs.Calls.{fit_count, fit_rooms};

use plane::Point;
use refusals::Refusal;
use refusals::row::rooms;
use vectors::fit::next_kept;
use vectors::{Place, TranslationVector};

// How many there are.
pub fn count_vectors(
    stationary: &[f64],
    orbiting: &[f64],
    from: Point,
    visited: &[f64],
    tol: f64,
) -> usize
    requires { Sides (count stationary.now) (count orbiting.now) }
    ensures value { result ≡ length (fit_of stationary.now orbiting.now from visited.now tol) }
    ensures upper_bound { result ≤ 393216 }
{
    let mut n = 0;
    let mut at = Place {
        contact: 0,
        side: 0,
        source: 0,
    };
    while let Some(step) = next_kept(stationary, orbiting, tol, from, visited, at) {
        n += 1;
        at = step.rest;
    }
    n
}

// A vector's direction and distance, from at on.
fn put_vector(room: &mut [f64], at: usize, v: TranslationVector)
    requires { at + 2 < length room.old }
    ensures { room.new ≡ set (set (set room.old at v.direction.x) (at + 1) v.direction.y) (at + 2)
        v.distance }
{
    room[at] = v.direction.x;
    room[at + 1] = v.direction.y;
    room[at + 2] = v.distance;
}

// Each vector's direction and distance, and the index of its contact, at the fronts of the rooms.
pub fn write_vectors(
    stationary: &[f64],
    orbiting: &[f64],
    from: Point,
    visited: &[f64],
    tol: f64,
    vectors: &mut [f64],
    sources: &mut [u64],
)
    requires sides { Sides (count stationary.now) (count orbiting.now) }
    requires tol_in_bounds { 3 * length (fit_of stationary.now orbiting.now from visited.now tol) ≤ length vectors.old }
    requires tol_in_bounds_2 { length (fit_of stationary.now orbiting.now from visited.now tol) ≤ length sources.old }
    ensures vectors_after { vectors.new ≡ laid
        (vector_numbers (fit_of stationary.now orbiting.now from visited.now tol)) vectors.old }
    ensures sources_after { sources.new ≡ laid
        (sources_of (fit_of stationary.now orbiting.now from visited.now tol)) sources.old }
{
    let mut n = 0;
    let mut at = Place {
        contact: 0,
        side: 0,
        source: 0,
    };
    while let Some(step) = next_kept(stationary, orbiting, tol, from, visited, at) {
        put_vector(vectors, 3 * n, step.vector);
        sources[n] = step.source as u64;
        n += 1;
        at = step.rest;
    }
}

// The vectors in the rooms, and how many there are, or the refusal of a room that is too short.
#[tactic(auto, using(refusals::proofs::Tests::refused, contacts_call::proofs::Screened::both_fit))]
pub fn answer(
    stationary: &[f64],
    orbiting: &[f64],
    from: Point,
    visited: &[f64],
    tol: f64,
    vectors: &mut [f64],
    sources: &mut [u64],
) -> Result<usize, Refusal>
    requires { Sides (count stationary.now) (count orbiting.now) }
    ensures { (answered result ≡ outcome
        (fit_rooms stationary.now orbiting.now from visited.now tol
        (length vectors.old) (length sources.old))
        (fit_count stationary.now orbiting.now from visited.now tol))
        × (vectors.new ≡ left
        (fit_rooms stationary.now orbiting.now from visited.now tol
        (length vectors.old) (length sources.old))
        (laid (vector_numbers (fit_of stationary.now orbiting.now from visited.now tol))
        vectors.old)
        vectors.old)
        × (sources.new ≡ left
        (fit_rooms stationary.now orbiting.now from visited.now tol
        (length vectors.old) (length sources.old))
        (laid (sources_of (fit_of stationary.now orbiting.now from visited.now tol)) sources.old)
        sources.old) }
{
    let n = count_vectors(stationary, orbiting, from, visited, tol);
    rooms(3 * n, vectors.len(), n, sources.len())?;
    write_vectors(stationary, orbiting, from, visited, tol, vectors, sources);
    Ok(n)
}
