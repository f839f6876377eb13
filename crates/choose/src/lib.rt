// The vector to slide along: of those that lead to no visited position the first with the greatest score.
#![tactic(auto)]

ghost use Rattle.std.specs.Prelude.{◌≡◌, ◌<◌};
ghost use Rattle.ring.specs.Ring.{count, point_at};
ghost use Rattle.pairs.specs.Pairs.{Sides, pair_count};
ghost use Rattle.vectors.specs.Vectors.{direction_of, vector_by, vector_of};
ghost use Rattle.vectors.specs.Fit.{keeps, fit_of};
ghost use Rattle.selection.specs.Score.{score_of};
ghost use Rattle.vectors.specs.Courses.{vector_is, along_by};
ghost use Rattle.directions.specs.Directions.{Directed};
ghost use Rattle.choose.specs.Choose.{standing, raised_by, weighed_by, taken_by, weigh_of, unset, climb_of, choice_of};

use contacts::{Edges, edges_of, frames_of, next_within};
use directions::unit;
use pairs::{Pair, pair_at};
use plane::Point;
use plane::vector::{ahead, dot, minus};
use ring::point_at;
use selection::{continued, start};
use vectors::TranslationVector;
use vectors::course::{Course, course_by, direction_of, is_below, over, reach, to_vector};
use vectors::fit::is_visited;

// The best vector so far and its score; where none is found yet, -infinity. Found is 1, and else 0.
#[derive(Clone, Copy)]
pub struct Best {
    pub found: u64,
    pub score: f64,
    pub course: Course,
}

// Whether a vector leads to no visited position.
fn is_kept(course: Course, from: Point, visited: &[f64], tol: f64) -> bool
    ensures { result ≡ keeps from visited.now tol (vector_is course) }
{
    let at = ahead(from, direction_of(course), reach(course));
    !is_visited(at, visited, tol)
}

// The score of a vector.
fn score(course: Course, previous: Option<Point>, ccw: Point) -> f64
    ensures { result ≡ score_of (vector_is course) previous ccw }
{
    let dir = direction_of(course);
    let s = continued(dot(dir, ccw), dir, previous);
    if is_below(course, 1e-6) { s - 100.0 } else { s }
}

// The score with which a vector of score s is the best, or nothing where it is not, with the best so far of score `top`: only a strictly
// greater score replaces, but the first is always taken.
fn raise(found: bool, top: f64, s: f64) -> Option<f64>
    ensures { result ≡ raised_by found top s }
{
    if s > top {
        return Some(s);
    }
    if found { None } else { Some(top) }
}

// The same, where the vector leads to no visited position. The path is gone through only for a vector that would be the best.
fn weigh(
    found: bool,
    top: f64,
    course: Course,
    from: Point,
    visited: &[f64],
    tol: f64,
    previous: Option<Point>,
    ccw: Point,
) -> Option<f64>
    ensures { result ≡ weighed_by (keeps from visited.now tol) previous ccw found top (vector_is course) }
{
    let s = raise(found, top, score(course, previous, ccw))?;
    if is_kept(course, from, visited, tol) {
        Some(s)
    } else {
        None
    }
}

// The best, after a vector was weighed.
fn taken(best: Best, course: Course, weighed: Option<f64>) -> Best
    ensures { standing result ≡ taken_by weighed (standing best) (vector_is course) }
{
    match weighed {
        None => best,
        Some(score) => Best {
            found: 1,
            score,
            course,
        },
    }
}

// The unit vector along the edge that the vectors of a contact follow. Those of the stationary edges are at hand, and those of the orbiting
// ones as drawn.
fn along_at(dirs: &[f64], drawn: &[f64], headings: &[f64], pair: Pair, e: Edges) -> Point
    requires stationary_bound { pair.stationary < count dirs.now }
    requires stationary_value { point_at dirs.now pair.stationary ≡ direction_of e.a e.b }
    requires orbiting_bound { pair.orbiting < count drawn.now }
    requires directed { Directed headings.now drawn.now }
    ensures { result ≡ along_by pair.kind e }
{
    let kind = pair.kind;
    match kind {
        1 => unit(minus(e.d, e.c), drawn, headings, pair.orbiting),
        _ => point_at(dirs, pair.stationary),
    }
}

// Both vectors of a contact with these edges.
fn weigh_both(
    best: Best,
    kind: u8,
    e: Edges,
    along: Point,
    from: Point,
    visited: &[f64],
    tol: f64,
    previous: Option<Point>,
    ccw: Point,
) -> Best
    requires { along ≡ along_by kind e }
    ensures { standing result ≡ weigh_of (keeps from visited.now tol) previous ccw
        (weigh_of (keeps from visited.now tol) previous ccw (standing best) (vector_by kind e 0)) (vector_by kind e 1) }
{
    let one = course_by(kind, e, along, 0);
    let w1 = weigh(
        best.found == 1,
        best.score,
        one,
        from,
        visited,
        tol,
        previous,
        ccw,
    );
    let first = taken(best, one, w1);
    let two = course_by(kind, e, along, 1);
    let w2 = weigh(
        first.found == 1,
        first.score,
        two,
        from,
        visited,
        tol,
        previous,
        ccw,
    );
    taken(first, two, w2)
}

// Both vectors of the contact with the pair number k.
fn weigh_contact(
    stationary: &[f64],
    dirs: &[f64],
    orbiting: &[f64],
    drawn: &[f64],
    headings: &[f64],
    k: usize,
    best: Best,
    from: Point,
    visited: &[f64],
    tol: f64,
    previous: Option<Point>,
    ccw: Point,
) -> Best
    requires sides { Sides (count stationary.now) (count orbiting.now) }
    requires k_bound { k < pair_count (count stationary.now) (count orbiting.now) }
    requires directed { Directed dirs.now stationary.now }
    requires orbiting_value { (count orbiting.now ≡ count drawn.now) × Directed headings.now drawn.now }
    ensures { standing result ≡ weigh_of (keeps from visited.now tol) previous ccw
        (weigh_of (keeps from visited.now tol) previous ccw (standing best)
        (vector_of stationary.now orbiting.now k 0))
        (vector_of stationary.now orbiting.now k 1) }
{
    let pair = pair_at(k, stationary.len() / 2, orbiting.len() / 2);
    let e = edges_of(stationary, orbiting, pair);
    let along = along_at(dirs, drawn, headings, pair, e);
    weigh_both(best, pair.kind, e, along, from, visited, tol, previous, ccw)
}

// The best of all vectors.
fn climb(
    stationary: &[f64],
    dirs: &[f64],
    orbiting: &[f64],
    drawn: &[f64],
    headings: &[f64],
    tol: f64,
    from: Point,
    visited: &[f64],
    previous: Option<Point>,
    ccw: Point,
) -> Best
    requires sides { Sides (count stationary.now) (count orbiting.now) }
    requires directed { Directed dirs.now stationary.now }
    requires orbiting_value { (count orbiting.now ≡ count drawn.now) × Directed headings.now drawn.now }
    ensures { standing result ≡ climb_of previous ccw unset
        (fit_of stationary.now orbiting.now from visited.now tol) }
{
    let mut best = Best {
        found: 0,
        score: start().score,
        course: over(Point { x: 0.0, y: 0.0 }, Point { x: 0.0, y: 0.0 }),
    };
    let frames = frames_of(stationary, orbiting);
    let mut k = 0;
    while let Some(j) = next_within(stationary, orbiting, frames, tol, k) {
        best = weigh_contact(
            stationary, dirs, orbiting, drawn, headings, j, best, from, visited, tol, previous, ccw,
        );
        k = j + 1;
    }
    best
}

// The vector chosen, the first where no score is above -infinity, or nothing where all lead to visited positions. `drawn` is the orbiting
// ring before it was moved, and `dirs` and `headings` are the directions of the stationary ring's edges and of its own.
pub fn choose(
    stationary: &[f64],
    dirs: &[f64],
    orbiting: &[f64],
    drawn: &[f64],
    headings: &[f64],
    tol: f64,
    from: Point,
    visited: &[f64],
    previous: Option<Point>,
    ccw: Point,
) -> Option<TranslationVector>
    requires sides { Sides (count stationary.now) (count orbiting.now) }
    requires directed { Directed dirs.now stationary.now }
    requires orbiting_value { (count orbiting.now ≡ count drawn.now) × Directed headings.now drawn.now }
    ensures { result ≡ choice_of (fit_of stationary.now orbiting.now from visited.now tol) previous ccw }
{
    let best = climb(
        stationary, dirs, orbiting, drawn, headings, tol, from, visited, previous, ccw,
    );
    if best.found == 1 {
        let course = best.course;
        Some(to_vector(course))
    } else {
        None
    }
}
