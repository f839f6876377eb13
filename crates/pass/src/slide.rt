// The slide along a vector, as far as nothing is in the way, and where it ends.
ghost use Rattle.std.specs.Prelude.{◌≡◌};
ghost use Rattle.pass.specs.Slide.{times_of, blocked_of, closes_of, land_of, slide_of};

use crate::{Margins, Pose, Step, stop};
use collision::check_translation_collision;
use near::{is_far, is_near};
use plane::Point;
use plane::vector::plus;
use scalar::{larger, smaller};
use vectors::TranslationVector;

// So far in a direction.
fn times(dir: Point, far: f64) -> Point
    ensures { result ≡ times_of dir far }
{
    Point {
        x: dir.x * far,
        y: dir.y * far,
    }
}

// The move that is made of an intended one: the full one, or, where something is in the way, up to one tolerance before it.
fn blocked(stationary: &[f64], moved: &[f64], dir: Point, far: f64, tol: f64) -> Point
    ensures { result ≡ blocked_of stationary.now moved.now dir far tol }
{
    let full = times(dir, far);
    match check_translation_collision(stationary, moved, full, tol) {
        None => full,
        Some(hit) => times(dir, larger(hit.distance - tol, 0.0)),
    }
}

// Whether a position closes the path: the path has more than two points and the start is nearer than ten tolerances.
fn closes(path: &[f64], at: Point, start: Point, tol: f64) -> bool
    ensures { result ≡ closes_of path.now at start tol }
{
    if path.len() / 2 > 2 {
        is_near(at, start, tol * 10.0)
    } else {
        false
    }
}

// The end of a slide: it is stored where it is farther than the smallest move from where the slide began.
fn land(margins: Margins, start: Point, path: &[f64], pose: Pose, dir: Point, at: Point) -> Step
    ensures { result ≡ land_of margins start path.now pose dir at }
{
    if closes(path, at, start, margins.tolerance) {
        return Step::Stop(stop::CLOSED);
    }
    if is_far(at, pose.position, margins.smallest) {
        Step::Store(Pose {
            position: at,
            previous: Some(dir),
            stuck: 0,
        })
    } else {
        let previous = pose.previous;
        Step::Stay(Pose {
            position: at,
            previous,
            stuck: 0,
        })
    }
}

// The slide along a vector, for 1000.0 at most.
pub fn slide(
    stationary: &[f64],
    moved: &[f64],
    margins: Margins,
    start: Point,
    path: &[f64],
    pose: Pose,
    vector: TranslationVector,
) -> Step
    ensures { result ≡ slide_of stationary.now moved.now margins start path.now pose vector }
{
    let far = smaller(vector.distance, 1000.0);
    if far < margins.smallest {
        return Step::Stop(stop::SHORT_MOVE);
    }
    let dir = vector.direction;
    let by = blocked(stationary, moved, dir, far, margins.tolerance);
    land(margins, start, path, pose, dir, plus(pose.position, by))
}
