// Contact recovered by a move toward the nearest point of the stationary polygon: `recover_contact` of `nfp_sliding.rs`.
#![tactic(auto)]

pub mod calls;

ghost use Rattle.std.specs.Prelude.{◌≡◌, ◌<◌};
ghost use Rattle.ring.specs.Ring.{count};
ghost use Rattle.laws.specs.FirstBest.{better, over};
ghost use Rattle.recovery.specs.Recovery.{closest_on, nearer_point, closest_of, toward_of, recover_of};

use centroid::centroid;
use plane::Point;
use plane::segment::{along, project_point_to_segment};
use plane::vector::{ahead, distance, minus, normalize};
use ring::{next, point_at};

// A point and its distance, or +infinity and nothing.
#[derive(Clone, Copy)]
pub struct Closest {
    pub distance: f64,
    pub target: Option<Point>,
}

// The point of the edge i that is nearest to v.
fn foot(v: Point, ring: &[f64], i: usize) -> Closest
    requires { i < count ring.now }
    ensures { result ≡ closest_on v ring.now i }
{
    let a = point_at(ring, i);
    let b = point_at(ring, next(i, ring.len() / 2));
    let p = along(a, b, project_point_to_segment(v, a, b));
    Closest {
        distance: distance(v, p),
        target: Some(p),
    }
}

// Only a strictly smaller distance replaces.
fn keep(best: Closest, new: Closest) -> Closest
    ensures { result ≡ better nearer_point best new }
{
    if new.distance < best.distance {
        new
    } else {
        best
    }
}

// The nearest so far, and those of the edges of a ring.
fn row(best: Closest, v: Point, ring: &[f64]) -> Closest
    ensures { result ≡ over nearer_point (closest_on v ring.now) best (count ring.now) }
{
    let n = ring.len() / 2;
    let mut near = best;
    for i in 0..n {
        near = keep(near, foot(v, ring, i));
    }
    near
}

// The point of the stationary polygon that is nearest to a vertex of the orbiting one, the first of the least.
fn scan(stationary: &[f64], orbiting: &[f64]) -> Closest
    ensures { result ≡ closest_of stationary.now orbiting.now }
{
    let n = orbiting.len() / 2;
    let mut near = Closest {
        distance: 1.0 / 0.0,
        target: None,
    };
    for i in 0..n {
        near = row(near, point_at(orbiting, i), stationary);
    }
    near
}

// So far from a position in the direction from the orbiting polygon's centroid to a target.
fn toward(target: Point, orbiting: &[f64], current: Point, far: f64) -> Point
    ensures { result ≡ toward_of target orbiting.now current far }
{
    ahead(current, normalize(minus(target, centroid(orbiting))), far)
}

// The position from which the polygons touch again, where the nearest point is farther than the tolerance.
#[tactic(auto, unfolding(crate::specs::Recovery::recover_of, crate::specs::Recovery::move_to))]
pub fn recover_contact(
    stationary: &[f64],
    orbiting: &[f64],
    current: Point,
    tolerance: f64,
) -> Option<Point>
    ensures { result ≡ recover_of stationary.now orbiting.now current tolerance }
{
    let near = scan(stationary, orbiting);
    let p = near.target?;
    if near.distance > tolerance {
        Some(toward(p, orbiting, current, near.distance - tolerance * 0.5))
    } else {
        None
    }
}
