// A position toward a concave vertex of the stationary polygon: `detect_interlocking_opportunity` of `nfp_sliding.rs`.
#![tactic(auto)]

pub mod calls;

ghost use Rattle.std.specs.Prelude.{◌≡◌, ◌%◌, ◌<◌, ◌≤◌, length};
ghost use Rattle.ring.specs.Ring.{count};
ghost use Rattle.interlocking.specs.Interlocking.{concave_of, opening_of, least_of, fits_of, try_of, candidate_of, interlock_of};

use overlap::{compute_bbox, edge_vector, polygons_overlap};
use plane::Point;
use plane::vector::{ahead, dot, minus, normalize, turn};
use ring::moving::move_ring;
use ring::{next, point_at, previous};
use scalar::{abs, smaller};
use square_root::sqrt;

// Whether the turn at vertex i is clockwise.
fn is_concave(polygon: &[f64], i: usize) -> bool
    requires { i < count polygon.now }
    ensures { result ≡ concave_of polygon.now i }
{
    let n = polygon.len() / 2;
    let a = point_at(polygon, previous(i, n));
    let b = point_at(polygon, i);
    let c = point_at(polygon, next(i, n));
    turn(a, b, c) < 0.0
}

// How wide the polygon opens at vertex i, by the edges before and after it.
fn opening(polygon: &[f64], i: usize) -> f64
    requires { i < count polygon.now }
    ensures { result ≡ opening_of polygon.now i }
{
    let before = edge_vector(polygon, previous(i, polygon.len() / 2));
    let after = edge_vector(polygon, i);
    sqrt(abs(dot(before, after)))
}

// Half of the smaller side of a polygon's bounding box.
fn least_opening(polygon: &[f64]) -> f64
    ensures { result ≡ least_of polygon.now }
{
    let b = compute_bbox(polygon);
    let x = b.x;
    let y = b.y;
    smaller(x.max - x.min, y.max - y.min) * 0.5
}

// Whether the orbiting polygon, moved to a position, does not overlap the stationary one.
fn fits(stationary: &[f64], orbiting: &[f64], at: Point) -> bool
    requires orbiting_len { length orbiting.now % 2 ≡ 0 }
    requires orbiting_len_bound { length orbiting.now ≤ 512 }
    ensures { result ≡ fits_of stationary.now orbiting.now at }
{
    let mut room = [0.0; 512];
    move_ring(orbiting, at, &mut room);
    let len = orbiting.len();
    !polygons_overlap(stationary, &room[..len], 1e-6)
}

// The position one tolerance toward vertex i, where the orbiting polygon fits there.
fn try_toward(
    stationary: &[f64],
    orbiting: &[f64],
    current: Point,
    tolerance: f64,
    i: usize,
) -> Option<Point>
    requires orbiting_len { length orbiting.now % 2 ≡ 0 }
    requires orbiting_len_bound { length orbiting.now ≤ 512 }
    requires i_bound { i < count stationary.now }
    ensures { result ≡ try_of stationary.now orbiting.now current tolerance i }
{
    let dir = normalize(minus(point_at(stationary, i), current));
    let at = ahead(current, dir, tolerance);
    if fits(stationary, orbiting, at) {
        Some(at)
    } else {
        None
    }
}

// The same where vertex i is concave and opens wider than least.
fn candidate(
    stationary: &[f64],
    orbiting: &[f64],
    current: Point,
    tolerance: f64,
    least: f64,
    i: usize,
) -> Option<Point>
    requires orbiting_len { length orbiting.now % 2 ≡ 0 }
    requires orbiting_len_bound { length orbiting.now ≤ 512 }
    requires i_bound { i < count stationary.now }
    ensures { result ≡ candidate_of stationary.now orbiting.now current tolerance least i }
{
    if is_concave(stationary, i) {
        if opening(stationary, i) > least {
            return try_toward(stationary, orbiting, current, tolerance, i);
        }
    }
    None
}

// The first position that a vertex of the stationary polygon gives, or nothing.
pub fn detect_interlocking_opportunity(
    stationary: &[f64],
    orbiting: &[f64],
    current: Point,
    tolerance: f64,
) -> Option<Point>
    requires orbiting_len { length orbiting.now % 2 ≡ 0 }
    requires orbiting_len_bound { length orbiting.now ≤ 512 }
    ensures { result ≡ interlock_of stationary.now orbiting.now current tolerance }
{
    let least = least_opening(orbiting);
    let n = stationary.len() / 2;
    for i in 0..n {
        if let Some(p) = candidate(stationary, orbiting, current, tolerance, least, i) {
            return Some(p);
        }
    }
    None
}
