// Where the slide starts: stationary's lowest vertex against orbiting's highest: `find_start_position` of `nfp_sliding.rs`.
#![tactic(auto)]

pub mod calls;

ghost use Rattle.std.specs.Prelude.{◌≡◌, ◌<◌};
ghost use Rattle.ring.specs.Ring.{count};
ghost use Rattle.start_position.specs.Start.{lower_of, higher_of, kept_vertex, extreme_vertex, start_of};

use plane::Point;
use plane::vector::minus;
use ring::point_at;

// Whether a vertex replaces the lowest so far: it is lower, or as low and further left. Of equal ones the first stays.
fn is_lower(new: Point, best: Point) -> bool
    ensures { result ≡ lower_of new best }
{
    if new.y < best.y {
        return true;
    }
    if best.y < new.y {
        return false;
    }
    new.x < best.x
}

// Whether a vertex replaces the highest so far: it is higher, or as high and not further right. Of equal ones the last stays.
fn is_higher(new: Point, best: Point) -> bool
    ensures { result ≡ higher_of new best }
{
    if new.y < best.y {
        return false;
    }
    if best.y < new.y {
        return true;
    }
    !(best.x < new.x)
}

// Of the best vertex so far and a new one: the higher where the top is looked for, else the lower.
fn keep(top: bool, best: Point, new: Point) -> Point
    ensures { result ≡ kept_vertex top best new }
{
    if top {
        if is_higher(new, best) { new } else { best }
    } else {
        if is_lower(new, best) { new } else { best }
    }
}

// The highest vertex of a ring where the top is looked for, else the lowest.
fn vertex(top: bool, ring: &[f64]) -> Point
    requires { 0 < count ring.now }
    ensures { result ≡ extreme_vertex top ring.now }
{
    let n = ring.len() / 2;
    let mut best = point_at(ring, 0);
    for i in 0..n {
        best = keep(top, best, point_at(ring, i));
    }
    best
}

// The position of orbiting at which its highest vertex is stationary's lowest.
pub fn find_start_position(stationary: &[f64], orbiting: &[f64]) -> Point
    requires { (0 < count stationary.now) × (0 < count orbiting.now) }
    ensures { result ≡ start_of stationary.now orbiting.now }
{
    minus(vertex(false, stationary), vertex(true, orbiting))
}
