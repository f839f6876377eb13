// A path that another program traced, gone through point by point and leg by leg: the first fault.
#![tactic(auto)]

pub mod calls;
pub mod row;

ghost use Rattle.std.specs.Prelude.{◌≡◌, ◌%◌, ◌<◌, ◌≤◌, length};
ghost use Rattle.ring.specs.Ring.{count};
ghost use Rattle.pairs.specs.Pairs.{Sides};
ghost use Rattle.path_check.specs.Path.{fault_by, leg_of, fault_at, path_fault};

use collision::check_translation_collision;
use contacts::has_contact;
use plane::Point;
use plane::vector::minus;
use ring::moving::move_ring;
use ring::{next, point_at};

// What is wrong with a path: the point has no contact, or the leg from the point to the next runs into something.
#[derive(Clone, Copy, Debug, PartialEq, Eq)]
pub enum Fault {
    Point(usize),
    Leg(usize),
}

// What is wrong at the point i, at which the orbiting polygon is `moved`, or on the leg that leads on from it.
#[tactic(auto, unfolding(crate::specs::Path::fault_by, crate::specs::Path::leg_by))]
fn fault_by(stationary: &[f64], moved: &[f64], tol: f64, leg: Point, i: usize) -> Option<Fault>
    requires { Sides (count stationary.now) (count moved.now) }
    ensures { result ≡ fault_by stationary.now moved.now tol leg i }
{
    if !has_contact(stationary, moved, tol) {
        return Some(Fault::Point(i));
    }
    match check_translation_collision(stationary, moved, leg, tol) {
        None => None,
        Some(_) => Some(Fault::Leg(i)),
    }
}

// The leg from the point i to the next, from the last to the first.
fn leg_of(path: &[f64], i: usize) -> Point
    requires { i < count path.now }
    ensures { result ≡ leg_of path.now i }
{
    minus(point_at(path, next(i, path.len() / 2)), point_at(path, i))
}

// The same of the orbiting polygon as drawn, with a room in which it is moved.
fn fault_at(
    stationary: &[f64],
    orbiting: &[f64],
    tol: f64,
    path: &[f64],
    i: usize,
    room: &mut [f64],
) -> Option<Fault>
    requires sides { Sides (count stationary.now) (count orbiting.now) }
    requires orbiting_len { (length orbiting.now % 2 ≡ 0) × (length orbiting.now ≤ length room.old) }
    requires i_bound { i < count path.now }
    ensures { result ≡ fault_at stationary.now orbiting.now tol path.now i }
{
    move_ring(orbiting, point_at(path, i), room);
    let len = orbiting.len();
    fault_by(stationary, &room[..len], tol, leg_of(path, i), i)
}

// The first fault of a path: of each point, and then of the leg that leads on from it.
pub fn path_fault(stationary: &[f64], orbiting: &[f64], tol: f64, path: &[f64]) -> Option<Fault>
    requires sides { Sides (count stationary.now) (count orbiting.now) }
    requires orbiting_len { (length orbiting.now % 2 ≡ 0) × (length orbiting.now ≤ 512) }
    ensures { result ≡ path_fault stationary.now orbiting.now tol path.now }
{
    let n = path.len() / 2;
    let mut room = [0.0; 512];
    for i in 0..n {
        if let Some(fault) = fault_at(stationary, orbiting, tol, path, i, &mut room) {
            return Some(fault);
        }
    }
    None
}
