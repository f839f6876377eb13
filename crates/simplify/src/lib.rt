// A path without its collinear points: `simplify_polygon` of `nfp_sliding.rs`.
#![tactic(auto)]

pub mod calls;

ghost use Rattle.std.specs.Prelude.{◌≡◌, ◌*◌, ◌%◌, ◌<◌, ◌≤◌, length};
ghost use Rattle.ring.specs.Ring.{count};
ghost use Rattle.ring.specs.Room.{laid};
ghost use Rattle.simplify.specs.Simplify.{stays_of, survivors, simplified};

use plane::segment::point_to_segment_distance;
use plane::vector::turn;
use ring::room::copy;
use ring::{next, point_at, previous};

// Whether point i stays: it is not collinear with its neighbours, or farther than the tolerance from their segment.
fn stays(list: &[f64], tolerance: f64, i: usize) -> bool
    requires { i < count list.now }
    ensures { result ≡ stays_of list.now tolerance i }
{
    let n = list.len() / 2;
    let a = point_at(list, previous(i, n));
    let b = point_at(list, i);
    let c = point_at(list, next(i, n));
    let t = turn(a, b, c);
    if t > 0.0 {
        return true;
    }
    if t < 0.0 {
        return true;
    }
    point_to_segment_distance(b, a, c) > tolerance
}

// How many points stay.
fn staying(list: &[f64], tolerance: f64) -> usize
    ensures { 2 * result ≡ length (survivors list.now tolerance (count list.now)) }
{
    let n = list.len() / 2;
    let mut kept = 0;
    for i in 0..n {
        if stays(list, tolerance, i) {
            kept += 1;
        }
    }
    kept
}

// How many points the simplified list has: all where there are, or where there stay, fewer than three.
pub fn points(list: &[f64], tolerance: f64) -> usize
    ensures { result ≡ count (simplified list.now tolerance) }
{
    let n = list.len() / 2;
    if n < 3 {
        return n;
    }
    let kept = staying(list, tolerance);
    if kept < 3 { n } else { kept }
}

// The points that stay, at the front of the room.
fn gather(list: &[f64], tolerance: f64, room: &mut [f64])
    requires { length (survivors list.now tolerance (count list.now)) ≤ length room.old }
    ensures { room.new ≡ laid (survivors list.now tolerance (count list.now)) room.old }
{
    let n = list.len() / 2;
    let mut k = 0;
    for i in 0..n {
        if stays(list, tolerance, i) {
            room[k] = list[2 * i];
            room[k + 1] = list[2 * i + 1];
            k += 2;
        }
    }
}

// The simplified list, at the front of the room: how many points it has.
pub fn simplify(list: &[f64], tolerance: f64, room: &mut [f64]) -> usize
    requires list_len { length list.now % 2 ≡ 0 }
    requires tolerance_in_bounds { 2 * count (simplified list.now tolerance) ≤ length room.old }
    ensures value { result ≡ count (simplified list.now tolerance) }
    ensures room_after { room.new ≡ laid (simplified list.now tolerance) room.old }
{
    let n = list.len() / 2;
    if n < 3 {
        copy(list, list.len(), room);
        return n;
    }
    let kept = staying(list, tolerance);
    if kept < 3 {
        copy(list, list.len(), room);
        return n;
    }
    gather(list, tolerance, room);
    kept
}
