// The contacts, counted, and written to rooms that the caller lends.
ghost use Rattle.std.specs.Prelude.{◌≡◌, ◌+◌, ◌*◌, ◌<◌, ◌≤◌, length, set};
ghost use Rattle.ring.specs.Ring.{count};
ghost use Rattle.ring.specs.Room.{laid};
ghost use Rattle.pairs.specs.Pairs.{Sides, Within};
ghost use Rattle.refusals.specs.Rows.{of_rooms};
ghost use Rattle.refusals.specs.Answers.{answered, outcome, left};
ghost use Rattle.contacts.specs.Touching.{point_by, contact_point};
ghost use Rattle.contacts.specs.Contacts.{contacts_of, points_of};
ghost use Rattle.projection.specs.Foot.{foot_code};
ghost use Rattle.contacts_call.specs.Which.{foot_by, contact_foot, entry, which_of};
ghost use Rattle.contacts_call.specs.Calls.{contact_count};

use contacts::{Edges, edges_of, frames_of, next_within};
use pairs::{Pair, pair_at};
use plane::Point;
use projection::foot::{Foot, foot_code, foot_of};
use refusals::Refusal;
use refusals::row::rooms;

// How many numbers a contact takes of those that say which it is: its kind, its stationary and its orbiting index, and its foot.
pub const ENTRY: usize = 4;

// The point at which a pair with these edges touches: the vertex, or the middle of the orbiting edge.
fn point_by(kind: u8, e: Edges) -> Point
    ensures { result ≡ point_by kind e }
{
    match kind {
        0 => e.c,
        1 => e.a,
        _ => Point {
            x: (e.c.x + e.d.x) / 2.0,
            y: (e.c.y + e.d.y) / 2.0,
        },
    }
}

// The point at which a pair touches.
fn contact_point(stationary: &[f64], orbiting: &[f64], pair: Pair) -> Point
    requires { Within (count stationary.now) (count orbiting.now) pair }
    ensures { result ≡ contact_point stationary.now orbiting.now pair }
{
    point_by(pair.kind, edges_of(stationary, orbiting, pair))
}

// Where the foot of a pair with these edges sits: the vertex's on the edge it touches, or the orbiting edge's first end's on the
// stationary edge.
fn foot_by(kind: u8, e: Edges) -> Foot
    ensures { result ≡ foot_by kind e }
{
    match kind {
        1 => foot_of(e.a, e.c, e.d),
        _ => foot_of(e.c, e.a, e.b),
    }
}

// The code of where the foot of a pair sits.
fn contact_foot(stationary: &[f64], orbiting: &[f64], pair: Pair) -> u32
    requires { Within (count stationary.now) (count orbiting.now) pair }
    ensures { result ≡ foot_code (contact_foot stationary.now orbiting.now pair) }
{
    foot_code(foot_by(pair.kind, edges_of(stationary, orbiting, pair)))
}

// How many contacts there are.
fn count_contacts(stationary: &[f64], orbiting: &[f64], tol: f64) -> usize
    requires { Sides (count stationary.now) (count orbiting.now) }
    ensures { (result ≡ length (contacts_of stationary.now orbiting.now tol)) × (result ≤ 196608) }
{
    let frames = frames_of(stationary, orbiting);
    let mut n = 0;
    let mut k = 0;
    while let Some(j) = next_within(stationary, orbiting, frames, tol, k) {
        n += 1;
        k = j + 1;
    }
    n
}

// A pair's kind and indices, and its foot's code, from at on.
fn put_pair(room: &mut [u64], at: usize, pair: Pair, foot: u32)
    requires { at + 3 < length room.old }
    ensures { room.new ≡ set (set (set (set room.old at pair.kind) (at + 1) pair.stationary) (at + 2)
        pair.orbiting) (at + 3) foot }
{
    room[at] = pair.kind as u64;
    room[at + 1] = pair.stationary as u64;
    room[at + 2] = pair.orbiting as u64;
    room[at + 3] = foot as u64;
}

// A point, from at on.
fn put_point(room: &mut [f64], at: usize, p: Point)
    requires { at + 1 < length room.old }
    ensures { room.new ≡ set (set room.old at p.x) (at + 1) p.y }
{
    room[at] = p.x;
    room[at + 1] = p.y;
}

// Each contact's kind, indices and foot, and its point, at the fronts of the rooms.
fn write_contacts(
    stationary: &[f64],
    orbiting: &[f64],
    tol: f64,
    which: &mut [u64],
    points: &mut [f64],
)
    requires sides { Sides (count stationary.now) (count orbiting.now) }
    requires tol_in_bounds { entry * length (contacts_of stationary.now orbiting.now tol) ≤ length which.old }
    requires tol_in_bounds_2 { 2 * length (contacts_of stationary.now orbiting.now tol) ≤ length points.old }
    ensures which_after { which.new ≡ laid (which_of stationary.now orbiting.now
        (contacts_of stationary.now orbiting.now tol)) which.old }
    ensures points_after { points.new ≡ laid (points_of stationary.now orbiting.now
        (contacts_of stationary.now orbiting.now tol)) points.old }
{
    let sn = stationary.len() / 2;
    let on = orbiting.len() / 2;
    let frames = frames_of(stationary, orbiting);
    let mut n = 0;
    let mut k = 0;
    while let Some(j) = next_within(stationary, orbiting, frames, tol, k) {
        let pair = pair_at(j, sn, on);
        let foot = contact_foot(stationary, orbiting, pair);
        put_pair(which, ENTRY * n, pair, foot);
        put_point(points, 2 * n, contact_point(stationary, orbiting, pair));
        n += 1;
        k = j + 1;
    }
}

// The contacts in the rooms, and how many there are, or the refusal of a room that is too short.
#[tactic(auto, using(refusals::proofs::Tests::refused, crate::proofs::Screened::both_fit))]
pub fn answer(
    stationary: &[f64],
    orbiting: &[f64],
    tol: f64,
    which: &mut [u64],
    points: &mut [f64],
) -> Result<usize, Refusal>
    requires { Sides (count stationary.now) (count orbiting.now) }
    ensures { (answered result ≡ outcome
        (of_rooms (entry * contact_count stationary.now orbiting.now tol) (length which.old)
        (2 * contact_count stationary.now orbiting.now tol) (length points.old))
        (contact_count stationary.now orbiting.now tol))
        × (which.new ≡ left
        (of_rooms (entry * contact_count stationary.now orbiting.now tol) (length which.old)
        (2 * contact_count stationary.now orbiting.now tol) (length points.old))
        (laid (which_of stationary.now orbiting.now
        (contacts_of stationary.now orbiting.now tol)) which.old)
        which.old)
        × (points.new ≡ left
        (of_rooms (entry * contact_count stationary.now orbiting.now tol) (length which.old)
        (2 * contact_count stationary.now orbiting.now tol) (length points.old))
        (laid (points_of stationary.now orbiting.now
        (contacts_of stationary.now orbiting.now tol)) points.old)
        points.old) }
{
    let n = count_contacts(stationary, orbiting, tol);
    rooms(ENTRY * n, which.len(), 2 * n, points.len())?;
    write_contacts(stationary, orbiting, tol, which, points);
    Ok(n)
}
