// The contacts of a stationary and an orbiting ring, one after the other, in the order of the pairs' numbers.
#![tactic(auto)]

mod rows;

ghost use Rattle.std.specs.Prelude.{◌≡◌, ◌*◌, ◌<◌, ◌≤◌};
ghost use Rattle.ring.specs.Ring.{count};
ghost use Rattle.pairs.specs.Pairs.{Sides, Within, pair_count, vertex_pairs};
ghost use Rattle.contacts.specs.Touching.{edge_end, edges_of};
ghost use Rattle.contacts.specs.Rows.{Framed};
ghost use Rattle.contacts.specs.Contacts.{contacts_from, first_contact, has_contact};

use frames::{Frame, frame_of};
use pairs::Pair;
use plane::Point;
use ring::{next, point_at};
use rows::{scan_edges, scan_vertices};

// The two edges of a pair: a b of the stationary ring, c d of the orbiting one.
#[derive(Clone, Copy)]
pub struct Edges {
    pub a: Point,
    pub b: Point,
    pub c: Point,
    pub d: Point,
}

// The bounds around both rings.
#[derive(Clone, Copy)]
pub struct Frames {
    pub stationary: Frame,
    pub orbiting: Frame,
}

// The vertex at the end of the edge i.
fn edge_end(ring: &[f64], i: usize) -> Point
    requires { i < count ring.now }
    ensures { result ≡ edge_end ring.now i }
{
    point_at(ring, next(i, ring.len() / 2))
}

// The edges of a pair.
pub fn edges_of(stationary: &[f64], orbiting: &[f64], pair: Pair) -> Edges
    requires { Within (count stationary.now) (count orbiting.now) pair }
    ensures { result ≡ edges_of stationary.now orbiting.now pair }
{
    let s = pair.stationary;
    let o = pair.orbiting;
    Edges {
        a: point_at(stationary, s),
        b: edge_end(stationary, s),
        c: point_at(orbiting, o),
        d: edge_end(orbiting, o),
    }
}

// The first contact of two edges from the pair number `from` on.
fn next_edges(
    stationary: &[f64],
    orbiting: &[f64],
    frames: Frames,
    tol: f64,
    from: usize,
) -> Option<usize>
    requires sides { Sides (count stationary.now) (count orbiting.now) }
    requires orbiting_bound { (vertex_pairs (count stationary.now) (count orbiting.now) ≤ from)
        × (from ≤ pair_count (count stationary.now) (count orbiting.now)) }
    requires framed { Framed frames stationary.now orbiting.now }
    ensures { result ≡ first_contact (contacts_from stationary.now orbiting.now tol from) }
{
    let on = orbiting.len() / 2;
    let m = stationary.len() / 2 * on;
    if from < 3 * m {
        let j = from - 2 * m;
        let k = scan_edges(stationary, orbiting, frames.orbiting, j / on, j % on, tol);
        if k < m { Some(2 * m + k) } else { None }
    } else {
        None
    }
}

// The first contact that is no orbiting vertex on a stationary edge, from the pair number `from` on.
fn next_later(
    stationary: &[f64],
    orbiting: &[f64],
    frames: Frames,
    tol: f64,
    from: usize,
) -> Option<usize>
    requires sides { Sides (count stationary.now) (count orbiting.now) }
    requires orbiting_bound { (count stationary.now * count orbiting.now ≤ from)
        × (from ≤ pair_count (count stationary.now) (count orbiting.now)) }
    requires framed { Framed frames stationary.now orbiting.now }
    ensures { result ≡ first_contact (contacts_from stationary.now orbiting.now tol from) }
{
    let on = orbiting.len() / 2;
    let m = stationary.len() / 2 * on;
    if from < 2 * m {
        let j = from - m;
        let k = scan_vertices(stationary, orbiting, frames.orbiting, j / on, j % on, tol);
        if k < m {
            return Some(m + k);
        }
        return next_edges(stationary, orbiting, frames, tol, 2 * m);
    }
    next_edges(stationary, orbiting, frames, tol, from)
}

// The first contact from the pair number `from` on, with the bounds around both rings at hand.
pub fn next_within(
    stationary: &[f64],
    orbiting: &[f64],
    frames: Frames,
    tol: f64,
    from: usize,
) -> Option<usize>
    requires sides { Sides (count stationary.now) (count orbiting.now) }
    requires from_bound { from ≤ pair_count (count stationary.now) (count orbiting.now) }
    requires framed { Framed frames stationary.now orbiting.now }
    ensures { result ≡ first_contact (contacts_from stationary.now orbiting.now tol from) }
{
    let sn = stationary.len() / 2;
    let m = sn * (orbiting.len() / 2);
    if from < m {
        let k = scan_vertices(
            orbiting,
            stationary,
            frames.stationary,
            from / sn,
            from % sn,
            tol,
        );
        if k < m {
            return Some(k);
        }
        return next_later(stationary, orbiting, frames, tol, m);
    }
    next_later(stationary, orbiting, frames, tol, from)
}

// The bounds around both rings.
pub fn frames_of(stationary: &[f64], orbiting: &[f64]) -> Frames
    requires { Sides (count stationary.now) (count orbiting.now) }
    ensures { Framed result stationary.now orbiting.now }
{
    Frames {
        stationary: frame_of(stationary),
        orbiting: frame_of(orbiting),
    }
}

// The first contact from the pair number `from` on.
pub fn next_contact(stationary: &[f64], orbiting: &[f64], tol: f64, from: usize) -> Option<usize>
    requires sides { Sides (count stationary.now) (count orbiting.now) }
    requires from_bound { from ≤ pair_count (count stationary.now) (count orbiting.now) }
    ensures { result ≡ first_contact (contacts_from stationary.now orbiting.now tol from) }
{
    next_within(
        stationary,
        orbiting,
        frames_of(stationary, orbiting),
        tol,
        from,
    )
}

// Whether there is a contact.
pub fn has_contact(stationary: &[f64], orbiting: &[f64], tol: f64) -> bool
    requires { Sides (count stationary.now) (count orbiting.now) }
    ensures { result ≡ has_contact stationary.now orbiting.now tol }
{
    next_contact(stationary, orbiting, tol, 0).is_some()
}
