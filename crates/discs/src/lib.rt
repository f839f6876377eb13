// A disc of 4 to 256 vertices, made of a table of whole numbers: the same bits wherever it is made.
#![tactic(auto)]

pub mod calls;

ghost use Rattle.std.specs.Prelude.{◌≡◌, ◌*◌, ◌^◌, ◌<◌, ◌≤◌, neg_ℤ, nat_abs, length};
ghost use Rattle.ring.specs.Room.{laid};
ghost use Rattle.discs.specs.Disc.{Narrow, quarter_turn, turned_by, entry_at, reach_of, vertex_of, disc_of};

use disc_table::Entry;
use plane::Point;
use ring::room::put;

// A number of an entry, negated as a whole number.
fn negated(n: i32) -> i32
    requires { nat_abs n ≤ 2 ^ 30 }
    ensures { result ≡ neg_ℤ n }
{
    -n
}

// (X, Y) turned to (-Y, X).
fn quarter_turn(e: Entry) -> Entry
    requires { Narrow e }
    ensures { result ≡ quarter_turn e }
{
    Entry {
        x: negated(e.y),
        y: e.x,
    }
}

// An entry turned by up to three quarters.
fn turned_by(q: usize, e: Entry) -> Entry
    requires { (q < 4) × Narrow e }
    ensures { result ≡ turned_by q e }
{
    if q == 0 {
        return e;
    }
    let once = quarter_turn(e);
    if q == 1 {
        return once;
    }
    let twice = quarter_turn(once);
    if q == 2 {
        return twice;
    }
    quarter_turn(twice)
}

// The entry of vertex i of a disc with m vertices in a quarter.
fn entry_at(m: usize, i: usize) -> Entry
    requires { (m ≤ 64) × (i < 4 * m) }
    ensures { result ≡ entry_at m i }
{
    turned_by(i / m, disc_table::point_of(i % m * 256 / m))
}

// The centre's coordinate plus radius times (the entry divided by 2^30).
fn reach(centre: f64, radius: f64, entry: i32) -> f64
    ensures { result ≡ reach_of centre radius entry }
{
    centre + radius * (entry as f64 / 1073741824.0)
}

// Vertex i of a disc with m vertices in a quarter.
fn vertex(centre: Point, radius: f64, m: usize, i: usize) -> Point
    requires { (m ≤ 64) × (i < 4 * m) }
    ensures { result ≡ vertex_of centre radius m i }
{
    let e = entry_at(m, i);
    Point {
        x: reach(centre.x, radius, e.x),
        y: reach(centre.y, radius, e.y),
    }
}

// The vertices of a disc, at the front of the room.
fn draw(centre: Point, radius: f64, m: usize, room: &mut [f64])
    requires { (m ≤ 64) × (2 * (4 * m) ≤ length room.old) }
    ensures { room.new ≡ laid (disc_of centre radius m) room.old }
{
    let n = 4 * m;
    for i in 0..n {
        put(room, i, vertex(centre, radius, m, i));
    }
}
