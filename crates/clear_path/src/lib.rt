// Whether a closed path of whole points is clear: the search for a reason on each of its legs, until one that is not clear.
#![tactic(auto)]

pub mod calls;
pub mod row;

ghost use Rattle.std.specs.Prelude.{map, ◌≡◌, ◌/◌, ◌≤◌, ◌<◌, length};
ghost use Rattle.ring.specs.Room.{laid};
ghost use Rattle.shifted.specs.Shifted.{up_of};
ghost use Rattle.reason_check.specs.Told.{ground};
ghost use Rattle.clear_path.specs.Lent.{LegsLent};
ghost use Rattle.clear_path.specs.Path.{corners_at, leg_found, first_leg};

use reason_check::Ground;
use reason_search::search;
use ring::next;
use shifted::lift;
use whole_moves::lift_moved;

// What is found: every leg is clear; this is the first leg that is not, and this edge the first that is not parted there; it is,
// and the way is enclosed.
#[derive(Clone, Copy, Debug, PartialEq, Eq)]
pub enum PathGround {
    Clear,
    Edge { leg: usize, edge: usize },
    Enclosed(usize),
}

// The corners of the orbiting polygon at the point i of a path, moved up, at the front of the room.
pub fn place(orbiting: &[i32], path: &[i32], i: usize, room: &mut [u64])
    requires { (length orbiting.now ≤ length room.old) × (i < length path.now / 2) }
    ensures { room.new ≡ laid (corners_at orbiting.now path.now i) room.old }
{
    lift_moved(orbiting, path[2 * i], path[2 * i + 1], room);
}

// What the search finds on the leg from the point i to the next, from the last to the first.
fn search_leg(st: &[u64], orbiting: &[i32], path: &[i32], i: usize) -> Ground
    requires { LegsLent st.now orbiting.now path.now × (i < length path.now / 2) }
    ensures { ground result ≡ leg_found st.now orbiting.now path.now i }
{
    let mut a = [0u64; 512];
    let mut b = [0u64; 512];
    let mut lines = [0u64; 1024];
    place(orbiting, path, i, &mut a);
    place(orbiting, path, next(i, path.len() / 2), &mut b);
    search(st, &a[..orbiting.len()], &b[..orbiting.len()], &mut lines)
}

// The first leg that is not clear, and why.
fn first_leg(st: &[u64], orbiting: &[i32], path: &[i32]) -> PathGround
    requires { LegsLent st.now orbiting.now path.now }
    ensures { result ≡ first_leg (leg_found st.now orbiting.now path.now) 0
        (length path.now / 2) }
{
    let n = path.len() / 2;
    for i in 0..n {
        match search_leg(st, orbiting, path, i) {
            Ground::Clear => {}
            Ground::Edge(edge) => return PathGround::Edge { leg: i, edge },
            Ground::Enclosed => return PathGround::Enclosed(i),
        }
    }
    PathGround::Clear
}

// The same of a stationary polygon that is not moved up.
fn path_ground(stationary: &[i32], orbiting: &[i32], path: &[i32]) -> PathGround
    requires { LegsLent (map up_of stationary.now) orbiting.now path.now }
    ensures { result ≡ first_leg (leg_found (map up_of stationary.now) orbiting.now path.now) 0
        (length path.now / 2) }
{
    let mut st = [0u64; 512];
    lift(stationary, &mut st);
    first_leg(&st[..stationary.len()], orbiting, path)
}
