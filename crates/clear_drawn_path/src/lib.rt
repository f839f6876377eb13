// Whether a drawn path is clear to a depth: the search on each of its legs, until one that is not clear. What is drawn is put on
// the grid once.
#![tactic(auto)]

pub mod calls;

ghost use Rattle.std.specs.Prelude.{◌≡◌, ◌/◌, ◌≤◌, ◌<◌, max, length};
ghost use Rattle.ring.specs.Ring.{next_of};
ghost use Rattle.clear_aside.specs.Aside.{least};
ghost use Rattle.clear_drawn.specs.Legs.{leg_least};
ghost use Rattle.drawn_rows.specs.Lent.{DrawnLent};
ghost use Rattle.clear_drawn_path.specs.Path.{leg_count, legs_from};
ghost use Rattle.clear_drawn_path.specs.Lent.{LegsLent, leg_at};
ghost use Rattle.clear_drawn_path.specs.Calls.{path_found};

use clear_aside::{Found, depth_of};
use clear_drawn::{lift_drawn, search_leg};
use ring::next;
use to_grid::lay;

// What is found: every leg is clear but for this depth; this is the first leg that is not, and this edge the first that is not
// parted there; it is, and the way is enclosed.
#[derive(Clone, Copy, Debug, PartialEq, Eq)]
pub enum PathFound {
    Clear(u32),
    Edge { leg: usize, edge: usize },
    Enclosed(usize),
}

// How many legs a path of so many points has.
fn leg_count(points: usize, closed: bool) -> usize
    requires { 1 ≤ points }
    ensures { result ≡ leg_count points closed }
{
    if closed { points } else { points - 1 }
}

// What is found on the leg from the point i to the next, from the last to the first.
fn search_next(st: &[u64], disc: &[i32], path: &[i32], i: usize) -> Found
    requires { LegsLent st.now disc.now path.now × (i < length path.now / 2) }
    ensures { least result ≡ leg_at st.now disc.now path.now i }
{
    let mut lines = [0u64; 1024];
    search_leg(st, disc, path, i, next(i, path.len() / 2), &mut lines)
}

// The first of so many legs that is not clear, and why; else the depth of all.
fn first_leg(st: &[u64], disc: &[i32], path: &[i32], legs: usize) -> PathFound
    requires { LegsLent st.now disc.now path.now × (legs ≤ length path.now / 2) }
    ensures { result ≡ legs_from (leg_at st.now disc.now path.now) 0 legs }
{
    let mut depth = 0;
    for i in 0..legs {
        match search_next(st, disc, path, i) {
            Found::Clear(how) => depth = depth.max(depth_of(how)),
            Found::Edge(edge) => return PathFound::Edge { leg: i, edge },
            Found::Enclosed(_) => return PathFound::Enclosed(i),
        }
    }
    PathFound::Clear(depth)
}

// The same of what is drawn.
fn path_found(
    stationary: &[f64],
    orbiting: &[f64],
    path: &[f64],
    closed: bool,
    units: u32,
) -> PathFound
    requires { DrawnLent stationary.now orbiting.now path.now units × (2 ≤ length path.now / 2) × (length path.now ≤ 20002) }
    ensures { result ≡ path_found stationary.now orbiting.now path.now closed units }
{
    let mut st = [0u64; 512];
    let mut disc = [0i32; 512];
    let mut points = [0i32; 20002];
    lift_drawn(stationary, units, &mut st);
    lay(orbiting, units, &mut disc);
    lay(path, units, &mut points);
    let legs = leg_count(path.len() / 2, closed);
    first_leg(
        &st[..stationary.len()],
        &disc[..orbiting.len()],
        &points[..path.len()],
        legs,
    )
}
