// Whether a drawn move is clear to a depth, with the reason: the floats are put on the grid and moved up, and then searched or
// checked, with the disc put aside where that is needed.
#![tactic(auto)]

pub mod calls;

ghost use Rattle.std.specs.Prelude.{true, ◌≡◌, ◌≤◌, ◌<◌, ◌*◌, ◌/◌, length};
ghost use Rattle.ring.specs.Room.{laid};
ghost use Rattle.refusals.specs.Bounds.{every};
ghost use Rattle.refusals.specs.Answers.{outcome, left};
ghost use Rattle.reason_check.specs.Told.{ground};
ghost use Rattle.shifted.specs.Shifted.{spot_in, SmallRing};
ghost use Rattle.to_grid.specs.Grid.{fits_grid};
ghost use Rattle.drawn_aside.specs.Told.{ring_up};
ghost use Rattle.clear_aside.specs.Aside.{least};
ghost use Rattle.drawn_rows.specs.Lent.{DrawnLent, LinesLent};
ghost use Rattle.clear_drawn.specs.Legs.{leg_least, leg_checked, LegLent, LegKept};
ghost use Rattle.clear_drawn.specs.Calls.{judged, move_least, MoveKept, short_for, written_for, with_how, move_checked};

use clear_aside::{Found, check_aside, search_aside};
use clear_path::place;
use reason_check::Ground;
use refusals::Refusal;
use refusals::screen::fit;
use shifted::{Spot, lift, spot_of, up};
use to_grid::{lay, on_grid};
use whole_moves::lower;

// The numbers of a list on the grid and moved up, at the front of the room.
pub fn lift_drawn(list: &[f64], units: u32, room: &mut [u64])
    requires list_value { (every (fits_grid units) list.now ≡ true) × (1 ≤ units) × (units ≤ 1000000) }
    requires list_in_bounds { length list.now ≤ length room.old }
    ensures { room.new ≡ laid (ring_up units list.now) room.old }
{
    for (i, &x) in list.iter().enumerate() {
        room[i] = up(on_grid(x, units));
    }
}

// Point i of a path, moved up.
fn spot_in(path: &[i32], i: usize) -> Spot
    requires { i < length path.now / 2 }
    ensures { result ≡ spot_in path.now i }
{
    spot_of(path[2 * i], path[2 * i + 1])
}

// What is found on the leg from the point i to the point k, with the lines at the front of the room where it is clear.
pub fn search_leg(
    st: &[u64],
    disc: &[i32],
    path: &[i32],
    i: usize,
    k: usize,
    lines: &mut [u64],
) -> Found
    requires { LegLent st.now disc.now path.now i k × (4 * (length st.now / 2) ≤ length lines.old) }
    ensures result_value { least result ≡ leg_least st.now disc.now path.now i k }
    ensures leg_kept { LegKept st.now disc.now path.now i k result lines.new }
{
    let mut a = [0u64; 512];
    let mut b = [0u64; 512];
    place(disc, path, i, &mut a);
    place(disc, path, k, &mut b);
    let from = spot_in(path, i);
    let to = spot_in(path, k);
    search_aside(st, &a[..disc.len()], &b[..disc.len()], from, to, lines)
}

// What the check finds there of lines, with the disc put by `how`.
fn check_leg(st: &[u64], disc: &[i32], path: &[i32], how: u32, lines: &[u64]) -> Ground
    requires leg_lent { LegLent st.now disc.now path.now 0 1 × (how ≤ 20) }
    requires st_in_bounds { (4 * (length st.now / 2) ≤ length lines.now) × SmallRing lines.now }
    ensures { ground result ≡ leg_checked st.now disc.now path.now 0 1 how lines.now }
{
    let mut a = [0u64; 512];
    let mut b = [0u64; 512];
    place(disc, path, 0, &mut a);
    place(disc, path, 1, &mut b);
    let from = spot_in(path, 0);
    let to = spot_in(path, 1);
    check_aside(st, &a[..disc.len()], &b[..disc.len()], from, to, how, lines)
}

// What is found of a move.
fn search_move(
    stationary: &[f64],
    orbiting: &[f64],
    path: &[f64],
    units: u32,
    lines: &mut [u64],
) -> Found
    requires { DrawnLent stationary.now orbiting.now path.now units × (length path.now ≡ 4) × (1024 ≤ length lines.old) }
    ensures result_value { least result ≡ move_least stationary.now orbiting.now path.now units }
    ensures move_kept { MoveKept stationary.now orbiting.now path.now units result lines.new }
{
    let mut st = [0u64; 512];
    let mut disc = [0i32; 512];
    let mut points = [0i32; 4];
    lift_drawn(stationary, units, &mut st);
    lay(orbiting, units, &mut disc);
    lay(path, units, &mut points);
    search_leg(
        &st[..stationary.len()],
        &disc[..orbiting.len()],
        &points[..path.len()],
        0,
        1,
        lines,
    )
}

// What is found, and where it is clear the reason in the room, or the refusal of a room that is too short for it.
fn judge(
    stationary: &[f64],
    orbiting: &[f64],
    path: &[f64],
    units: u32,
    reason: &mut [i32],
) -> Result<Found, Refusal>
    requires { DrawnLent stationary.now orbiting.now path.now units × (length path.now ≡ 4) }
    ensures { let l = move_least stationary.now orbiting.now path.now units in
        let no = short_for stationary.now orbiting.now path.now units l (length reason.old) in
        (judged result ≡ outcome no l)
        × (reason.new ≡ left no
        (written_for stationary.now orbiting.now path.now units l reason.old)
        reason.old) }
{
    let mut lines = [0u64; 1024];
    match search_move(stationary, orbiting, path, units, &mut lines) {
        Found::Clear(how) => {
            let needed = 4 * (stationary.len() / 2);
            fit(needed, reason.len())?;
            lower(&lines, needed, reason);
            Ok(Found::Clear(how))
        }
        Found::Edge(j) => Ok(Found::Edge(j)),
        Found::Enclosed(how) => Ok(Found::Enclosed(how)),
    }
}

// What is found of a ground with this `how`.
fn with_how(g: Ground, how: u32) -> Found
    ensures { least result ≡ with_how (ground g) how }
{
    match g {
        Ground::Clear => Found::Clear(how),
        Ground::Edge(j) => Found::Edge(j),
        Ground::Enclosed => Found::Enclosed(how),
    }
}

// What the check finds of a reason for a move.
fn check_move(
    stationary: &[f64],
    orbiting: &[f64],
    path: &[f64],
    units: u32,
    how: u32,
    reason: &[i32],
) -> Found
    requires drawn_lent { DrawnLent stationary.now orbiting.now path.now units × (length path.now ≡ 4) }
    requires lines_lent { LinesLent stationary.now reason.now × (how ≤ 20) }
    ensures { least result ≡ with_how
        (move_checked stationary.now orbiting.now path.now units how reason.now)
        how }
{
    let mut st = [0u64; 512];
    let mut disc = [0i32; 512];
    let mut points = [0i32; 4];
    let mut lines = [0u64; 1024];
    lift_drawn(stationary, units, &mut st);
    lay(orbiting, units, &mut disc);
    lay(path, units, &mut points);
    lift(reason, &mut lines);
    let g = check_leg(
        &st[..stationary.len()],
        &disc[..orbiting.len()],
        &points[..path.len()],
        how,
        &lines[..reason.len()],
    );
    with_how(g, how)
}
