// Whether a whole move is clear, with the reason: the lent coordinates are moved up by a million, and then searched or checked.
#![tactic(auto)]

pub mod calls;
pub mod row;

ghost use Rattle.std.specs.Prelude.{map, ◌≡◌, ◌≤◌, length};
ghost use Rattle.refusals.specs.Answers.{outcome, left};
ghost use Rattle.shifted.specs.Shifted.{up_of};
ghost use Rattle.whole_moves.specs.Moved.{moved_up};
ghost use Rattle.reasons.specs.Check.{check_of};
ghost use Rattle.reason_check.specs.Told.{ground};
ghost use Rattle.reason_search.specs.Room.{room_of};
ghost use Rattle.clear_calls.specs.Lent.{WholeMove, WholeReason};
ghost use Rattle.clear_calls.specs.Calls.{judged, found_of, short_room, written};

use reason_check::Ground;
use refusals::Refusal;
use refusals::screen::fit;
use shifted::lift;
use whole_moves::{lift_moved, lower};

// The check of a reason.
fn check(stationary: &[i32], orbiting: &[i32], dx: i32, dy: i32, reason: &[i32]) -> Ground
    requires { WholeReason stationary.now orbiting.now dx dy reason.now }
    ensures { ground result ≡ check_of (map up_of stationary.now) (map up_of orbiting.now)
        (moved_up orbiting.now dx dy) (map up_of reason.now) }
{
    let mut st = [0u64; 512];
    let mut a = [0u64; 512];
    let mut b = [0u64; 512];
    let mut ls = [0u64; 1024];
    lift(stationary, &mut st);
    lift(orbiting, &mut a);
    lift_moved(orbiting, dx, dy, &mut b);
    lift(reason, &mut ls);
    reason_check::check(
        &st[..stationary.len()],
        &a[..orbiting.len()],
        &b[..orbiting.len()],
        &ls[..reason.len()],
    )
}

// The search for one, whose lines are at the front of the room.
fn search(stationary: &[i32], orbiting: &[i32], dx: i32, dy: i32, lines: &mut [u64]) -> Ground
    requires { WholeMove stationary.now orbiting.now dx dy × (1024 ≤ length lines.old) }
    ensures result_value { ground result ≡ found_of stationary.now orbiting.now dx dy }
    ensures lines_after { lines.new ≡ room_of (map up_of stationary.now) (map up_of orbiting.now)
        (moved_up orbiting.now dx dy) lines.old }
{
    let mut st = [0u64; 512];
    let mut a = [0u64; 512];
    let mut b = [0u64; 512];
    lift(stationary, &mut st);
    lift(orbiting, &mut a);
    lift_moved(orbiting, dx, dy, &mut b);
    reason_search::search(
        &st[..stationary.len()],
        &a[..orbiting.len()],
        &b[..orbiting.len()],
        lines,
    )
}

// What is found, and where it is clear the reason in the room, or the refusal of a room that is too short for it.
fn judge(
    stationary: &[i32],
    orbiting: &[i32],
    dx: i32,
    dy: i32,
    reason: &mut [i32],
) -> Result<Ground, Refusal>
    requires { WholeMove stationary.now orbiting.now dx dy }
    ensures { (judged result ≡ outcome
        (short_room stationary.now orbiting.now dx dy (length reason.old))
        (found_of stationary.now orbiting.now dx dy))
        × (reason.new ≡ left
        (short_room stationary.now orbiting.now dx dy (length reason.old))
        (written stationary.now orbiting.now dx dy reason.old)
        reason.old) }
{
    let mut lines = [0u64; 1024];
    match search(stationary, orbiting, dx, dy, &mut lines) {
        Ground::Clear => {
            let needed = 4 * (stationary.len() / 2);
            fit(needed, reason.len())?;
            lower(&lines, needed, reason);
            Ok(Ground::Clear)
        }
        found => Ok(found),
    }
}
