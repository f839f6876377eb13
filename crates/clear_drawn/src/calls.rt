// The public calls: clear_move, check_reason.
ghost use Rattle.std.specs.Prelude.{◌≡◌, length};
ghost use Rattle.clear_drawn.specs.Calls.{judged, clear_move_call, clear_move_room, check_reason_call};

use crate::{check_move, judge};
use clear_aside::Found;
use drawn_rows::{drawn_move, drawn_reason};
use plane::Point;
use refusals::Refusal;

// Whether the disc, as drawn, moved to `from` and going straight on to `to`, is found to be clear of the stationary polygon all
// the way but for a depth; if so, the room holds the reason at its front: p.x p.y q.x q.y for each stationary edge, of the grid.
#[tactic(auto, using(crate::proofs::Handed::move_tested, refusals::proofs::Tests::refused))]
pub fn clear_move(
    stationary: &[f64],
    orbiting: &[f64],
    from: Point,
    to: Point,
    units: u32,
    reason: &mut [i32],
) -> Result<Found, Refusal>
    ensures result_value { judged result ≡ clear_move_call stationary.now orbiting.now from to units
        (length reason.old) }
    ensures reason_after { reason.new ≡ clear_move_room stationary.now orbiting.now from to units
        reason.old }
{
    let path = [from.x, from.y, to.x, to.y];
    drawn_move(stationary, orbiting, &path, units)?;
    judge(stationary, orbiting, &path, units, reason)
}

// Whether a reason that is lent holds for the disc put by `how`.
#[tactic(auto, using(crate::proofs::Handed::reason_tested, refusals::proofs::Tests::refused))]
pub fn check_reason(
    stationary: &[f64],
    orbiting: &[f64],
    from: Point,
    to: Point,
    units: u32,
    how: u32,
    reason: &[i32],
) -> Result<Found, Refusal>
    ensures { judged result ≡ check_reason_call stationary.now orbiting.now from to units how
        reason.now }
{
    let path = [from.x, from.y, to.x, to.y];
    drawn_reason(stationary, orbiting, &path, units, how, reason)?;
    Ok(check_move(stationary, orbiting, &path, units, how, reason))
}
