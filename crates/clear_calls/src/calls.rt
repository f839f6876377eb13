// The public calls: clear_move, check_reason.
ghost use Rattle.std.specs.Prelude.{◌≡◌, length};
ghost use Rattle.clear_calls.specs.Calls.{judged, clear_move_call, clear_move_room, check_reason_call};

use crate::{check, judge, row};
use reason_check::Ground;
use refusals::Refusal;

// Whether the orbiting polygon, moved by (dx, dy) from where it lies, is found to be clear of the stationary one all the way; if
// so, the room holds the reason at its front: p.x p.y q.x q.y for each stationary edge.
#[tactic(auto, using(crate::proofs::Passed::move_lent, refusals::proofs::Tests::refused))]
pub fn clear_move(
    stationary: &[i32],
    orbiting: &[i32],
    dx: i32,
    dy: i32,
    reason: &mut [i32],
) -> Result<Ground, Refusal>
    ensures { (judged result ≡ clear_move_call stationary.now orbiting.now dx dy (length reason.old))
        × (reason.new ≡ clear_move_room stationary.now orbiting.now dx dy reason.old) }
{
    row::whole_move(stationary, orbiting, dx, dy)?;
    judge(stationary, orbiting, dx, dy, reason)
}

// Whether a reason that is lent holds.
#[tactic(auto, using(crate::proofs::Passed::reason_lent, refusals::proofs::Tests::refused))]
pub fn check_reason(
    stationary: &[i32],
    orbiting: &[i32],
    dx: i32,
    dy: i32,
    reason: &[i32],
) -> Result<Ground, Refusal>
    ensures { judged result ≡ check_reason_call stationary.now orbiting.now dx dy reason.now }
{
    row::reason(stationary, orbiting, dx, dy, reason)?;
    Ok(check(stationary, orbiting, dx, dy, reason))
}
