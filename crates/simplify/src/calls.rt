// The public call: simplify_polygon.
#![tactic(auto)]

ghost use Rattle.std.specs.Prelude.{◌≡◌, length};
ghost use Rattle.refusals.specs.Answers.{answered};
ghost use Rattle.simplify.specs.Calls.{simplify_call, simplify_room};

use refusals::{Refusal, row, screen};

// The list without its collinear points, in the room: how many points were written.
#[tactic(auto, using(refusals::proofs::Tests::refused), unfolding(crate::specs::Calls::simplify_refusal))]
pub fn simplify_polygon(list: &[f64], tolerance: f64, room: &mut [f64]) -> Result<usize, Refusal>
    ensures result_value { answered result ≡ simplify_call list.now tolerance (length room.old) }
    ensures room_after { room.new ≡ simplify_room list.now tolerance room.old }
{
    row::list(list, tolerance)?;
    screen::room(crate::points(list, tolerance), room.len())?;
    Ok(crate::simplify(list, tolerance, room))
}
