// The public calls: mirror_polygon, open_ring.
#![tactic(auto, using(refusals::proofs::Tests::refused, crate::proofs::Screened::fits, crate::proofs::Opening::open_le), unfolding(crate::specs::Calls::copy_refusal))]

ghost use Rattle.std.specs.Prelude.{◌≡◌, length};
ghost use Rattle.refusals.specs.Answers.{answered};
ghost use Rattle.ring_copies.specs.Calls.{mirror_call, mirror_room, open_call, open_room};

use refusals::{Refusal, row, screen};
use ring::room::copy;

// The ring mirrored in the y axis, its order reversed, in the room: how many vertices were written.
pub fn mirror_polygon(ring: &[f64], room: &mut [f64]) -> Result<usize, Refusal>
    ensures result_value { answered result ≡ mirror_call ring.now (length room.old) }
    ensures room_after { room.new ≡ mirror_room ring.now room.old }
{
    row::ring(ring)?;
    let n = ring.len() / 2;
    screen::room(n, room.len())?;
    crate::mirror(ring, room);
    Ok(n)
}

// The ring without its closing repeat, in the room: how many vertices were written.
pub fn open_ring(ring: &[f64], room: &mut [f64]) -> Result<usize, Refusal>
    ensures result_value { answered result ≡ open_call ring.now (length room.old) }
    ensures room_after { room.new ≡ open_room ring.now room.old }
{
    row::ring(ring)?;
    let n = crate::open_count(ring);
    screen::room(n, room.len())?;
    copy(ring, 2 * n, room);
    Ok(n)
}
