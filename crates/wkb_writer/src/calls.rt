// The public call: a ring's drawing in well-known binary.
#![tactic(auto, using(refusals::proofs::Tests::refused))]

ghost use Rattle.std.specs.Prelude.{◌≡◌, length};
ghost use Rattle.refusals.specs.Answers.{answered, tested};
ghost use Rattle.wkb_layout.specs.Writer.{write_wkb_refusal, write_wkb_call, write_wkb_room};

use crate::store::put_drawing;
use refusals::screen::short;
use refusals::{Refusal, row};
use wkb_layout::{HEAD_BYTES, POINT_BYTES};

// What refuses the writer, for a room of so many bytes.
#[tactic(auto, using(refusals::proofs::Tests::refused), unfolding(wkb_layout::specs::Writer::write_wkb_refusal))]
fn refusal(ring: &[f64], size: usize) -> Result<(), Refusal>
    ensures { tested result ≡ write_wkb_refusal ring.now size }
{
    row::polygon(ring)?;
    short(HEAD_BYTES + POINT_BYTES * (ring.len() / 2 + 1), size)
}

// Writes the drawing of a ring at the front of the room, little-endian and closed by its first vertex, and answers how many bytes it has:
// refusal 1, 8, 9, 2 or 4 where a test fails, and then the room is unchanged.
pub fn write_wkb(ring: &[f64], room: &mut [u8]) -> Result<usize, Refusal>
    ensures result_value { answered result ≡ write_wkb_call ring.now (length room.old) }
    ensures room_after { room.new ≡ write_wkb_room ring.now room.old }
{
    refusal(ring, room.len())?;
    Ok(put_drawing(ring, room))
}
