// The public call: the ring of a drawing in well-known binary.
#![tactic(auto, using(refusals::proofs::Tests::refused))]

ghost use Rattle.std.specs.Prelude.{◌≡◌, length};
ghost use Rattle.refusals.specs.Answers.{answered};
ghost use Rattle.wkb_layout.specs.Reader.{read_wkb_call, read_wkb_room};

use crate::check::refusal;
use crate::load::load;
use refusals::Refusal;

// Reads the ring of a drawing, without its closing point, into the room, and answers how many vertices it has: refusal 10 with the place of
// the first fault, or 4, and then the room is unchanged.
pub fn read_wkb(wkb: &[u8], room: &mut [f64]) -> Result<usize, Refusal>
    ensures result_value { answered result ≡ read_wkb_call wkb.now (length room.old) }
    ensures room_after { room.new ≡ read_wkb_room wkb.now room.old }
{
    refusal(wkb, room.len())?;
    Ok(load(wkb, room))
}
