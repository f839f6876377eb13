// The public call: the book of a list of rings.
#![tactic(auto, using(refusals::proofs::Tests::refused))]

ghost use Rattle.std.specs.Prelude.{◌≡◌, length};
ghost use Rattle.refusals.specs.Answers.{answered};
ghost use Rattle.book_layout.specs.Writer.{write_call, write_room};

use crate::lent::refusal;
use crate::store::put_book;
use refusals::Refusal;

// Writes the book of the rings that the coordinates and the vertex counts are, each with its part, at the front of the room, and answers
// how many bytes it has: refusal 1, 2, 4, 8 or 9 where a test fails, and then the room is unchanged.
pub fn write_book(
    coordinates: &[f64],
    counts: &[u32],
    parts: &[u32],
    room: &mut [u8],
) -> Result<usize, Refusal>
    ensures result_value { answered result ≡ write_call coordinates.now counts.now parts.now (length room.old) }
    ensures room_after { room.new ≡ write_room coordinates.now counts.now parts.now room.old }
{
    refusal(coordinates, counts, parts, room.len())?;
    Ok(put_book(coordinates, counts, parts, room))
}
