// The public call: the rings of a book.
#![tactic(auto, using(refusals::proofs::Tests::refused))]

ghost use Rattle.std.specs.Prelude.{◌≡◌, length};
ghost use Rattle.refusals.specs.Answers.{answered};
ghost use Rattle.book_layout.specs.Reader.{read_call, read_room, read_counts, read_parts};

use crate::check::refusal;
use crate::load::load_book;
use refusals::Refusal;

// Reads the rings of a book as stored, in order, into the room for coordinates, their vertex counts into the room for counts and their
// parts into the room for parts, and answers how many rings there are: refusal 7 with the place of the first fault, or 4, and then all three
// rooms are unchanged.
pub fn read_book(
    book: &[u8],
    coordinates: &mut [f64],
    counts: &mut [u32],
    parts: &mut [u32],
) -> Result<usize, Refusal>
    ensures { (answered result ≡ read_call book.now (length coordinates.old) (length counts.old) (length parts.old))
        × (coordinates.new
        ≡ read_room book.now coordinates.old (length counts.old) (length parts.old))
        × (counts.new
        ≡ read_counts book.now (length coordinates.old) counts.old (length parts.old))
        × (parts.new
        ≡ read_parts book.now (length coordinates.old) (length counts.old) parts.old) }
{
    refusal(book, coordinates.len(), counts.len(), parts.len())?;
    Ok(load_book(book, coordinates, counts, parts))
}
