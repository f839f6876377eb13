// The outline book.
ghost use Rattle.std.specs.Prelude.{◌≡◌, length};
ghost use Rattle.book_layout.specs.Writer.{write_call, write_room};
ghost use Rattle.book_layout.specs.Reader.{read_call, read_room, read_counts, read_parts};
ghost use Rattle.handed.specs.Handed.{returned, told, told_place, itself};

use handed::refusal::hand_refusal;
use handed::value::hand_count;

// The book of the rings that the coordinates and the vertex counts are, each with its part, at the front of the room: how many bytes it has.
#[unsafe(no_mangle)]
pub extern "C" fn byr_write_book(
    coordinates: &[f64],
    counts: &[u32],
    parts: &[u32],
    room: &mut [u8],
    bytes: &mut u64,
    place: &mut u64,
) -> u32
    ensures value { result ≡ returned (write_call coordinates.now counts.now parts.now (length room.old)) }
    ensures bytes_after { bytes.new ≡ told itself
        (write_call coordinates.now counts.now parts.now (length room.old)) bytes.old }
    ensures place_after { place.new ≡ told_place
        (write_call coordinates.now counts.now parts.now (length room.old)) place.old }
    ensures room_after { room.new ≡ write_room coordinates.now counts.now parts.now room.old }
{
    hand_refusal(
        hand_count(
            book_writer::calls::write_book(coordinates, counts, parts, room),
            bytes,
        ),
        place,
    )
}

// The rings of a book as stored, in the room for coordinates, their vertex counts in the room for counts and their parts in the room for
// parts: how many rings there are, or the place of the first fault.
#[unsafe(no_mangle)]
pub extern "C" fn byr_read_book(
    book: &[u8],
    coordinates: &mut [f64],
    counts: &mut [u32],
    parts: &mut [u32],
    rings: &mut u64,
    place: &mut u64,
) -> u32
    ensures value { result ≡ returned
        (read_call book.now (length coordinates.old) (length counts.old) (length parts.old)) }
    ensures rings_after { rings.new ≡ told itself
        (read_call book.now (length coordinates.old) (length counts.old) (length parts.old)) rings.old }
    ensures place_after { place.new ≡ told_place
        (read_call book.now (length coordinates.old) (length counts.old) (length parts.old)) place.old }
    ensures coordinates_after { coordinates.new
        ≡ read_room book.now coordinates.old (length counts.old) (length parts.old) }
    ensures counts_after { counts.new
        ≡ read_counts book.now (length coordinates.old) counts.old (length parts.old) }
    ensures parts_after { parts.new
        ≡ read_parts book.now (length coordinates.old) (length counts.old) parts.old }
{
    hand_refusal(
        hand_count(
            book_reader::calls::read_book(book, coordinates, counts, parts),
            rings,
        ),
        place,
    )
}
