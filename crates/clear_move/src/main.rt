// Says whether a whole move is clear, and why. Standard input has the move's x and y, four bytes each in two's complement, and
// then a book whose first ring is the stationary polygon and whose second is the orbiting one, at the start; all coordinates are
// whole.
#![tactic(auto)]

mod say;
mod shared;

ghost use Rattle.std.specs.Prelude.{◌≡◌, true, ◌+◌, ◌*◌, ◌≤◌, length};
ghost use Rattle.print.specs.Text.{Put};
ghost use Rattle.refusals.specs.Bounds.{coordinates};
ghost use Rattle.refusals.specs.Rings.{vertices_most};
ghost use Rattle.pair_input.specs.Input.{first_part, second_part};
ghost use Rattle.whole_input.specs.Whole.{wholes};
ghost use Rattle.clear_move.specs.Said.{pair_text, rings_text, book_text, input_text};

use book_layout::{BOOK_MOST, NUMBERS_MOST};
use book_reader::calls::read_book;
use clear_calls::calls::clear_move;
use lines::put_refusal;
use refusals::{RINGS_MOST, Refusal};
use say::put_judged;
use std::io;
use std::io::Read;
use whole_input::{are_whole, whole_list, whole_word};

// Bytes of the move.
const MOVE_BYTES: usize = 8;

// Coordinates of a polygon, and numbers of its reason.
const POLYGON_MOST: usize = 512;

const REASON_MOST: usize = 1024;

// Bytes of the longest text: a heading, 256 lines of at most 96 bytes, and 22 for each edge.
const TEXT_MOST: usize = 31000;

// What is printed for two polygons and a move.
fn put_pair(stationary: &[i32], orbiting: &[i32], dx: i32, dy: i32, out: &mut [u8]) -> usize
    requires { (length stationary.now ≤ 512) × (31000 ≤ length out.old) }
    ensures { Put out.old 0 (pair_text stationary.now orbiting.now dx dy) out.new result }
{
    let mut reason = [0i32; REASON_MOST];
    let answer = clear_move(stationary, orbiting, dx, dy, &mut reason);
    put_judged(answer, &reason, stationary.len() / 2, out)
}

// The same for polygons of whole coordinates that are floats.
fn put_polygons(stationary: &[f64], orbiting: &[f64], dx: i32, dy: i32, out: &mut [u8]) -> usize
    requires stationary_len_bound { (length stationary.now ≤ 512) × (coordinates stationary.now ≡ true) }
    requires orbiting_len_bound { (length orbiting.now ≤ 512) × (coordinates orbiting.now ≡ true) }
    requires in_bounds { 31000 ≤ length out.old }
    ensures { Put out.old 0 (pair_text (wholes stationary.now) (wholes orbiting.now) dx dy)
        out.new result }
{
    let mut st = [0i32; POLYGON_MOST];
    let mut orb = [0i32; POLYGON_MOST];
    whole_list(stationary, &mut st);
    whole_list(orbiting, &mut orb);
    put_pair(&st[..stationary.len()], &orb[..orbiting.len()], dx, dy, out)
}

// The same for the first n vertices of a list and the m after them.
fn put_two(xs: &[f64], n: usize, m: usize, dx: i32, dy: i32, out: &mut [u8]) -> usize
    requires n_le_vertices_most { (n ≤ vertices_most) × (m ≤ vertices_most) × (2 * n + 2 * m ≤ length xs.now) }
    requires xs_value { (coordinates xs.now ≡ true) × (31000 ≤ length out.old) }
    ensures { Put out.old 0
        (pair_text (wholes (first_part xs.now n)) (wholes (second_part xs.now n m)) dx dy) out.new result }
{
    let middle = 2 * n;
    let end = middle + 2 * m;
    put_polygons(&xs[..middle], &xs[middle..end], dx, dy, out)
}

// What is printed for so many rings.
fn put_rings(
    rings: usize,
    xs: &[f64],
    n: usize,
    m: usize,
    dx: i32,
    dy: i32,
    out: &mut [u8],
) -> usize
    requires n_le_vertices_most { (n ≤ vertices_most) × (m ≤ vertices_most) × (2 * n + 2 * m ≤ length xs.now) }
    requires xs_value { (coordinates xs.now ≡ true) × (31000 ≤ length out.old) }
    ensures { Put out.old 0
        (rings_text rings xs.now (first_part xs.now n) (second_part xs.now n m) dx dy)
        out.new result }
{
    if rings == 1 {
        return put_refusal(Refusal::Few(1), out);
    }
    if are_whole(xs) {
        put_two(xs, n, m, dx, dy, out)
    } else {
        put_refusal(Refusal::Number, out)
    }
}

// What is printed for a book. What the room holds beyond the book's numbers is 0, and whole.
fn put_book(book: &[u8], dx: i32, dy: i32, out: &mut [u8]) -> usize
    requires { 31000 ≤ length out.old }
    ensures { Put out.old 0 (book_text book.now dx dy) out.new result }
{
    let mut room = [0.0; NUMBERS_MOST];
    let mut counts = [0u32; RINGS_MOST];
    let mut parts = [0u32; RINGS_MOST];
    match read_book(book, &mut room, &mut counts, &mut parts) {
        Ok(rings) => put_rings(
            rings,
            &room,
            counts[0] as usize,
            counts[1] as usize,
            dx,
            dy,
            out,
        ),
        Err(no) => put_refusal(no, out),
    }
}

// What is printed for an input. What is too short for the move is refused before any book.
fn put_input(input: &[u8], out: &mut [u8]) -> usize
    requires { 31000 ≤ length out.old }
    ensures { Put out.old 0 (input_text input.now) out.new result }
{
    if input.len() < MOVE_BYTES {
        return put_refusal(Refusal::Book(0), out);
    }
    put_book(
        &input[MOVE_BYTES..],
        whole_word(input, 0),
        whole_word(input, 4),
        out,
    )
}

// One byte more than the move and the longest book is read, so that what is too long is refused like any other wrong length.
fn main(rt: HostRuntime) -> io::Result<()> {
    let mut input = Vec::new(rt.alloc());
    let most = MOVE_BYTES + BOOK_MOST + 1;
    rt.reader().take(most as u64).read_to_end(&mut input)?;
    let mut out = [0u8; TEXT_MOST];
    let length = put_input(input.as_slice(), &mut out);
    rt.write_all(&out[..length])
}
