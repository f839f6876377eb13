// Says what a move runs into, or why it is clear. Standard input has the move's x and y and the tolerance as bit patterns, eight bytes
// each, and then a book whose first ring is the stationary polygon and whose second is the orbiting one.
#![tactic(auto)]

mod say;

ghost use Rattle.std.specs.Prelude.{◌≡◌, ◌+◌, ◌*◌, ◌≤◌, length};
ghost use Rattle.print.specs.Text.{Put};
ghost use Rattle.refusals.specs.Rings.{vertices_most};
ghost use Rattle.pair_input.specs.Input.{words_bytes, first_part, second_part};
ghost use Rattle.explain_move.specs.Said.{move_in, tolerance_in, explained_text, explained_book_text, explain_text};

use book_layout::{BOOK_MOST, NUMBERS_MOST};
use book_reader::calls::read_book;
use grounds::calls::explain_collision;
use lines::put_number;
use number_bytes::{float_of, number8};
use plane::Point;
use refusals::RINGS_MOST;
use say::put_explained;
use std::io;
use std::io::Read;

// Bytes of the three words before the book.
const WORDS_BYTES: usize = 24;

// The move.
fn move_in(input: &[u8]) -> Point
    requires { words_bytes ≤ length input.now }
    ensures { result ≡ move_in input.now }
{
    Point {
        x: float_of(number8(input, 0)),
        y: float_of(number8(input, 8)),
    }
}

// The tolerance.
fn tolerance_in(input: &[u8]) -> f64
    requires { words_bytes ≤ length input.now }
    ensures { result ≡ tolerance_in input.now }
{
    float_of(number8(input, 16))
}

// What is printed for two polygons.
fn put_pair(
    stationary: &[f64],
    orbiting: &[f64],
    translation: Point,
    tolerance: f64,
    out: &mut [u8],
) -> usize
    requires { 120 ≤ length out.old }
    ensures { Put out.old 0 (explained_text stationary.now orbiting.now translation tolerance)
        out.new result }
{
    put_explained(
        explain_collision(stationary, orbiting, translation, tolerance),
        out,
    )
}

// The same for the first n vertices of a list and the m after them.
fn put_rings(
    xs: &[f64],
    n: usize,
    m: usize,
    translation: Point,
    tolerance: f64,
    out: &mut [u8],
) -> usize
    requires n_le_vertices_most { (n ≤ vertices_most) × (m ≤ vertices_most) × (2 * n + 2 * m ≤ length xs.now) }
    requires in_bounds { 120 ≤ length out.old }
    ensures { Put out.old 0 (explained_text (first_part xs.now n) (second_part xs.now n m) translation tolerance)
        out.new result }
{
    let middle = 2 * n;
    let end = middle + 2 * m;
    put_pair(&xs[..middle], &xs[middle..end], translation, tolerance, out)
}

// What is printed for a book. A book of one ring leaves the second count 0, and the call refuses a polygon of no vertices.
fn put_book(book: &[u8], translation: Point, tolerance: f64, out: &mut [u8]) -> usize
    requires { 120 ≤ length out.old }
    ensures { Put out.old 0 (explained_book_text book.now translation tolerance) out.new result }
{
    let mut room = [0.0; NUMBERS_MOST];
    let mut counts = [0u32; RINGS_MOST];
    let mut parts = [0u32; RINGS_MOST];
    match read_book(book, &mut room, &mut counts, &mut parts) {
        Ok(_) => put_rings(
            &room,
            counts[0] as usize,
            counts[1] as usize,
            translation,
            tolerance,
            out,
        ),
        Err(no) => put_number(no.number(), out),
    }
}

// What is printed for an input. What is too short for the three words is refused before any book.
fn put_input(input: &[u8], out: &mut [u8]) -> usize
    requires { 120 ≤ length out.old }
    ensures { Put out.old 0 (explain_text input.now) out.new result }
{
    if input.len() < WORDS_BYTES {
        return put_number(1, out);
    }
    put_book(
        &input[WORDS_BYTES..],
        move_in(input),
        tolerance_in(input),
        out,
    )
}

// One byte more than the words and the longest book is read, so that what is too long is refused like any other wrong length.
fn main(rt: HostRuntime) -> io::Result<()> {
    let mut input = Vec::new(rt.alloc());
    let most = WORDS_BYTES + BOOK_MOST + 1;
    rt.reader().take(most as u64).read_to_end(&mut input)?;
    let mut out = [0u8; 120];
    let length = put_input(input.as_slice(), &mut out);
    rt.write_all(&out[..length])
}
