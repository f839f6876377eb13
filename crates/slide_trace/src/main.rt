// Traces one ring of a book round another and prints the result. Standard input has the tolerance and the smallest move as bit patterns,
// the pass limit, eight bytes each, and then a book whose first ring is the stationary polygon and whose second is the orbiting one.
#![tactic(auto)]

mod say;

ghost use Rattle.std.specs.Prelude.{◌≡◌, ◌+◌, ◌*◌, ◌≤◌, length};
ghost use Rattle.print.specs.Text.{Put};
ghost use Rattle.refusals.specs.Rings.{vertices_most};
ghost use Rattle.pair_input.specs.Input.{words_bytes, first_part, second_part};
ghost use Rattle.slide_trace.specs.Said.{settings_in, trace_text, traced_book_text, input_text};

use book_layout::{BOOK_MOST, NUMBERS_MOST};
use book_reader::calls::read_book;
use lines::put_refusal;
use nfp_sliding::calls::compute_nfp_sliding;
use number_bytes::{float_of, number8};
use refusals::{RINGS_MOST, Refusal, Settings};
use say::put_answer;
use std::io;
use std::io::Read;

// Bytes of the settings, three words.
const SETTINGS_BYTES: usize = 24;

// The settings before the book.
fn settings(input: &[u8]) -> Settings
    requires { words_bytes ≤ length input.now }
    ensures { result ≡ settings_in input.now }
{
    Settings {
        contact_tolerance: float_of(number8(input, 0)),
        min_translation: float_of(number8(input, 8)),
        max_iterations: number8(input, 16),
    }
}

// What is printed for two polygons. The rooms hold every point that 10,000 passes can store.
fn put_trace(stationary: &[f64], orbiting: &[f64], settings: Settings, out: &mut [u8]) -> usize
    requires { 340200 ≤ length out.old }
    ensures { Put out.old 0 (trace_text stationary.now orbiting.now settings) out.new result }
{
    let mut work = [0.0; 20002];
    let mut result = [0.0; 20002];
    let traced = compute_nfp_sliding(stationary, orbiting, settings, &mut work, &mut result);
    put_answer(traced, &result, out)
}

// The same for the first n vertices of a list and the m after them.
fn put_rings(xs: &[f64], n: usize, m: usize, settings: Settings, out: &mut [u8]) -> usize
    requires n_le_vertices_most { (n ≤ vertices_most) × (m ≤ vertices_most) × (2 * n + 2 * m ≤ length xs.now) }
    requires in_bounds { 340200 ≤ length out.old }
    ensures { Put out.old 0 (trace_text (first_part xs.now n) (second_part xs.now n m) settings)
        out.new result }
{
    let middle = 2 * n;
    let end = middle + 2 * m;
    put_trace(&xs[..middle], &xs[middle..end], settings, out)
}

// What is printed for a book. A book of one ring leaves the second count 0, and the trace refuses a polygon of no vertices.
fn put_book(book: &[u8], settings: Settings, out: &mut [u8]) -> usize
    requires { 340200 ≤ length out.old }
    ensures { Put out.old 0 (traced_book_text book.now settings) out.new result }
{
    let mut room = [0.0; NUMBERS_MOST];
    let mut counts = [0u32; RINGS_MOST];
    let mut parts = [0u32; RINGS_MOST];
    match read_book(book, &mut room, &mut counts, &mut parts) {
        Ok(_) => put_rings(&room, counts[0] as usize, counts[1] as usize, settings, out),
        Err(no) => put_refusal(no, out),
    }
}

// What is printed for an input. What is too short for the settings has no book.
fn put_input(input: &[u8], out: &mut [u8]) -> usize
    requires { 340200 ≤ length out.old }
    ensures { Put out.old 0 (input_text input.now) out.new result }
{
    if input.len() < SETTINGS_BYTES {
        return put_refusal(Refusal::Book(0), out);
    }
    put_book(&input[SETTINGS_BYTES..], settings(input), out)
}

// One byte more than the settings and the longest book is read, so that what is too long is refused like any other wrong length.
fn main(rt: HostRuntime) -> io::Result<()> {
    let mut input = Vec::new(rt.alloc());
    let most = SETTINGS_BYTES + BOOK_MOST + 1;
    rt.reader().take(most as u64).read_to_end(&mut input)?;
    let mut out = [0u8; 340200];
    let length = put_input(input.as_slice(), &mut out);
    rt.write_all(&out[..length])
}
