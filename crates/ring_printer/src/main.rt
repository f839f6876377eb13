// The ring printer: reads a book from standard input and prints its rings, the coordinates by their bit patterns.
#![tactic(auto)]

ghost use Rattle.std.specs.Prelude.{◌≡◌, true, ◌+◌, ◌*◌, ◌≤◌, length};
ghost use Rattle.print.specs.Text.{Put};
ghost use Rattle.refusals.specs.Rings.{vertices_most, rings_most, total, sized_all};
ghost use Rattle.ring_printer.specs.Said.{rings_line, ring_line, ring_text, ring_texts, rings_text, book_text};

use book_layout::{BOOK_MOST, NUMBERS_MOST};
use book_reader::calls::read_book;
use lines::{put_points, put_refusal};
use print::{put_decimal, put_text};
use refusals::RINGS_MOST;
use std::io;
use std::io::Read;

// The first line: how many rings there are.
fn put_heading(rings: usize, out: &mut [u8]) -> usize
    requires { 100 ≤ length out.old }
    ensures { Put out.old 0 (rings_line rings) out.new result × (result ≤ 100) }
{
    let at = put_text(out, 0, b"rings ");
    let end = put_decimal(out, at, rings as u64);
    put_text(out, end, b"\n")
}

// The line of ring i, of n vertices and of a part, from out[at] on.
fn put_ring_line(i: usize, n: usize, part: u32, out: &mut [u8], at: usize) -> usize
    requires { at + 100 ≤ length out.old }
    ensures { Put out.old at (ring_line i n part) out.new result × (result ≤ at + 100) }
{
    let a = put_text(out, at, b"ring ");
    let b = put_decimal(out, a, i as u64);
    let c = put_text(out, b, b" vertices ");
    let d = put_decimal(out, c, n as u64);
    let e = put_text(out, d, b" part ");
    let f = put_decimal(out, e, part as u64);
    put_text(out, f, b"\n")
}

// Ring i, of n vertices and of a part, from out[at] on.
fn put_ring(ring: &[f64], i: usize, n: usize, part: u32, out: &mut [u8], at: usize) -> usize
    requires { (2 * n ≤ length ring.now) × (n ≤ vertices_most) × (at + 9000 ≤ length out.old) }
    ensures { Put out.old at (ring_text i n part ring.now) out.new result × (result ≤ at + 9000) }
{
    let next = put_ring_line(i, n, part, out, at);
    put_points(ring, n, out, next)
}

// The rings of these vertex counts and parts, one after the other in a list, from out[from] on.
fn put_rings(xs: &[f64], counts: &[u32], parts: &[u32], out: &mut [u8], from: usize) -> usize
    requires counts_len_bound { (length counts.now ≤ rings_most) × (sized_all counts.now ≡ true) × (2 * total counts.now ≤ length xs.now) }
    requires from_bound { (from ≤ 100) × (73000 ≤ length out.old) × (length parts.now ≡ length counts.now) }
    ensures { Put out.old from
        (ring_texts counts.now parts.now xs.now (length counts.now))
        out.new result }
{
    let mut next = from;
    let mut at = 0;
    for (i, &n) in counts.iter().enumerate() {
        let n = n as usize;
        let end = at + 2 * n;
        next = put_ring(&xs[at..end], i, n, parts[i], out, next);
        at = end;
    }
    next
}

// How many rings there are, and the rings.
fn put_all(xs: &[f64], counts: &[u32], parts: &[u32], out: &mut [u8]) -> usize
    requires counts_len_bound { (length counts.now ≤ rings_most) × (sized_all counts.now ≡ true) × (2 * total counts.now ≤ length xs.now) }
    requires in_bounds { (73000 ≤ length out.old) × (length parts.now ≡ length counts.now) }
    ensures { Put out.old 0 (rings_text counts.now parts.now xs.now) out.new result }
{
    let from = put_heading(counts.len(), out);
    put_rings(xs, counts, parts, out, from)
}

// What is printed for a book: its rings, or its refusal.
fn put_book(book: &[u8], out: &mut [u8]) -> usize
    requires { 73000 ≤ length out.old }
    ensures { Put out.old 0 (book_text book.now) out.new result }
{
    let mut room = [0.0; NUMBERS_MOST];
    let mut counts = [0u32; RINGS_MOST];
    let mut parts = [0u32; RINGS_MOST];
    match read_book(book, &mut room, &mut counts, &mut parts) {
        Ok(k) => put_all(&room, &counts[..k], &parts[..k], out),
        Err(no) => put_refusal(no, out),
    }
}

// One byte more than the longest book is read, so that what is too long is refused like any other wrong length.
fn main(rt: HostRuntime) -> io::Result<()> {
    let mut book = Vec::new(rt.alloc());
    let most = BOOK_MOST + 1;
    rt.reader().take(most as u64).read_to_end(&mut book)?;
    let mut out = [0u8; 73000];
    let length = put_book(book.as_slice(), &mut out);
    rt.write_all(&out[..length])
}
