// The checks of a file: each refuses it by refusal 7 with the place of the first fault that it finds.
ghost use Rattle.std.specs.Prelude.{◌≡◌, ◌+◌, ◌*◌, ◌/◌, ◌≤◌, length, drop};
ghost use Rattle.reading.specs.Reading.{vertices, is_least};
ghost use Rattle.refusals.specs.Answers.{tells, tested};
ghost use Rattle.refusals.specs.Rings.{vertices_least, vertices_most, rings_most, within};
ghost use Rattle.book_layout.specs.Layout.{coordinate_bytes, vertex_bytes, entry_bytes, tail_bytes, book_most, coordinate_bits, coords_in, counts_in};
ghost use Rattle.book_layout.specs.Faults.{fault_at, ◌passes, coords_check, least_check, book_check};
ghost use Rattle.book_layout.specs.Reader.{read_refusal};
ghost use Rattle.book_reader.specs.Parts.{field_ok, tail_check, list_check};

use crate::load::load;
use crate::tail::{entry_offset, ring_count};
use book_layout::{
    BOOK_LEAST, BOOK_MOST, COORDINATE_BYTES, ENTRY_BYTES, FIELD_BYTES, TAIL_BYTES, VERTEX_BYTES,
};
use number_bytes::{number4, number8};
use reading::{is_least, kept_bits};
use refusals::screen::book_rooms;
use refusals::test::is_coordinate;
use refusals::{RINGS_MOST, Refusal, VERTICES_LEAST, VERTICES_MOST};

// Refusal 7 with a place.
fn fault(place: usize) -> Refusal
    ensures { tells result ≡ fault_at place }
{
    Refusal::Book(place as u64)
}

// Whether a ring may have so many vertices.
fn is_number_of_vertices(n: usize) -> bool
    ensures { result ≡ within vertices_least vertices_most n }
{
    (VERTICES_LEAST..=VERTICES_MOST).contains(&n)
}

// Whether a book may have so many rings.
fn is_number_of_rings(k: usize) -> bool
    ensures { result ≡ within 1 rings_most k }
{
    (1..=RINGS_MOST).contains(&k)
}

// A field of a book: a ring's offset, its vertices, the ring count, and the end of the entries.
#[derive(Clone, Copy)]
pub enum Field {
    Offset,
    Vertices,
    Rings,
    End,
}

// Whether a field is right. An offset and the end are told what they are to be.
fn is_right(field: Field, value: usize, told: usize) -> bool
    ensures { result ≡ field_ok field value told }
{
    match field {
        Field::Offset | Field::End => value == told,
        Field::Vertices => is_number_of_vertices(value),
        Field::Rings => is_number_of_rings(value),
    }
}

// Whether a bit pattern is one that a book stores: a coordinate's, and as it is kept.
fn are_coordinate_bits(b: u64) -> bool
    ensures { result ≡ coordinate_bits b }
{
    if 0x7ff0_0000_0000_0000 < b % 0x8000_0000_0000_0000 {
        return false;
    }
    let x = f64::from_bits(b);
    if !is_coordinate(x) {
        return false;
    }
    kept_bits(x) == b
}

// The k entries from f[from] on, and that the rings end where they begin.
fn check_entries(f: &[u8], from: usize, k: usize) -> Result<(), Refusal>
    requires { (from + entry_bytes * k + tail_bytes ≡ length f.now) × (k ≤ rings_most) × (length f.now ≤ book_most) }
    ensures { tested result ≡ list_check f.now from k }
{
    let mut before: usize = 0;
    for i in 0..k {
        let at = from + ENTRY_BYTES * i;
        let offset = number4(f, at) as usize;
        if !is_right(Field::Offset, offset, before) {
            return Err(fault(at));
        }
        let n = number4(f, at + FIELD_BYTES) as usize;
        if !is_right(Field::Vertices, n, 0) {
            return Err(fault(at + FIELD_BYTES));
        }
        before += VERTEX_BYTES * n;
    }
    if before != from {
        return Err(fault(f.len() - FIELD_BYTES));
    }
    Ok(())
}

// The m coordinates from the file's front on.
fn check_coords(f: &[u8], m: usize) -> Result<(), Refusal>
    requires { (coordinate_bytes * m ≤ length f.now) × (length f.now ≤ book_most) }
    ensures { tested result ≡ coords_check m 0 f.now }
{
    for j in 0..m {
        let at = COORDINATE_BYTES * j;
        if !are_coordinate_bits(number8(f, at)) {
            return Err(fault(at));
        }
    }
    Ok(())
}

// Whether the ring of n vertices from f[at] on is its own least reading.
fn is_least_at(f: &[u8], at: usize, n: usize) -> bool
    requires n_in_bounds { (at + vertex_bytes * n ≤ length f.now) × (vertices_least ≤ n) × (n ≤ vertices_most) × (length f.now ≤ book_most) }
    requires coords_check { coords_check (2 * n) at (drop at f.now) passes }
    ensures { result ≡ is_least (vertices (coords_in (2 * n) (drop at f.now))) }
{
    let mut ring = [0.0; 2 * VERTICES_MOST];
    let end = 2 * n;
    load(f, at, end, &mut ring);
    is_least(&ring[..end])
}

// The rings of the k entries from f[from] on.
fn check_rings(f: &[u8], from: usize, k: usize) -> Result<(), Refusal>
    requires tail_bytes_value { (from + entry_bytes * k + tail_bytes ≡ length f.now) × (k ≤ rings_most) × (length f.now ≤ book_most) }
    requires list_check { (list_check f.now from k passes) × (coords_check (from / coordinate_bytes) 0 f.now passes) }
    ensures { tested result ≡ least_check (counts_in k (drop from f.now)) 0 f.now }
{
    let mut at: usize = 0;
    for i in 0..k {
        let n = number4(f, from + ENTRY_BYTES * i + FIELD_BYTES) as usize;
        if !is_least_at(f, at, n) {
            return Err(fault(at));
        }
        at += VERTEX_BYTES * n;
    }
    Ok(())
}

// The length of a file, its ring count, and the offset of its first entry.
#[tactic(auto, using(refusals::proofs::Tests::refused), unfolding(crate::specs::Parts::tail_check))]
fn check_tail(f: &[u8]) -> Result<(), Refusal>
    ensures { tested result ≡ tail_check f.now }
{
    let len = f.len();
    if len < BOOK_LEAST {
        return Err(fault(0));
    }
    if BOOK_MOST < len {
        return Err(fault(0));
    }
    let k = ring_count(f);
    if !is_right(Field::Rings, k, 0) {
        return Err(fault(len - TAIL_BYTES));
    }
    let end = entry_offset(f) + ENTRY_BYTES * k + TAIL_BYTES;
    if !is_right(Field::End, end, len) {
        return Err(fault(len - FIELD_BYTES));
    }
    Ok(())
}

// The first fault of a file.
fn check_book(f: &[u8]) -> Result<(), Refusal>
    ensures { tested result ≡ book_check f.now }
{
    check_tail(f)?;
    let from = entry_offset(f);
    let k = ring_count(f);
    check_entries(f, from, k)?;
    check_coords(f, from / COORDINATE_BYTES)?;
    check_rings(f, from, k)
}

// What refuses the reader, for rooms of so many numbers, so many counts and so many parts.
pub fn refusal(f: &[u8], room: usize, counts: usize, parts: usize) -> Result<(), Refusal>
    ensures { tested result ≡ read_refusal f.now room counts parts }
{
    check_book(f)?;
    let numbers = entry_offset(f) / COORDINATE_BYTES;
    book_rooms(numbers, room, ring_count(f), counts, parts)
}
