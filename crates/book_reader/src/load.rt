// What a file holds, loaded into rooms.
ghost use Rattle.std.specs.Prelude.{◌≡◌, map, ◌+◌, ◌*◌, ◌≤◌, length, drop};
ghost use Rattle.std.proofs.lemmas.List.Edits.{sets};
ghost use Rattle.std.specs.Float.{binary64};
ghost use Rattle.std.specs.Float.Ieee.{of_bits};
ghost use Rattle.refusals.specs.Rings.{rings_most};
ghost use Rattle.book_layout.specs.Layout.{field_bytes, coordinate_bytes, entry_bytes, tail_bytes, book_most, coords_in, fields_in, counts_of, parts_of};
ghost use Rattle.book_layout.specs.Faults.{◌passes, coords_check, book_check};
ghost use Rattle.book_layout.specs.Reader.{numbers_of};
ghost use Rattle.ring.specs.Room.{laid};

use crate::tail::{entry_offset, ring_count};
use book_layout::{COORDINATE_BYTES, ENTRY_BYTES, FIELD_BYTES};
use number_bytes::{number4, number8};

// The m numbers from f[at] on, at the room's front.
pub fn load(f: &[u8], at: usize, m: usize, room: &mut [f64])
    requires m_in_bounds { (at + coordinate_bytes * m ≤ length f.now) × (m ≤ length room.old) × (length f.now ≤ book_most) }
    requires coords_check { coords_check m at (drop at f.now) passes }
    ensures { room.new ≡ sets room.old 0 (map (of_bits binary64) (coords_in m (drop at f.now))) }
{
    for j in 0..m {
        let b = number8(f, at + COORDINATE_BYTES * j);
        room[j] = f64::from_bits(b);
    }
}

// Of the k entries from f[from] on the field that stands p bytes into each, at the room's front.
fn load_fields(f: &[u8], from: usize, k: usize, p: usize, room: &mut [u32])
    requires tail_bytes_value { (from + entry_bytes * k + tail_bytes ≡ length f.now) × (k ≤ rings_most) × (k ≤ length room.old) }
    requires field_bytes_bound { p + field_bytes ≤ entry_bytes }
    ensures { room.new ≡ sets room.old 0 (fields_in p k (drop from f.now)) }
{
    for i in 0..k {
        room[i] = number4(f, from + ENTRY_BYTES * i + p) as u32;
    }
}

// The rings of a file that passes the checks, their vertex counts and their parts, at the fronts of the three rooms. Answers how many rings
// there are.
pub fn load_book(f: &[u8], room: &mut [f64], counts: &mut [u32], parts: &mut [u32]) -> usize
    requires book_check { book_check f.now passes }
    requires f_in_bounds { (length (numbers_of f.now) ≤ length room.old)
        × (length (counts_of f.now) ≤ length counts.old)
        × (length (counts_of f.now) ≤ length parts.old) }
    ensures { (result ≡ length (counts_of f.now))
        × (room.new ≡ laid (numbers_of f.now) room.old)
        × (counts.new ≡ laid (counts_of f.now) counts.old)
        × (parts.new ≡ laid (parts_of f.now) parts.old) }
{
    let from = entry_offset(f);
    let k = ring_count(f);
    load(f, 0, from / COORDINATE_BYTES, room);
    load_fields(f, from, k, FIELD_BYTES, counts);
    load_fields(f, from, k, 2 * FIELD_BYTES, parts);
    k
}
