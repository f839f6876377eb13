// The bytes of a book, stored in a room.
ghost use Rattle.std.specs.Prelude.{◌≡◌, true, map, ◌+◌, ◌*◌, ◌<◌, ◌≤◌, length};
ghost use Rattle.std.proofs.lemmas.List.Edits.{sets};
ghost use Rattle.ring.specs.Room.{laid};
ghost use Rattle.reading.specs.Reading.{flat, choice, least_reading};
ghost use Rattle.reading.specs.Lent.{ring_of, Lent};
ghost use Rattle.refusals.specs.Rings.{vertices_most, rings_most, total, sized_all};
ghost use Rattle.refusals.specs.Bounds.{coordinates};
ghost use Rattle.book_layout.specs.Layout.{coordinate_bytes, entry_bytes, coord_bytes, body, entries, book_of};
ghost use Rattle.book_layout.specs.Writer.{rings_from, book_size, Held};

use book_layout::{COORDINATE_BYTES, ENTRY_BYTES, FIELD_BYTES, TAIL_BYTES, VERTEX_BYTES};
use number_bytes::put;
use reading::{coordinate, least};
use refusals::rings::sum_of;

// The reading c of a ring, from room[at] on.
fn put_ring(ring: &[f64], c: usize, room: &mut [u8], at: usize)
    requires lent { Lent ring.now }
    requires c_in_bounds { (c < length ring.now) × (at + coordinate_bytes * length ring.now ≤ length room.old) }
    ensures { room.new ≡ sets room.old at (coord_bytes (flat (choice (ring_of ring.now) c))) }
{
    for j in 0..ring.len() {
        let b = coordinate(ring, c, j);
        put(room, at + COORDINATE_BYTES * j, COORDINATE_BYTES, b);
    }
}

// The least reading of a ring, from room[at] on.
fn put_least(ring: &[f64], room: &mut [u8], at: usize)
    requires lent { Lent ring.now }
    requires ring_nonzero { (0 < length ring.now) × (at + coordinate_bytes * length ring.now ≤ length room.old) }
    ensures { room.new ≡ sets room.old at (coord_bytes (flat (least_reading (ring_of ring.now)))) }
{
    let c = least(ring);
    put_ring(ring, c, room, at);
}

// The rings, each in its least reading, from the front of the room.
fn put_rings(xs: &[f64], counts: &[u32], room: &mut [u8])
    requires counts_value { (sized_all counts.now ≡ true) × (length xs.now ≡ 2 * total counts.now) × (coordinates xs.now ≡ true) }
    requires xs_in_bounds { coordinate_bytes * length xs.now ≤ length room.old }
    ensures { room.new ≡ sets room.old 0 (body (map least_reading (rings_from counts.now xs.now))) }
{
    let mut at = 0;
    for &n in counts {
        let end = at + 2 * n as usize;
        put_least(&xs[at..end], room, COORDINATE_BYTES * at);
        at = end;
    }
}

// The entries, from room[from] on.
fn put_entries(counts: &[u32], parts: &[u32], room: &mut [u8], from: usize)
    requires counts_len_bound { (length counts.now ≤ rings_most) × (from + entry_bytes * length counts.now ≤ length room.old) }
    requires counts_bound { (total counts.now ≤ rings_most * vertices_most) × (length parts.now ≡ length counts.now) }
    ensures { room.new ≡ sets room.old from (entries 0 counts.now parts.now) }
{
    let mut before: usize = 0;
    for (i, &n) in counts.iter().enumerate() {
        let n = n as usize;
        let at = from + ENTRY_BYTES * i;
        put(room, at, FIELD_BYTES, before as u64);
        put(room, at + FIELD_BYTES, FIELD_BYTES, n as u64);
        put(room, at + 2 * FIELD_BYTES, FIELD_BYTES, parts[i] as u64);
        before += VERTEX_BYTES * n;
    }
}

// The whole book, and how many bytes it has. The rest of the room stays.
pub fn put_book(xs: &[f64], counts: &[u32], parts: &[u32], room: &mut [u8]) -> usize
    requires held { Held xs.now counts.now parts.now }
    requires counts_in_bounds { book_size counts.now ≤ length room.old }
    ensures value { result ≡ book_size counts.now }
    ensures room_after { room.new ≡ laid (book_of (rings_from counts.now xs.now) parts.now) room.old }
{
    let from = VERTEX_BYTES * sum_of(counts);
    let tail = from + ENTRY_BYTES * counts.len();
    put_rings(xs, counts, room);
    put_entries(counts, parts, room, from);
    put(room, tail, FIELD_BYTES, counts.len() as u64);
    put(room, tail + FIELD_BYTES, FIELD_BYTES, from as u64);
    tail + TAIL_BYTES
}
