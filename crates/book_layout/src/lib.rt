// The sizes of the outline book, in bytes.
#![tactic(auto)]

use refusals::{RINGS_MOST, VERTICES_LEAST, VERTICES_MOST};

pub const FIELD_BYTES: usize = 4;

pub const COORDINATE_BYTES: usize = 8;

pub const VERTEX_BYTES: usize = 2 * COORDINATE_BYTES;

pub const ENTRY_BYTES: usize = 3 * FIELD_BYTES;

pub const TAIL_BYTES: usize = 2 * FIELD_BYTES;

// The coordinates of all rings.
pub const NUMBERS_MOST: usize = 2 * RINGS_MOST * VERTICES_MOST;

pub const BOOK_LEAST: usize = VERTICES_LEAST * VERTEX_BYTES + ENTRY_BYTES + TAIL_BYTES;

pub const BOOK_MOST: usize = RINGS_MOST * (VERTICES_MOST * VERTEX_BYTES + ENTRY_BYTES) + TAIL_BYTES;
