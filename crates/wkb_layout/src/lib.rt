// The layout of a drawing in well-known binary: sizes, codes, and numbers in either byte order.
#![tactic(auto)]

ghost use Rattle.std.specs.Prelude.{◌≡◌, ◌+◌, ◌≤◌, ◌<◌, length, take, drop};
ghost use Rattle.wkb_layout.specs.Layout.{code_bytes, number_bytes, read_as};

use number_bytes::{big4, big8, number4, number8};

// Bytes of a field, of a coordinate and of a point.
pub const CODE_BYTES: usize = 4;

pub const NUMBER_BYTES: usize = 8;

pub const POINT_BYTES: usize = 16;

// Where the fields stand, and the points after them; the byte order is the first byte.
pub const TYPE_AT: usize = 1;

pub const RINGS_AT: usize = 5;

pub const POINTS_AT: usize = 9;

pub const HEAD_BYTES: usize = 13;

// The type of a polygon.
pub const POLYGON_TYPE: u64 = 3;

// The points of a ring, its closing point among them.
pub const POINTS_LEAST: u64 = 4;

pub const POINTS_MOST: u64 = 257;

// How the bytes of a number follow each other: from the highest on, or from the lowest.
#[derive(Clone, Copy)]
pub enum Order {
    Big,
    Little,
}

// The field in the four bytes from f[at] on.
pub fn code(order: Order, f: &[u8], at: usize) -> u64
    requires { at + code_bytes ≤ length f.now }
    ensures { (result ≡ read_as order (take code_bytes (drop at f.now))) × (result < 4294967296) }
{
    match order {
        Order::Big => big4(f, at),
        Order::Little => number4(f, at),
    }
}

// The bit pattern of the coordinate in the eight bytes from f[at] on.
pub fn bits(order: Order, f: &[u8], at: usize) -> u64
    requires { at + number_bytes ≤ length f.now }
    ensures { result ≡ read_as order (take number_bytes (drop at f.now)) }
{
    match order {
        Order::Big => big8(f, at),
        Order::Little => number8(f, at),
    }
}
