// The table of a disc's first quarter: 257 points that lie on a circle of radius 2^30, as nearly as whole numbers allow.
#![tactic(auto)]

mod table;

ghost use Rattle.std.specs.Prelude.{◌≡◌, ◌≤◌};
ghost use Rattle.disc_table.specs.Table.{entry_of};

use table::TABLE;

// A point of the table, or such a point turned by quarters.
#[derive(Clone, Copy)]
pub struct Entry {
    pub x: i32,
    pub y: i32,
}

// Point k of the table.
pub fn point_of(k: usize) -> Entry
    requires { k ≤ 256 }
    ensures { result ≡ entry_of k }
{
    Entry {
        x: TABLE[2 * k] as i32,
        y: TABLE[2 * k + 1] as i32,
    }
}
