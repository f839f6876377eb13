// The two last fields of a file.
ghost use Rattle.std.specs.Prelude.{◌≡◌, ◌<◌, ◌≤◌, length};
ghost use Rattle.book_layout.specs.Layout.{tail_bytes, ring_count, entry_offset};

use book_layout::{FIELD_BYTES, TAIL_BYTES};
use number_bytes::number4;

// The ring count that a file tells.
pub fn ring_count(f: &[u8]) -> usize
    requires { tail_bytes ≤ length f.now }
    ensures { (result ≡ ring_count f.now) × (result < 4294967296) }
{
    number4(f, f.len() - TAIL_BYTES) as usize
}

// The offset of the first entry that a file tells.
pub fn entry_offset(f: &[u8]) -> usize
    requires { tail_bytes ≤ length f.now }
    ensures { (result ≡ entry_offset f.now) × (result < 4294967296) }
{
    number4(f, f.len() - FIELD_BYTES) as usize
}
