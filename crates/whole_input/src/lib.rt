// Whole numbers in a program's input: words of four bytes in two's complement, and coordinates without a fraction.
#![tactic(auto)]

ghost use Rattle.std.specs.Prelude.{◌≡◌, ◌+◌, ◌<◌, ◌≤◌, true, length};
ghost use Rattle.ring.specs.Room.{laid};
ghost use Rattle.refusals.specs.Bounds.{coordinate, coordinates};
ghost use Rattle.whole_input.specs.Whole.{signed_of, whole_word_at, whole_part, is_whole, all_whole, wholes};

use number_bytes::number4;

// The number of a word of 32 bits.
pub fn signed_of(w: u64) -> i32
    requires { w < 4294967296 }
    ensures { result ≡ signed_of w }
{
    if w < 2147483648 {
        return w as i32;
    }
    -1 - ((4294967295 - w) as i32)
}

// The number in the four bytes from input[at] on.
pub fn whole_word(input: &[u8], at: usize) -> i32
    requires { at + 4 ≤ length input.now }
    ensures { result ≡ whole_word_at input.now at }
{
    signed_of(number4(input, at))
}

// A coordinate without its fraction.
pub fn whole_part(x: f64) -> i32
    requires { coordinate x ≡ true }
    ensures { result ≡ whole_part x }
{
    std::num::truncating_f64_to_i64(x) as i32
}

// Whether a coordinate is a whole number.
pub fn is_whole(x: f64) -> bool
    requires { coordinate x ≡ true }
    ensures { result ≡ is_whole x }
{
    whole_part(x) as f64 == x
}

// Whether each coordinate of a list is.
pub fn are_whole(list: &[f64]) -> bool
    requires { coordinates list.now ≡ true }
    ensures { result ≡ all_whole list.now }
{
    for &x in list {
        if !is_whole(x) {
            return false;
        }
    }
    true
}

// Each coordinate of a list without its fraction, at the front of the room.
pub fn whole_list(list: &[f64], room: &mut [i32])
    requires { (coordinates list.now ≡ true) × (length list.now ≤ length room.old) }
    ensures { room.new ≡ laid (wholes list.now) room.old }
{
    for (i, &x) in list.iter().enumerate() {
        room[i] = whole_part(x);
    }
}
