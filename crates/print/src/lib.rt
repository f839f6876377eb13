// Text put into a lent room: byte strings, and numbers in decimal and in hexadecimal digits.
#![tactic(auto)]

ghost use Rattle.std.specs.Prelude.{◌≡◌, ◌++◌, ◌+◌, ◌<◌, ◌≤◌, length, take};
ghost use Rattle.print.specs.Digits.{digit, digits, width, decimal, hex};
ghost use Rattle.print.specs.Text.{Put, pair_line};

// The bytes of a text, from room[at] on. Answers the place after them.
pub fn put_text(room: &mut [u8], at: usize, text: &[u8]) -> usize
    requires { at + length text.now ≤ length room.old }
    ensures { Put room.old at text.now room.new result }
{
    let end = at + text.len();
    room[at..end].copy_from_slice(text);
    end
}

// The byte of a digit.
fn digit_byte(d: u64) -> u8
    requires { d < 16 }
    ensures { result ≡ digit d }
{
    if d < 10 { 48 + d as u8 } else { 87 + d as u8 }
}

// The last k digits of n, the highest first, from room[at] on.
fn put_digits(room: &mut [u8], at: usize, base: u64, k: usize, n: u64)
    requires { (at + k ≤ length room.old) × (0 < base) × (base ≤ 16) }
    ensures { take (at + k) room.new ≡ take at room.old ++ digits base k n }
{
    if 0 < k {
        put_digits(room, at, base, k - 1, n / base);
        room[at + (k - 1)] = digit_byte(n % base);
    }
}

// How many decimal digits a number has.
fn width_of(n: u64) -> usize
    ensures { (result ≡ width n) × (result ≤ 20) }
{
    let mut rest = n / 10;
    for w in 1..20 {
        if rest == 0 {
            return w;
        }
        rest = rest / 10;
    }
    20
}

// A number in decimal digits.
pub fn put_decimal(room: &mut [u8], at: usize, n: u64) -> usize
    requires { at + 20 ≤ length room.old }
    ensures { Put room.old at (decimal n) room.new result × (result ≤ at + 20) }
{
    let k = width_of(n);
    put_digits(room, at, 10, k, n);
    at + k
}

// A number in sixteen hexadecimal digits.
pub fn put_hex(room: &mut [u8], at: usize, n: u64) -> usize
    requires { at + 16 ≤ length room.old }
    ensures { Put room.old at (hex n) room.new result × (result ≡ at + 16) }
{
    put_digits(room, at, 16, 16, n);
    at + 16
}

// A line of two numbers in sixteen hexadecimal digits each.
pub fn put_pair(room: &mut [u8], at: usize, a: u64, b: u64) -> usize
    requires { at + 34 ≤ length room.old }
    ensures { Put room.old at (pair_line a b) room.new result × (result ≡ at + 34) }
{
    let space = put_hex(room, at, a);
    let second = put_text(room, space, b" ");
    let end = put_hex(room, second, b);
    put_text(room, end, b"\n")
}
