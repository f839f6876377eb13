// Numbers as bytes, the lowest byte first or the highest, and floats by their bit patterns.
#![tactic(auto)]

ghost use Rattle.std.specs.Prelude.{◌≡◌, ◌+◌, ◌<◌, ◌≤◌, reverse, length, take, drop};
ghost use Rattle.std.proofs.lemmas.List.Edits.{sets};
ghost use Rattle.std.specs.Float.{binary64};
ghost use Rattle.std.specs.Float.Ieee.{of_bits, to_bits};
ghost use Rattle.number_bytes.specs.Bytes.{bytes_of, number_of};

fn wide(x: u8) -> u64
    ensures { (result ≡ x) × (result < 256) }
{
    x as u64
}

// The number in the four bytes from f[at] on.
pub fn number4(f: &[u8], at: usize) -> u64
    requires { at + 4 ≤ length f.now }
    ensures { (result ≡ number_of (take 4 (drop at f.now))) × (result < 4294967296) }
{
    let a = wide(f[at]);
    let b = wide(f[at + 1]);
    let c = wide(f[at + 2]);
    let d = wide(f[at + 3]);
    a + 256 * b + 65536 * c + 16777216 * d
}

// The number in the eight bytes from f[at] on.
pub fn number8(f: &[u8], at: usize) -> u64
    requires { at + 8 ≤ length f.now }
    ensures { result ≡ number_of (take 8 (drop at f.now)) }
{
    let low = number4(f, at);
    let high = number4(f, at + 4);
    low + 4294967296 * high
}

// The number in the four bytes from f[at] on, the highest byte first.
pub fn big4(f: &[u8], at: usize) -> u64
    requires { at + 4 ≤ length f.now }
    ensures { (result ≡ number_of (reverse (take 4 (drop at f.now)))) × (result < 4294967296) }
{
    let a = wide(f[at]);
    let b = wide(f[at + 1]);
    let c = wide(f[at + 2]);
    let d = wide(f[at + 3]);
    d + 256 * c + 65536 * b + 16777216 * a
}

// The number in the eight bytes from f[at] on, the highest byte first.
pub fn big8(f: &[u8], at: usize) -> u64
    requires { at + 8 ≤ length f.now }
    ensures { result ≡ number_of (reverse (take 8 (drop at f.now))) }
{
    let high = big4(f, at);
    let low = big4(f, at + 4);
    low + 4294967296 * high
}

// The k low bytes of n, from room[at] on.
pub fn put(room: &mut [u8], at: usize, k: usize, n: u64)
    requires { at + k ≤ length room.old }
    ensures { room.new ≡ sets room.old at (bytes_of k n) }
{
    let mut rest = n;
    for i in 0..k {
        room[at + i] = (rest % 256) as u8;
        rest /= 256;
    }
}

// The float with a bit pattern.
pub fn float_of(bits: u64) -> f64
    ensures { result ≡ of_bits binary64 bits }
{
    if 0x7ff0_0000_0000_0000 < bits % 0x8000_0000_0000_0000 {
        0.0 / 0.0
    } else {
        f64::from_bits(bits)
    }
}

// The bit pattern of a float, that of one quiet NaN for every NaN.
pub fn bits_of(x: f64) -> u64
    ensures { result ≡ to_bits binary64 x }
{
    if x == x {
        f64::to_bits(x)
    } else {
        0x7ff8_0000_0000_0000
    }
}
