// An integer as a word of 64 bits, in two's complement.

// The word of an integer.
pub fn word_of(z: i64) -> u64 {
    if z < 0 {
        return u64::MAX - ((-1 - z) as u64);
    }
    z as u64
}
