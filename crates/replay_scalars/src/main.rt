// Replays the oracle's answers for the scalars: records of five words, the operation, three operands and the answer, from standard input.
#![tactic(auto)]

use number_bytes::{bits_of, float_of};
use replay::word;
use std::io;
use std::io::{BufReader, Read};

// What the library answers: 0 abs, 1 smaller, 2 larger, 3 clamp, 4 sqrt.
fn answer(op: u64, x: f64, y: f64, z: f64) -> f64 {
    match op {
        0 => scalar::abs(x),
        1 => scalar::smaller(x, y),
        2 => scalar::larger(x, y),
        3 => scalar::clamp(x, y, z),
        _ => square_root::sqrt(x),
    }
}

// Whether a record's answer is the library's. Nothing follows a record.
fn agrees<R: Read>(_input: &mut R, record: &[u8]) -> bool {
    let op = word(record, 0);
    let x = float_of(word(record, 8));
    let y = float_of(word(record, 16));
    let z = float_of(word(record, 24));
    bits_of(answer(op, x, y, z)) == bits_of(float_of(word(record, 32)))
}

fn main(rt: HostRuntime) -> io::Result<()> {
    let mut input = BufReader::new(rt.alloc(), rt.reader())?;
    replay::run::<40, _, _>(&rt, &mut input, agrees)
}
