// Replays the oracle's answers for the outline book: records of what the writer or the reader is lent, answers and leaves, from
// standard input.
#![tactic(auto)]

ghost use Rattle.std.specs.Prelude.{◌≤◌, length};

use refusals::Refusal;
use replay::{is_same, list_length, load, load_bytes, word};
use std::io;
use std::io::{BufReader, Read};

// Whether an answer is what the record says: the refusal's number, the value, the place.
fn told(answer: Result<usize, Refusal>, header: &[u8]) -> bool {
    match answer {
        Ok(n) => word(header, 40) == 0 && n as u64 == word(header, 48),
        Err(no) => no.number() as u64 == word(header, 40)
            && no.place().unwrap_or(0) == word(header, 56),
    }
}

// Whether a record of the writer says what it answers and leaves. Bytes fill whole words.
fn write_agrees<R: Read>(input: &mut R, header: &[u8]) -> bool {
    let an = list_length(header, 8, 4200);
    let bn = list_length(header, 16, 16);
    let rn = list_length(header, 24, 33000);
    let pn = list_length(header, 64, 16);
    let mut xs = [0.0; 4200];
    let mut counts = [0u32; 16];
    let mut parts = [0u32; 16];
    let mut room = [0u8; 33000];
    let mut left = [0u8; 33000];
    load(input, &mut xs[..an]);
    load(input, &mut counts[..bn]);
    load(input, &mut parts[..pn]);
    load_bytes(input, &mut room[..(rn + 7) / 8 * 8]);
    load_bytes(input, &mut left[..(rn + 7) / 8 * 8]);
    let answer = book_writer::calls::write_book(
        &xs[..an],
        &counts[..bn],
        &parts[..pn],
        &mut room[..rn],
    );
    told(answer, header) && &room[..rn] == &left[..rn]
}

// Whether the rooms are left as the record goes on to say.
fn left_agrees<R: Read>(input: &mut R, xs: &[f64], counts: &[u32], parts: &[u32]) -> bool
    requires { (length xs.now ≤ 4200) × (length counts.now ≤ 16) × (length parts.now ≤ 16) }
{
    let mut xs_left = [0.0; 4200];
    let mut counts_left = [0u32; 16];
    let mut parts_left = [0u32; 16];
    load(input, &mut xs_left[..xs.len()]);
    load(input, &mut counts_left[..counts.len()]);
    load(input, &mut parts_left[..parts.len()]);
    is_same(xs, &xs_left[..xs.len()])
        && is_same(counts, &counts_left[..counts.len()])
        && is_same(parts, &parts_left[..parts.len()])
}

// Whether a record of the reader says what it answers and leaves.
fn read_agrees<R: Read>(input: &mut R, header: &[u8]) -> bool {
    let an = list_length(header, 8, 33000);
    let rn = list_length(header, 24, 4200);
    let cn = list_length(header, 32, 16);
    let pn = list_length(header, 64, 16);
    let mut book = [0u8; 33000];
    let mut xs = [0.0; 4200];
    let mut counts = [0u32; 16];
    let mut parts = [0u32; 16];
    load_bytes(input, &mut book[..(an + 7) / 8 * 8]);
    load(input, &mut xs[..rn]);
    load(input, &mut counts[..cn]);
    load(input, &mut parts[..pn]);
    let answer = book_reader::calls::read_book(
        &book[..an],
        &mut xs[..rn],
        &mut counts[..cn],
        &mut parts[..pn],
    );
    left_agrees(input, &xs[..rn], &counts[..cn], &parts[..pn]) && told(answer, header)
}

// Whether a record, of the writer or of the reader, says what its call answers and leaves.
fn agrees<R: Read>(input: &mut R, header: &[u8]) -> bool {
    if word(header, 0) == 0 {
        write_agrees(input, header)
    } else {
        read_agrees(input, header)
    }
}

fn main(rt: HostRuntime) -> io::Result<()> {
    let mut input = BufReader::new(rt.alloc(), rt.reader())?;
    replay::run::<96, _, _>(&rt, &mut input, agrees)
}
