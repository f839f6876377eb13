// Replays the oracle's answers for polygons in well-known binary: records of what the writer or the reader is lent, answers and
// leaves, from standard input.
#![tactic(auto)]

use refusals::Refusal;
use replay::{is_same, list_length, load, load_bytes, word};
use std::io;
use std::io::{BufReader, Read};

// Whether an answer is what the record says: the refusal's number, the value, the place.
fn told(answer: Result<usize, Refusal>, header: &[u8]) -> bool {
    match answer {
        Ok(n) => word(header, 24) == 0 && n as u64 == word(header, 32),
        Err(no) => no.number() as u64 == word(header, 24)
            && no.place().unwrap_or(0) == word(header, 40),
    }
}

// Whether a record of the writer says what it answers and leaves. Bytes fill whole words.
fn write_agrees<R: Read>(input: &mut R, header: &[u8]) -> bool {
    let an = list_length(header, 8, 600);
    let rn = list_length(header, 16, 4200);
    let mut ring = [0.0; 600];
    let mut room = [0u8; 4200];
    let mut left = [0u8; 4200];
    load(input, &mut ring[..an]);
    load_bytes(input, &mut room[..(rn + 7) / 8 * 8]);
    load_bytes(input, &mut left[..(rn + 7) / 8 * 8]);
    let answer = wkb_writer::calls::write_wkb(&ring[..an], &mut room[..rn]);
    told(answer, header) && &room[..rn] == &left[..rn]
}

// Whether a record of the reader says what it answers and leaves.
fn read_agrees<R: Read>(input: &mut R, header: &[u8]) -> bool {
    let an = list_length(header, 8, 4200);
    let rn = list_length(header, 16, 600);
    let mut wkb = [0u8; 4200];
    let mut room = [0.0; 600];
    let mut left = [0.0; 600];
    load_bytes(input, &mut wkb[..(an + 7) / 8 * 8]);
    load(input, &mut room[..rn]);
    load(input, &mut left[..rn]);
    let answer = wkb_reader::calls::read_wkb(&wkb[..an], &mut room[..rn]);
    told(answer, header) && is_same(&room[..rn], &left[..rn])
}

// Whether a record, of the writer or of the reader, says what its call answers and leaves.
fn agrees<R: Read>(input: &mut R, header: &[u8]) -> bool {
    if word(header, 0) == 0 {
        write_agrees(input, header)
    } else {
        read_agrees(input, header)
    }
}

fn main(rt: HostRuntime) -> io::Result<()> {
    let mut input = BufReader::new(rt.alloc(), rt.reader())?;
    replay::run::<48, _, _>(&rt, &mut input, agrees)
}
