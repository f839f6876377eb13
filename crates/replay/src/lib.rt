// What the replay programs share: the words of a record of the oracle's answers, and the loop over all records.
#![tactic(auto)]

ghost use Rattle.std.specs.Prelude.{◌≡◌, ◌+◌, ◌≤◌, ◌<◌, ◌↔◌, IsTrue};
ghost use Rattle.std.specs.Float.{binary64};
ghost use Rattle.std.specs.Float.Ieee.{to_bits};
ghost use Rattle.replay.specs.Tally.{Counted};

use number_bytes::{bits_of, float_of, number8};
use std::io;
use std::io::Read;

// How many records are read at most.
const MOST_RECORDS: u64 = 1_000_000;

// How many words are read at a time.
const MOST_WORDS: usize = 64;

// The little-endian word at a byte of a list, 0 where the list ends before its end.
pub fn word(bytes: &[u8], at: usize) -> u64 {
    if bytes.len() < 8 || bytes.len() - 8 < at {
        return 0;
    }
    number8(bytes, at)
}

// The length of a list at a byte of a record's header, at most so much.
pub fn list_length(header: &[u8], at: usize, most: usize) -> usize
    ensures { result ≤ most }
{
    let n = word(header, at);
    if n <= most as u64 { n as usize } else { most }
}

// What a word of a record stands for.
pub trait Item: Copy {
    // When two items are the same, bit for bit.
    ghost Same: { Self → Self → Type 0 };

    // The item that a word stands for.
    fn from_word(word: u64) -> Self;

    // Whether two items are the same, bit for bit.
    fn is_same(self, other: Self) -> bool
        ensures { IsTrue result ↔ Same self other };
}

impl Item for f64 {
    ghost Same = { λ x y. to_bits binary64 x ≡ to_bits binary64 y };

    fn from_word(word: u64) -> f64 {
        float_of(word)
    }

    fn is_same(self, other: f64) -> bool {
        bits_of(self) == bits_of(other)
    }
}

impl Item for u64 {
    ghost Same = { λ x y. x ≡ y };

    fn from_word(word: u64) -> u64 {
        word
    }

    fn is_same(self, other: u64) -> bool {
        self == other
    }
}

// A count is the low half of a word.
impl Item for u32 {
    ghost Same = { λ x y. x ≡ y };

    fn from_word(word: u64) -> u32 {
        (word & 0xffff_ffff) as u32
    }

    fn is_same(self, other: u32) -> bool {
        self == other
    }
}

// An integer is the low half of a word, in two's complement.
impl Item for i32 {
    ghost Same = { λ x y. x ≡ y };

    fn from_word(word: u64) -> i32 {
        u32::from_word(word).cast_signed()
    }

    fn is_same(self, other: i32) -> bool {
        self == other
    }
}

// Reads a word for each item of the list, as far as the input goes. The items past its end are those of the word 0, or stay.
pub fn load<T: Item, R: Read>(input: &mut R, list: &mut [T]) {
    for items in list.chunks_mut(MOST_WORDS) {
        let mut bytes = [0u8; 8 * MOST_WORDS];
        let front = 8 * items.len().min(MOST_WORDS);
        let end = input.read_exact(&mut bytes[..front]).is_err();
        for (i, item) in items.iter_mut().enumerate() {
            *item = T::from_word(word(&bytes, 8 * i));
        }
        if end {
            return;
        }
    }
}

// Reads the bytes of the list, as far as the input goes.
pub fn load_bytes<R: Read>(input: &mut R, list: &mut [u8]) {
    let _ = input.read_exact(list);
}

// Whether two lists of one length are the same, bit for bit.
pub fn is_same<T: Item>(a: &[T], b: &[T]) -> bool {
    a.len() == b.len() && a.iter().zip(b).all(|(&x, &y)| x.is_same(y))
}

// How many records were seen and how many of them agreed, and how many more are read at most.
#[derive(Clone, Copy)]
pub struct Tally {
    pub seen: u64,
    pub agreed: u64,
    pub left: u64,
}

impl Tally {
    // Nothing seen.
    pub fn begin() -> Tally
        ensures counted { Counted result }
        ensures all_left { result.left ≡ 1000000 }
    {
        Tally {
            seen: 0,
            agreed: 0,
            left: MOST_RECORDS,
        }
    }

    // The tally after one more record, which agrees or does not.
    pub fn after(self, agrees: bool) -> Tally
        requires { Counted self × (0 < self.left) }
        ensures counted { Counted result × (result.left < self.left) }
        ensures one { (result.seen ≡ self.seen + 1) × (result.left + 1 ≡ self.left) }
    {
        Tally {
            seen: self.seen + 1,
            agreed: if agrees { self.agreed + 1 } else { self.agreed },
            left: self.left - 1,
        }
    }
}

// Reads records until the input ends, each a header and what `agrees` reads after it. Names the first that does not agree, and tells how many
// were read and how many agreed.
pub fn run<const N: usize, R: Read, F: FnMut(&mut R, &[u8]) -> bool>(
    rt: &impl Print,
    input: &mut R,
    mut agrees: F,
) -> io::Result<()>
    requires callable { F.IsAlwaysCallable agrees }
    requires header_bound { N ≤ 1024 }
{
    let mut tally = Tally::begin();
    for _ in 0..MOST_RECORDS {
        let mut header = [0u8; N];
        if input.read_exact(&mut header).is_err() {
            break;
        }
        let told = agrees(input, &header);
        if !told && tally.seen == tally.agreed {
            println!(rt; "first that differs: record {}", tally.seen)?;
        }
        tally = tally.after(told);
    }
    println!(rt; "{} of {} agree", tally.agreed, tally.seen)
}
