// The refusal of what the writer is lent, and how many bytes a book has.
ghost use Rattle.std.specs.Prelude.{◌≡◌, true, ◌≤◌, length};
ghost use Rattle.refusals.specs.Rings.{rings_most, sized_all};
ghost use Rattle.refusals.specs.Answers.{tested};
ghost use Rattle.book_layout.specs.Writer.{book_size, write_refusal};

use book_layout::{ENTRY_BYTES, TAIL_BYTES, VERTEX_BYTES};
use refusals::rings::sum_of;
use refusals::{Refusal, rings, screen};

// How many bytes the book of rings of these vertex counts has.
pub fn size_of(counts: &[u32]) -> usize
    requires { (length counts.now ≤ rings_most) × (sized_all counts.now ≡ true) }
    ensures { result ≡ book_size counts.now }
{
    VERTEX_BYTES * sum_of(counts) + ENTRY_BYTES * counts.len() + TAIL_BYTES
}

// What refuses the writer, for a room of so many bytes.
#[tactic(auto, using(refusals::proofs::Tests::refused), unfolding(book_layout::specs::Writer::write_refusal))]
pub fn refusal(xs: &[f64], counts: &[u32], parts: &[u32], size: usize) -> Result<(), Refusal>
    ensures { tested result ≡ write_refusal xs.now counts.now parts.now size }
{
    rings::lent(xs, counts, parts)?;
    screen::short(size_of(counts), size)
}
