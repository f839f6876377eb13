// The refusals of the public calls: what they are and tell, the tests of what a call is lent, and the rows in which they speak.
#![tactic(auto)]

pub mod lists;
pub mod rings;
pub mod row;
pub mod screen;
pub mod test;

ghost use Rattle.std.specs.Prelude.{◌≡◌};
ghost use Rattle.refusals.specs.Refusals.{place_told};
ghost use Rattle.refusals.specs.Answers.{tells};

// A polygon, and a ring of a book, has 3 to 256 vertices.
pub const VERTICES_LEAST: usize = 3;

pub const VERTICES_MOST: usize = 256;

// A book has 1 to 8 rings.
pub const RINGS_LEAST: usize = 1;

pub const RINGS_MOST: usize = 8;

// A list of points has 10,001 at most.
pub const POINTS_MOST: usize = 10001;

// Why a call refuses what it is lent, with the place that it tells where it tells one: which list or ring it was, or the byte of a file's
// first fault.
#[derive(Clone, Copy, Debug, PartialEq, Eq)]
pub enum Refusal {
    // A list's length fits no whole number of entries, or the lists of rings don't add up.
    Length(u64),
    // A lent number is out of its bounds.
    Number,
    // A setting is out of its bounds.
    Setting,
    // The rooms of a trace or of a book are too short, or not of the form asked.
    Room,
    // The answer has more entries than its room.
    Fit,
    // The path of a trace has under three points.
    ShortPath,
    // A book is wrong.
    Book(u64),
    // A list has too few entries.
    Few(u64),
    // A list has too many entries.
    Many(u64),
    // A drawing in well-known binary is wrong.
    Wkb(u64),
    // Of a mended ring fewer than three vertices remain.
    Remaining,
    // A disc has no such number of vertices in a quarter.
    Quarter,
    // The number of a path's points, that of a shift's places, or the start, is out of its bounds.
    Inspection,
    // A number times the units of a grid is out of the bounds of whole coordinates.
    Grid,
}

impl Refusal {
    // Its number in docs/SCOPE.md, which C is told.
    pub fn number(self) -> u32
        ensures { result ≡ (tells self).number }
    {
        match self {
            Refusal::Length(_) => 1,
            Refusal::Number => 2,
            Refusal::Setting => 3,
            Refusal::Room => 4,
            Refusal::Fit => 5,
            Refusal::ShortPath => 6,
            Refusal::Book(_) => 7,
            Refusal::Few(_) => 8,
            Refusal::Many(_) => 9,
            Refusal::Wkb(_) => 10,
            Refusal::Remaining => 11,
            Refusal::Quarter => 12,
            Refusal::Inspection => 13,
            Refusal::Grid => 14,
        }
    }

    // The place that it tells: 1, 7, 8, 9 and 10 do.
    #[tactic(auto, unfolding(crate::specs::Refusals::tells_place))]
    pub fn place(self) -> Option<u64>
        ensures { result ≡ place_told (tells self) }
    {
        match self {
            Refusal::Length(place)
            | Refusal::Book(place)
            | Refusal::Few(place)
            | Refusal::Many(place)
            | Refusal::Wkb(place) => Some(place),
            _ => None,
        }
    }
}

// The settings of a trace: how near is a contact, how short a move is too short, and how many passes at most.
#[derive(Clone, Copy)]
pub struct Settings {
    pub contact_tolerance: f64,
    pub min_translation: f64,
    pub max_iterations: u64,
}
