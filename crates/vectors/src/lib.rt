// The vectors along which the orbiting polygon can slide, two for each contact, one after the other, and those of them that lead to no
// visited position.
#![tactic(auto)]

pub mod course;
pub mod fit;

ghost use Rattle.std.specs.Prelude.{◌≡◌, ◌<◌};
ghost use Rattle.ring.specs.Ring.{count};
ghost use Rattle.pairs.specs.Pairs.{Sides, pair_count};
ghost use Rattle.vectors.specs.Vectors.{opposite_of, direction_of, vector_of};
ghost use Rattle.vectors.specs.Places.{Ready, Takes, all_left};

use contacts::{edges_of, next_contact};
use course::{along_by, course_by, to_vector};
use pairs::pair_at;
use plane::Point;
use plane::vector::{minus, normalize};

// A direction, and how far it can be followed.
#[derive(Clone, Copy)]
pub struct TranslationVector {
    pub direction: Point,
    pub distance: f64,
}

// A place among the vectors. Those of the contacts from the pair number `contact` on are left, without the first of them where side is 1;
// `source` is the index of the first of these contacts.
#[derive(Clone, Copy)]
pub struct Place {
    pub contact: usize,
    pub side: usize,
    pub source: usize,
}

// A vector, the index of its contact and the place behind it.
#[derive(Clone, Copy)]
pub struct Step {
    pub vector: TranslationVector,
    pub source: usize,
    pub rest: Place,
}

// The vector turned round.
pub fn opposite(v: Point) -> Point
    ensures { result ≡ opposite_of v }
{
    Point { x: -v.x, y: -v.y }
}

// The unit vector from a to b.
pub fn direction(a: Point, b: Point) -> Point
    ensures { result ≡ direction_of a b }
{
    normalize(minus(b, a))
}

// A vector of the contact with the pair number k.
pub fn vector_of(stationary: &[f64], orbiting: &[f64], k: usize, side: usize) -> TranslationVector
    requires sides { Sides (count stationary.now) (count orbiting.now) }
    requires k_bound { k < pair_count (count stationary.now) (count orbiting.now) }
    ensures { result ≡ vector_of stationary.now orbiting.now k side }
{
    let pair = pair_at(k, stationary.len() / 2, orbiting.len() / 2);
    let e = edges_of(stationary, orbiting, pair);
    let kind = pair.kind;
    to_vector(course_by(kind, e, along_by(kind, e), side))
}

// The next vector from a place on, where one is left.
pub fn next_vector(stationary: &[f64], orbiting: &[f64], tol: f64, place: Place) -> Option<Step>
    requires sides { Sides (count stationary.now) (count orbiting.now) }
    requires ready { Ready stationary.now orbiting.now place }
    ensures { Takes stationary.now orbiting.now tol all_left place result }
{
    let contact = place.contact;
    let source = place.source;
    if place.side == 0 {
        let k = next_contact(stationary, orbiting, tol, contact)?;
        Some(Step {
            vector: vector_of(stationary, orbiting, k, 0),
            source,
            rest: Place {
                contact: k,
                side: 1,
                source,
            },
        })
    } else {
        Some(Step {
            vector: vector_of(stationary, orbiting, contact, 1),
            source,
            rest: Place {
                contact: contact + 1,
                side: 0,
                source: source + 1,
            },
        })
    }
}
