// A word as two halves of 32 bits: the high half is a row of the matrix that is reduced, the low half the row of the matrix that becomes the inverse.
ghost use Rattle.std.specs.Prelude.{◌≡◌, ◌/◌, ◌%◌, ◌^◌, ◌<◌};
ghost use Rattle.narrow.specs.Halves.{left, right};

use bits::vector;
use bits::vector::Vector;
use inversion::row::{Augmented, Row};

// The bits of a half, and so the most rows.
pub const HALF: usize = 32;
// The numbers that a half can be: 2^32.
const VALUES: u64 = 4294967296;

// Such a word.
#[derive(Clone, Copy)]
pub struct Halves {
    pub word: u64,
}

impl Row for Halves {
    ghost number = { λ x. left x.word };

    ghost most = { 32 };

    fn digit(self, s: usize) -> u64 {
        (self.word >> (HALF + s)) % 2
    }
}

impl Augmented for Halves {
    ghost inverse = { λ x. right x.word };

    fn beside_power(v: Vector, s: usize) -> Halves {
        let one: u64 = 1;
        Halves {
            word: v.lo * VALUES + (one << s),
        }
    }

    fn add(self, c: u64, other: Halves) -> Halves {
        Halves {
            word: self.word ^ vector::masked(c, other.word),
        }
    }

    fn inverse_row(self) -> Vector {
        Vector {
            hi: 0,
            lo: self.word % VALUES,
        }
    }
}
