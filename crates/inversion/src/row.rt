// The rows of a matrix that is reduced, of one width or another. Elimination is written once, over these.
ghost use Rattle.std.specs.Prelude.{◌≡◌, ℕ, ◌*◌, ◌/◌, ◌%◌, ◌^◌, ◌<◌};
ghost use Rattle.std.specs.Int.Bits.{bit_xor};
ghost use Rattle.bits.specs.Words.{value};

use bits::vector;
use bits::vector::Vector;

// A row: the number that it stands for, of at most so many digits.
pub trait Row: Copy {
    ghost number: { Self → ℕ };

    ghost most: { ℕ };

    // Digit s, from the bottom.
    fn digit(self, s: usize) -> u64
        requires { s < most }
        ensures { result ≡ number self / 2 ^ s % 2 };
}

// A row beside the row of the future inverse.
pub trait Augmented: Row {
    ghost inverse: { Self → ℕ };

    // The row v beside the row whose only one is digit s.
    fn beside_power(v: Vector, s: usize) -> Self
        requires { (value v < 2 ^ Self.most) × (s < Self.most) }
        ensures row { Self.number result ≡ value v }
        ensures inverse { inverse result ≡ 2 ^ s };

    // This row with the lowest bit of c times another added, on both sides.
    fn add(self, c: u64, other: Self) -> Self
        ensures row { Self.number result ≡ bit_xor (Self.number self) (c % 2 * Self.number other) }
        ensures inverse { inverse result ≡ bit_xor (inverse self) (c % 2 * inverse other) };

    // The row of the future inverse.
    fn inverse_row(self) -> Vector
        ensures { value result ≡ inverse self };
}

// A row of up to 128 digits.
impl Row for Vector {
    ghost number = { value };

    ghost most = { 128 };

    fn digit(self, s: usize) -> u64 {
        vector::digit(self, s)
    }
}

// A row of up to 64 digits, in a word.
impl Row for u64 {
    ghost number = { λ x. x };

    ghost most = { 64 };

    fn digit(self, s: usize) -> u64 {
        (self >> s) % 2
    }
}

// A row of up to 128 digits and that of the future inverse.
#[derive(Clone, Copy)]
pub struct Wide {
    pub left: Vector,
    pub right: Vector,
}

impl Row for Wide {
    ghost number = { λ x. value x.left };

    ghost most = { 128 };

    fn digit(self, s: usize) -> u64 {
        vector::digit(self.left, s)
    }
}

impl Augmented for Wide {
    ghost inverse = { λ x. value x.right };

    fn beside_power(v: Vector, s: usize) -> Wide {
        Wide {
            left: v,
            right: vector::power(s),
        }
    }

    fn add(self, c: u64, other: Wide) -> Wide {
        Wide {
            left: vector::add(self.left, c, other.left),
            right: vector::add(self.right, c, other.right),
        }
    }

    fn inverse_row(self) -> Vector {
        self.right
    }
}
