// The inverse of a bit matrix of up to 128 rows, by elimination. The definitions are those of specs/.

#![tactic(auto)]

pub mod elimination;
pub mod row;
pub mod search;

ghost use Rattle.std.specs.Prelude.{◌≡◌, ◌*◌, ◌≤◌, length, is_ok};
ghost use Rattle.inversion.specs.Elimination.{invert, has_inverse, with_inverse};
ghost use Rattle.matrices.specs.Matrices.{matrix_of};
ghost use Rattle.matrices.specs.Rows.{rows_of};

use crate::row::Wide;
use bits::vector::Vector;
use matrices::matrix;

// The most rows.
const MOST_ROWS: usize = 128;

// A row of zeros beside another.
const ZEROS: Wide = Wide {
    left: Vector { hi: 0, lo: 0 },
    right: Vector { hi: 0, lo: 0 },
};

// A matrix that has no inverse.
#[derive(Clone, Copy, Debug, PartialEq, Eq)]
pub struct Singular;

// The inverse of the matrix a of n rows, into the first n rows of b. Where a has none, b is as it was.
pub fn invert(a: &[u64], b: &mut [u64], n: usize) -> Result<(), Singular>
    requires { (n ≤ 128) × (2 * n ≤ length a.now) × (2 * n ≤ length b.old) }
    ensures answer { is_ok result ≡ has_inverse (invert n (rows_of n a.now)) }
    ensures rows { b.new ≡ with_inverse n (invert n (rows_of n a.now)) b.old }
{
    let mut work = [ZEROS; MOST_ROWS];
    elimination::invert(a, &mut work, b, n)
}

// The inverse of the matrix of 8 w rows that bytes write, into the first 8 w rows of b, in the same way.
pub fn invert_bytes(p: &[u8], b: &mut [u64], w: usize) -> Result<(), Singular>
    requires { (w ≤ 16) × (8 * w * w ≤ length p.now) × (16 * w ≤ length b.old) }
    ensures answer { is_ok result ≡ has_inverse (invert (8 * w) (matrix_of w p.now)) }
    ensures rows { b.new ≡ with_inverse (8 * w) (invert (8 * w) (matrix_of w p.now)) b.old }
{
    let mut rows = [0u64; 256];
    matrix::read(p, &mut rows, w);
    invert(&rows, b, 8 * w)
}
