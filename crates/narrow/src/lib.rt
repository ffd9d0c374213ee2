// The inverse of a bit matrix of up to 32 rows, by elimination with a row of the matrix and the row of its future inverse side by side in one word: what
// crate inversion makes of such a matrix, in a quarter of the words. The definitions are those of crate inversion.

#![tactic(auto)]

mod halves;

ghost use Rattle.std.specs.Prelude.{◌≡◌, ◌*◌, ◌≤◌, length, is_ok};
ghost use Rattle.inversion.specs.Elimination.{invert, has_inverse, with_inverse};
ghost use Rattle.matrices.specs.Matrices.{matrix_of};

use crate::halves::{HALF, Halves};
use inversion::{Singular, elimination};
use matrices::matrix;

// The most bytes of a row.
pub const MOST_BYTES: usize = 4;

// The inverse of the matrix of 8 w rows that bytes write, w at most 4, into the first 8 w rows of b. Where there is none, b is as it was.
pub fn invert_bytes(p: &[u8], b: &mut [u64], w: usize) -> Result<(), Singular>
    requires { (w ≤ 4) × (8 * w * w ≤ length p.now) × (16 * w ≤ length b.old) }
    ensures answer { is_ok result ≡ has_inverse (invert (8 * w) (matrix_of w p.now)) }
    ensures rows { b.new ≡ with_inverse (8 * w) (invert (8 * w) (matrix_of w p.now)) b.old }
{
    let mut rows = [0u64; 64];
    matrix::read(p, &mut rows, w);
    let mut work = [Halves { word: 0 }; HALF];
    elimination::invert(&rows, &mut work, b, 8 * w)
}
