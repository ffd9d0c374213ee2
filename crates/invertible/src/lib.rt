// Whether a bit matrix of up to 128 rows has an inverse, with none made: the elimination of crate inversion on the
// matrix alone, and in column k only of the rows behind row k, as no other is looked at again. The definitions are
// those of crate inversion and of specs/.

#![tactic(auto)]

mod forward;

ghost use Rattle.std.specs.Prelude.{◌≡◌, ◌*◌, ◌≤◌, length};
ghost use Rattle.inversion.specs.Elimination.{invert, has_inverse};
ghost use Rattle.matrices.specs.Matrices.{matrix_of};

use bits::vector::Vector;

// The most rows.
const MOST_ROWS: usize = 128;

// The most rows of a word each.
const MOST_WORDS: usize = 32;

// Rows of up to 4 bytes, in a word each.
fn in_words(p: &[u8], w: usize) -> bool
    requires { (w ≤ 4) × (8 * w * w ≤ length p.now) }
    ensures { result ≡ has_inverse (invert (8 * w) (matrix_of w p.now)) }
{
    let mut rows = [0u64; MOST_WORDS];
    forward::has_inverse(p, &mut rows, w)
}

// Rows of up to 16 bytes, in two words each.
fn in_vectors(p: &[u8], w: usize) -> bool
    requires { (w ≤ 16) × (8 * w * w ≤ length p.now) }
    ensures { result ≡ has_inverse (invert (8 * w) (matrix_of w p.now)) }
{
    let mut rows = [Vector { hi: 0, lo: 0 }; MOST_ROWS];
    forward::has_inverse(p, &mut rows, w)
}

// The matrix of 8 w rows that bytes write has an inverse. A bundle's byte and column matrices have a row to a word;
// their widths are named, so that the compiler makes a version for each.
pub fn has_inverse(p: &[u8], w: usize) -> bool
    requires { (w ≤ 16) × (8 * w * w ≤ length p.now) }
    ensures { result ≡ has_inverse (invert (8 * w) (matrix_of w p.now)) }
{
    if w == 1 {
        return in_words(p, 1);
    }
    if w == 4 {
        return in_words(p, 4);
    }
    in_vectors(p, w)
}
