// The test of the aligned 4 by 4 blocks of a bit matrix (document 02, Ticket 5). The definitions are those of specs/.

#![tactic(auto)]

ghost use Rattle.std.specs.Prelude.{◌≡◌, ◌*◌, ◌<◌, ◌≤◌};
ghost use Rattle.matrices.specs.Matrices.{matrix_of};
ghost use Rattle.catalogue.specs.Catalogue.{side, number_of_rows};
ghost use Rattle.blocks.specs.Blocks.{block, block_row_bad, some_block_bad};

use bits::encoding;
use catalogue::{SIDE, VECTORS};

// The number that the rows of block i, j make, of the matrix of 8 w rows that bytes write: a row of it is nibble j of a row of the matrix, which has w bytes.
fn block_number(p: &[u8], w: usize, i: usize, j: usize) -> u16
    requires { (w ≤ 16) × (i < 2 * w) × (j < 2 * w) }
    ensures { result ≡ number_of_rows side (block (2 * w) (matrix_of w p.now) i j) }
{
    let mut number = 0;
    for r in 0..SIDE {
        let row = encoding::nibble(p, 2 * ((SIDE * i + r) * w) + j);
        number = number * VECTORS + usize::from(row);
    }
    number as u16
}

// One of the blocks in the rows 4 i to 4 i + 3 has no inverse; two stand side by side for each byte of a row.
fn block_row_bad(p: &[u8], w: usize, i: usize) -> bool
    requires { (w ≤ 16) × (i < 2 * w) }
    ensures { result ≡ block_row_bad (2 * w) (matrix_of w p.now) i }
{
    let across = 2 * w;
    for j in 0..across {
        if !catalogue::is_invertible(block_number(p, w, i, j)) {
            return true;
        }
    }
    false
}

// One of the blocks of the matrix of 8 w rows that bytes write has no inverse.
pub fn some_block_bad(p: &[u8], w: usize) -> bool
    requires { w ≤ 16 }
    ensures { result ≡ some_block_bad (2 * w) (matrix_of w p.now) }
{
    let down = 2 * w;
    for i in 0..down {
        if block_row_bad(p, w, i) {
            return true;
        }
    }
    false
}
