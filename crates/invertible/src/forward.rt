// The elimination on the matrix alone, for rows of any width, and in column k only of the rows behind row k.
ghost use Rattle.std.specs.Prelude.{◌≡◌, ◌*◌, ◌%◌, ◌^◌, ◌<◌, ◌≤◌, length};
ghost use Rattle.std.specs.Int.Bits.{bit_xor};
ghost use Rattle.bits.specs.Lists.{tabulate};
ghost use Rattle.bits.specs.Words.{value};
ghost use Rattle.inversion.specs.Elimination.{invert, has_inverse};
ghost use Rattle.inversion.specs.Work.{Column, row_in};
ghost use Rattle.matrices.specs.Matrices.{matrix_of};
ghost use Rattle.invertible.specs.Forward.{ClearedBehind, Reading};

use bits::vector;
use bits::vector::Vector;
use inversion::row::Row;
use inversion::search;

// A row with none beside it.
pub trait Single: Row {
    // The row v.
    fn of(v: Vector) -> Self
        requires { value v < 2 ^ Self.most }
        ensures { Self.number result ≡ value v };

    // This row with the lowest bit of c times another added.
    fn add(self, c: u64, other: Self) -> Self
        ensures { Self.number result ≡ bit_xor (Self.number self) (c % 2 * Self.number other) };
}

impl Single for Vector {
    fn of(v: Vector) -> Vector {
        v
    }

    fn add(self, c: u64, other: Vector) -> Vector {
        vector::add(self, c, other)
    }
}

impl Single for u64 {
    fn of(v: Vector) -> u64 {
        v.lo
    }

    fn add(self, c: u64, other: u64) -> u64 {
        self ^ vector::masked(c, other)
    }
}

// The matrix of 8 w rows that bytes write.
fn read<R: Single>(p: &[u8], rows: &mut [R], w: usize)
    requires { Reading R.most w p.now rows.old }
    ensures { tabulate (8 * w) (row_in R.number rows.new) ≡ matrix_of w p.now }
{
    let n = 8 * w;
    for i in 0..n {
        rows[i] = R::of(vector::read(p, i * w, w));
    }
}

// Row k, with row p added if it lacks bit k, is added to every row behind it that has bit k.
fn clear<R: Single>(rows: &mut [R], n: usize, k: usize, p: usize)
    requires step { Column R.most n k rows.old }
    requires row { p < n }
    ensures { ClearedBehind n k p (row_in R.number rows.old) (row_in R.number rows.new) }
{
    let s = n - 1 - k;
    let top = rows[k];
    let cleared_by = top.add(1 - top.digit(s), rows[p]);
    for i in k + 1..n {
        let x = rows[i];
        rows[i] = x.add(x.digit(s), cleared_by);
    }
}

// The elimination of n columns of the first n rows: false where one has no pivot. The rows are used up.
fn eliminate<R: Single>(rows: &mut [R], n: usize) -> bool
    requires { (n ≤ R.most) × (n ≤ length rows.old) }
    ensures { result ≡ has_inverse (invert n (tabulate n (row_in R.number rows.old))) }
{
    for k in 0..n {
        let Some(p) = search::find(rows, n, k) else {
            return false;
        };
        clear(rows, n, k, p);
    }
    true
}

// The matrix of 8 w rows that bytes write has an inverse, by way of rows that it is read into.
pub fn has_inverse<R: Single>(p: &[u8], rows: &mut [R], w: usize) -> bool
    requires { Reading R.most w p.now rows.old }
    ensures { result ≡ has_inverse (invert (8 * w) (matrix_of w p.now)) }
{
    read(p, rows, w);
    eliminate(rows, 8 * w)
}
