// Gauss-Jordan elimination of the rows of a work area, each beside the row of the future inverse.
ghost use Rattle.std.specs.Prelude.{◌≡◌, ℕ, ◌-◌, ◌*◌, ◌^◌, ◌<◌, ◌≤◌, length, is_ok};
ghost use Rattle.bits.specs.Lists.{tabulate};
ghost use Rattle.matrices.specs.Matrices.{identity};
ghost use Rattle.matrices.specs.Rows.{row_at, rows_of, stored};
ghost use Rattle.inversion.specs.Elimination.{pivot_by, clear_by, columns, invert, has_inverse, with_inverse};
ghost use Rattle.inversion.specs.Work.{Column, Start, Stepped, row_in, ended};

use crate::row::Augmented;
use crate::{Singular, search};
use matrices::matrix::{row, set_row};

// The matrix a of n rows on the left, the identity on the right.
fn start<R: Augmented>(a: &[u64], work: &mut [R], n: usize)
    requires { Start R.most n a.now work.old }
    ensures left { tabulate n (row_in R.number work.new) ≡ rows_of n a.now }
    ensures right { tabulate n (row_in R.inverse work.new) ≡ identity n }
{
    for i in 0..n {
        work[i] = R::beside_power(row(a, i), n - 1 - i);
    }
}

// Row k clears bit k in every other row. No row is left out of the loop, which so has no branch: row k, which is lost
// in it, is put back.
fn clear<R: Augmented>(work: &mut [R], n: usize, k: usize)
    requires { Column R.most n k work.old }
    ensures { Stepped R.number R.inverse n (clear_by n k (row_in R.number work.old)) k work.old work.new }
{
    let top = work[k];
    for i in 0..n {
        let x = work[i];
        work[i] = x.add(x.digit(n - 1 - k), top);
    }
    work[k] = top;
}

// Row k gets bit k from row p, if it lacks it.
fn pivot<R: Augmented>(work: &mut [R], n: usize, k: usize, p: usize)
    requires step { Column R.most n k work.old }
    requires row { p < n }
    ensures { Stepped R.number R.inverse n (pivot_by n k (row_in R.number work.old)) p work.old work.new }
{
    let x = work[k];
    work[k] = x.add(1 - x.digit(n - 1 - k), work[p]);
}

// The elimination of n columns, unless one has no pivot.
fn eliminate<R: Augmented>(work: &mut [R], n: usize) -> Result<(), Singular>
    requires { (n ≤ R.most) × (n ≤ length work.old) }
    ensures { columns n n 0 (tabulate n (row_in R.number work.old)) (tabulate n (row_in R.inverse work.old))
        ≡ ended (is_ok result) (tabulate n (row_in R.inverse work.new)) }
{
    for k in 0..n {
        let Some(p) = search::find(work, n, k) else {
            return Err(Singular);
        };
        pivot(work, n, k, p);
        clear(work, n, k);
    }
    Ok(())
}

// The n rows on the right, into the first n rows of b.
fn take_right<R: Augmented>(work: &[R], b: &mut [u64], n: usize)
    requires { (n ≤ length work.now) × (2 * n ≤ length b.old) }
    ensures { b.new ≡ stored n (row_in R.inverse work.now) b.old }
{
    for i in 0..n {
        set_row(b, i, work[i].inverse_row());
    }
}

// The inverse of the matrix a of n rows, into the first n rows of b, by way of the rows of a work area. Where a has none,
// b is as it was.
pub fn invert<R: Augmented>(
    a: &[u64],
    work: &mut [R],
    b: &mut [u64],
    n: usize,
) -> Result<(), Singular>
    requires start { Start R.most n a.now work.old }
    requires room { 2 * n ≤ length b.old }
    ensures answer { is_ok result ≡ has_inverse (invert n (rows_of n a.now)) }
    ensures rows { b.new ≡ with_inverse n (invert n (rows_of n a.now)) b.old }
{
    start(a, work, n);
    eliminate(work, n)?;
    take_right(work, b, n);
    Ok(())
}
