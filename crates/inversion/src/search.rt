// The search for a pivot, for the elimination here and for that of crate invertible.
ghost use Rattle.std.specs.Prelude.{◌≡◌};
ghost use Rattle.inversion.specs.Elimination.{pivot_in};
ghost use Rattle.inversion.specs.Work.{Column, row_in};

use crate::row::Row;

// The first row from k on that has bit k, if one has.
pub fn find<R: Row>(rows: &[R], n: usize, k: usize) -> Option<usize>
    requires { Column R.most n k rows.now }
    ensures { result ≡ pivot_in n k (row_in R.number rows.now) }
{
    for i in k..n {
        if rows[i].digit(n - 1 - k) == 1 {
            return Some(i);
        }
    }
    None
}
