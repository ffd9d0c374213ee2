// The inverse of a matrix that bytes write, as the words of its rows.
ghost use Rattle.std.specs.Prelude.{◌++◌, ◌≡◌, ◌*◌, drop};
ghost use Rattle.inverse_matrices.specs.Asked.{ForInverse};
ghost use Rattle.inverse_matrices.specs.InverseWords.{written_inverse};

// Of 8 w rows, into the front of b; of up to 32 rows by the elimination that holds a row in one word.
pub fn read(p: &[u8], b: &mut [u64], w: usize)
    requires { ForInverse w p.now b.old }
    ensures { b.new ≡ written_inverse w p.now ++ drop (16 * w) b.old }
{
    if w <= narrow::MOST_BYTES {
        narrow::invert_bytes(p, b, w).unwrap();
    } else {
        inversion::invert_bytes(p, b, w).unwrap();
    }
}
