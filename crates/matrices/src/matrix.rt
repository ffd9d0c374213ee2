// Matrices of up to 128 rows: row i is words 2 i and 2 i + 1 of a slice.
ghost use Rattle.std.specs.Prelude.{◌≡◌, ◌+◌, ◌*◌, ◌^◌, ◌<◌, ◌≤◌, length};
ghost use Rattle.bits.specs.Lists.{at};
ghost use Rattle.bits.specs.Words.{value};
ghost use Rattle.matrices.specs.Matrices.{product, matrix_of, matrix_bytes};
ghost use Rattle.matrices.specs.Rows.{row_at, rows_of, set_row, stored};

use bits::vector;
use bits::vector::Vector;

// Row i.
pub fn row(m: &[u64], i: usize) -> Vector
    requires { 2 * i + 1 < length m.now }
    ensures { value result ≡ row_at m.now i }
{
    let k = 2 * i;
    Vector {
        hi: m[k],
        lo: m[k + 1],
    }
}

// v becomes row i.
pub fn set_row(m: &mut [u64], i: usize, v: Vector)
    requires { 2 * i + 1 < length m.old }
    ensures { m.new ≡ set_row m.old i (value v) }
{
    let k = 2 * i;
    m[k] = v.hi;
    m[k + 1] = v.lo;
}

// The product of a matrix of n rows and a vector.
pub fn multiply(m: &[u64], n: usize, v: Vector) -> Vector
    requires { (n ≤ 128) × (2 * n ≤ length m.now) }
    ensures { value result ≡ product n (rows_of n m.now) (value v) }
{
    let mut p = Vector { hi: 0, lo: 0 };
    for i in 0..n {
        let b = vector::parity(row(m, i), v);
        p = vector::push_bit(p, b);
    }
    p
}

// Column s of a matrix of n rows, counted from the bottom digit: the product with 2^s. Digit s lies in the same word of each row, the high word being first.
pub fn column(m: &[u64], n: usize, s: usize) -> Vector
    requires { (n ≤ 128) × (2 * n ≤ length m.now) × (s < 128) }
    ensures { value result ≡ product n (rows_of n m.now) (2 ^ s) }
{
    let word = 1 - s / 64;
    let place = s % 64;
    let mut c = Vector { hi: 0, lo: 0 };
    for i in 0..n {
        let b = (m[2 * i + word] >> place) % 2;
        c = vector::push_bit(c, b);
    }
    c
}

// The matrix of 8 w rows that bytes write.
pub fn read(s: &[u8], m: &mut [u64], w: usize)
    requires { (w ≤ 16) × (8 * w * w ≤ length s.now) × (16 * w ≤ length m.old) }
    ensures { m.new ≡ stored (8 * w) (at (matrix_of w s.now)) m.old }
{
    let n = 8 * w;
    for i in 0..n {
        let v = vector::read(s, i * w, w);
        set_row(m, i, v);
    }
}

// The bytes that write a matrix of 8 w rows.
pub fn write(m: &[u64], dst: &mut [u8], w: usize)
    requires { (w ≤ 16) × (length dst.old ≡ 8 * w * w) × (16 * w ≤ length m.now) }
    ensures { dst.new ≡ matrix_bytes w (rows_of (8 * w) m.now) }
{
    let n = 8 * w;
    for i in 0..n {
        let v = row(m, i);
        let a = i * w;
        let e = a + w;
        vector::write(v, &mut dst[a..e]);
    }
}
