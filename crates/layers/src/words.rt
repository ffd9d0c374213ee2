// The words of a spread table before they are encoded: of the bytes 2^0 to 2^7, since a word is linear in its byte.
ghost use Rattle.std.specs.Prelude.{◌≡◌, ◌+◌, ◌*◌, ◌^◌, ◌<◌, ◌≤◌, length};
ghost use Rattle.bits.specs.Bytes.{placed};
ghost use Rattle.bits.specs.Vectors.{dot};
ghost use Rattle.bits.specs.Words.{value};
ghost use Rattle.matrices.specs.Matrices.{product, matrix_of};
ghost use Rattle.round.specs.State.{mix_rows, inv_mix_rows, entry};
ghost use Rattle.layout.specs.Ciphers.{for_cipher};
ghost use Rattle.layers.specs.Asked.{ForSpread};
ghost use Rattle.layers.specs.Layers.{mixed_column, by_matrices, spread_basis, mixed_basis, placed_basis};

use bits::vector::Vector;
use bits::{slices, vector};
use matrices::matrix;
use round::state::{INV_MIX, MIX};
use std::array;
use view::opened::Opened;

// Row t, column q of MixColumns, or of InvMixColumns.
fn coefficient(cipher: u64, t: usize, q: usize) -> u8
    requires { (t < 4) × (q < 4) }
    ensures { result ≡ entry (for_cipher cipher mix_rows inv_mix_rows) t q }
{
    let i = 4 * t + q;
    if cipher == 0 { MIX[i] } else { INV_MIX[i] }
}

// The byte 2^k.
fn power(k: usize) -> u8
    requires { k < 8 }
    ensures { result ≡ 2 ^ k }
{
    let one: u8 = 1;
    one << k
}

// r with one bit more at the bottom: the parity of the ones that two words share.
fn push_parity(r: u64, a: u64, b: u64) -> u64
    requires { r < 2 ^ 63 }
    ensures { result ≡ r * 2 + dot a b }
{
    r * 2 + u64::from(u64::count_ones(a & b)) % 2
}

// The product of the matrix of 8 rows that bytes write and a byte.
fn byte_by_part(p: &[u8], x: u8) -> u8
    requires { 8 ≤ length p.now }
    ensures { result ≡ product 8 (matrix_of 1 p.now) x }
{
    let mut r: u64 = 0;
    for i in 0..8 {
        r = push_parity(r, p[i] as u64, x as u64);
    }
    r as u8
}

// The byte y times column q of MixColumns, or of InvMixColumns: four bytes in a word.
fn mixed(cipher: u64, q: usize, y: u8) -> u64
    requires { q < 4 }
    ensures { result ≡ mixed_column cipher q y }
{
    let mut v: u64 = 0;
    for t in 0..4 {
        v = v * 256 + field::product(coefficient(cipher, t, q), y) as u64;
    }
    v
}

// The 32 rows of the matrix that bytes write, a word to a row.
fn words_of(p: &[u8]) -> [u64; 32]
    requires { 128 ≤ length p.now }
    ensures { result ≡ matrix_of 4 p.now }
{
    array::from_fn(|i| slices::number_at(p, i * 4) as u64)
}

// The product of 32 rows, a word to a row, and a vector.
fn by_words(rows: &[u64], v: u64) -> u64
    requires { 32 ≤ length rows.now }
    ensures { result ≡ product 32 rows.now v }
{
    let mut r: u64 = 0;
    for i in 0..32 {
        r = push_parity(r, rows[i], v);
    }
    r
}

// Each of n bytes times its byte matrix: those of the section that are numbered from `first` on.
fn by_bytes(section: &[u8], first: usize, n: usize, v: Vector) -> Vector
    requires { ((first + n) * 8 ≤ length section.now) × (first + n ≤ 224) × (n ≤ 16) }
    ensures { value result ≡ by_matrices section.now first n (value v) }
{
    let mut b = [0u8; 16];
    for j in 0..n {
        b[j] = byte_by_part(
            slices::part(section, 8, first + j),
            vector::byte(v, n - 1 - j),
        );
    }
    vector::read(&b, 0, n)
}

// Entry and second halves: the byte is placed at i of n bytes and multiplied by the matrix m, then each byte by its byte
// matrix. The product of m and 2^k at that place is a column of m.
pub fn spread_basis(opened: &Opened, m: &[u64], n: usize, i: usize, first: usize, basis: &mut [u64])
    requires { ForSpread opened.now.rounds m.now n i first basis.old }
    ensures { basis.new ≡ spread_basis opened.now.rounds opened.now.bundle.now m.now n i first basis.old }
{
    let section = opened.byte_matrices();
    for k in 0..8 {
        let v = matrix::column(m, 8 * n, 8 * (n - 1 - i) + k);
        matrix::set_row(basis, k, by_bytes(section, first, n, v));
    }
}

// First halves: the byte times column q of MixColumns, or of InvMixColumns, then by the column matrix that bytes write.
pub fn mixed_basis(cipher: u64, p: &[u8], q: usize, basis: &mut [u64])
    requires { (128 ≤ length p.now) × (q < 4) × (length basis.old ≡ 16) }
    ensures { basis.new ≡ mixed_basis cipher p.now q basis.old }
{
    let rows = words_of(p);
    for k in 0..8 {
        let v = by_words(&rows, mixed(cipher, q, power(k)));
        matrix::set_row(basis, k, Vector { hi: 0, lo: v });
    }
}

// The column of a matrix of 128 rows, which bytes write, at digit k of byte i: that digit of byte i of each row.
fn written_column(p: &[u8], i: usize, k: usize) -> Vector
    requires { (2048 ≤ length p.now) × (i < 16) × (k < 8) }
    ensures { value result ≡ product 128 (matrix_of 16 p.now) (placed 16 i (2 ^ k)) }
{
    let mut v = Vector { hi: 0, lo: 0 };
    for r in 0..128 {
        let b = (p[r * 16 + i] >> k) % 2;
        v = vector::push_bit(v, b as u64);
    }
    v
}

// Exit: the byte is placed at i of a block and multiplied by the output matrix, which bytes write: of 2^k that is a column of the matrix.
pub fn placed_basis(p: &[u8], i: usize, basis: &mut [u64])
    requires { (2048 ≤ length p.now) × (i < 16) × (length basis.old ≡ 16) }
    ensures { basis.new ≡ placed_basis p.now i basis.old }
{
    for k in 0..8 {
        matrix::set_row(basis, k, written_column(p, i, k));
    }
}
