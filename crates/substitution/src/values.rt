// The byte behind the S-box of a cipher, for each byte that a first half or the exit reads.
ghost use Rattle.std.specs.Prelude.{◌≡◌, ◌%◌, ◌^◌, ◌≤◌, length};
ghost use Rattle.std.specs.Int.Bits.{bit_xor};
ghost use Rattle.bits.specs.Lists.{at, tabulate};
ghost use Rattle.matrices.specs.ByNibbles.{word_in};
ghost use Rattle.matrices.specs.Matrices.{product};
ghost use Rattle.matrices.specs.Rows.{rows_of, stored};
ghost use Rattle.field.specs.Sbox.{sbox_of, inv_sbox_of};
ghost use Rattle.layout.specs.Ciphers.{for_cipher};
ghost use Rattle.substitution.specs.Asked.{Position};
ghost use Rattle.substitution.specs.Substituted.{behind_bytes, substituted_bytes};

use crate::source::Source;
use bits::vector;
use inverse_matrices::inverse;
use layout::cipher::reads_of;
use matrices::{matrix, nibbles};
use view::part::Part;

// The products of a matrix of 8 rows and the bytes 2^0 to 2^7: its columns.
fn columns(m: &[u64], basis: &mut [u64])
    requires { (16 ≤ length m.now) × (length basis.old ≡ 16) }
    ensures { basis.new ≡ stored 8 (λ k. product 8 (rows_of 8 m.now) (2 ^ k)) basis.old }
{
    for k in 0..8 {
        matrix::set_row(basis, k, matrix::column(m, 8, k));
    }
}

// Of the byte y: `products` has a row for each byte with one nibble, and they add up to the product of y.
fn substituted(products: &[u64], sbox: &[u8], before: u8, behind: u8, y: u8) -> u8
    requires { (64 ≤ length products.now) × (length sbox.now ≡ 256) }
    ensures { result ≡ bit_xor (at sbox.now (bit_xor (word_in products.now y % 256) before)) behind }
{
    let z = vector::byte(nibbles::word_of(products, y), 0) ^ before;
    sbox[usize::from(z)] ^ behind
}

// The S-box, or the inverse S-box.
fn sbox_of(cipher: u64) -> [u8; 256]
    ensures { result ≡ tabulate 256 (for_cipher cipher sbox_of inv_sbox_of) }
{
    if cipher == 0 {
        field::sbox_table()
    } else {
        field::inv_sbox_table()
    }
}

// Of every byte of `read`.
fn substitute(cipher: u64, inverse: &[u64], before: u8, behind: u8, read: &[u8], dst: &mut [u8])
    requires { (16 ≤ length inverse.now) × (length read.now ≡ 256) × (length dst.old ≡ 256) }
    ensures { dst.new ≡ behind_bytes cipher inverse.now before behind read.now }
{
    let mut basis = [0u64; 16];
    let mut products = [0u64; 2 * nibbles::NIBBLE_ROWS];
    columns(inverse, &mut basis);
    nibbles::nibble_words(&basis, &mut products);
    let sbox = sbox_of(cipher);
    for x in 0..256 {
        dst[x] = substituted(&products, &sbox, before, behind, read[x]);
    }
}

// Round r, position p: "read byte j [..], multiply by the inverse of matrix (r, j), XOR byte j of round key r−1,
// S-box"; for the inverse cipher with its own byte read, key bytes and S-box.
pub fn behind_sbox(source: &Source, r: usize, p: usize, read: &[u8], dst: &mut [u8])
    requires { Position source.now.opened.rounds r p × (length read.now ≡ 256) × (length dst.old ≡ 256) }
    ensures { dst.new
        ≡ substituted_bytes source.now.cipher source.now.opened.rounds source.now.keys.now source.now.opened.bundle.now
        r p read.now }
{
    let j = reads_of(source.cipher, p);
    let number = 16 * (r - 1) + j;
    let mut rows = [0u64; 16];
    inverse::read(source.opened.part(Part::ByteMatrix(number)), &mut rows, 1);
    let before = source.key_before(r, j);
    let behind = source.key_behind(r, p);
    substitute(source.cipher, &rows, before, behind, read, dst);
}
