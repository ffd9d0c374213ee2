// A linear map of a byte, by its two nibbles: the word of a byte is the xor of eight words, at the bits that the byte
// has, and so the xor of two of 32 words, one for each of its nibbles. A word is a row of two machine words.
ghost use Rattle.std.specs.Prelude.{◌≡◌, ◌+◌, ◌*◌, ◌/◌, ◌%◌, ◌^◌, ◌<◌, ◌≤◌, length};
ghost use Rattle.bits.specs.Groups.{xor_all};
ghost use Rattle.bits.specs.Words.{value};
ghost use Rattle.matrices.specs.ByNibbles.{combined, nibble_byte, word_in};
ghost use Rattle.matrices.specs.Rows.{row_at, stored};

use crate::matrix;
use bits::vector;
use bits::vector::Vector;

// The bytes with one nibble, each with a row of two machine words.
pub const NIBBLE_ROWS: usize = 32;

// Bit i of a byte, from the bottom.
fn bit_of(y: u8, i: usize) -> u64
    requires { i < 8 }
    ensures { (result ≡ y / 2 ^ i % 2) × (result < 2) }
{
    ((y >> i) % 2) as u64
}

// The word of the nibble v: row `first` + i of `basis` is that of 2^i.
fn nibble_word(basis: &[u64], first: usize, v: u8) -> Vector
    requires { (first ≤ 4) × (16 ≤ length basis.now) }
    ensures { value result ≡ xor_all 4 (λ i. (v / 2 ^ i % 2) * row_at basis.now (first + i)) }
{
    let mut w = Vector { hi: 0, lo: 0 };
    for i in 0..4 {
        w = vector::add(w, bit_of(v, i), matrix::row(basis, first + i));
    }
    w
}

// The words of the bytes with one nibble, a row each: those of the low nibbles 0 to 15, then those of the high ones.
pub fn nibble_words(basis: &[u64], dst: &mut [u64])
    requires { (16 ≤ length basis.now) × (length dst.old ≡ 64) }
    ensures { dst.new ≡ stored 32 (λ r. combined (row_at basis.now) (nibble_byte r)) dst.old }
{
    for r in 0..NIBBLE_ROWS {
        matrix::set_row(dst, r, nibble_word(basis, r / 16 * 4, (r % 16) as u8));
    }
}

// The word of the byte y: the xor of those of its two nibbles.
pub fn word_of(words: &[u64], y: u8) -> Vector
    requires { 64 ≤ length words.now }
    ensures { value result ≡ word_in words.now y }
{
    let low = matrix::row(words, usize::from(y % 16));
    let high = matrix::row(words, 16 + usize::from(y / 16));
    vector::add(low, 1, high)
}
