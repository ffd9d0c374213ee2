// A block under encodings or a block matrix of a bundle, and back.
ghost use Rattle.std.specs.Prelude.{◌≡◌, ◌+◌, ◌/◌, ◌%◌, ◌<◌, ◌≤◌, length};
ghost use Rattle.bits.specs.Encodings.{encode, decode, Permutation};
ghost use Rattle.bits.specs.Nibbles.{pack};
ghost use Rattle.matrices.specs.Matrices.{matrix_of};
ghost use Rattle.matrices.specs.Rows.{rows_of};
ghost use Rattle.inversion.specs.Elimination.{inverse_of};
ghost use Rattle.bundle.specs.Format.{encoding_of, most_encodings};
ghost use Rattle.external.specs.Asked.{TakesOff, Unmultiplies};
ghost use Rattle.external.specs.Coding.{most_output_first, encode_nibbles, decode_nibbles, multiply};

use bits::{encoding, vector};
use bundle::parts;
use matrices::matrix;

// A byte's halves under encodings n and n + 1.
fn encoded(rounds: usize, bundle: &[u8], n: usize, b: u8) -> u8
    requires { n < most_encodings }
    ensures { result
        ≡ pack (encode (encoding_of rounds bundle.now n) (b / 16))
        (encode (encoding_of rounds bundle.now (n + 1)) (b % 16)) }
{
    let h = encoding::image(parts::encoding_part(rounds, bundle, n), b / 16);
    let l = encoding::image(parts::encoding_part(rounds, bundle, n + 1), b % 16);
    h * 16 + l
}

// The same taken off.
fn decoded(rounds: usize, bundle: &[u8], n: usize, b: u8) -> u8
    requires { (n < most_encodings)
        × Permutation (encoding_of rounds bundle.now n)
        × Permutation (encoding_of rounds bundle.now (n + 1)) }
    ensures { result
        ≡ pack (decode (encoding_of rounds bundle.now n) (b / 16))
        (decode (encoding_of rounds bundle.now (n + 1)) (b % 16)) }
{
    let h = encoding::place(parts::encoding_part(rounds, bundle, n), b / 16);
    let l = encoding::place(parts::encoding_part(rounds, bundle, n + 1), b % 16);
    h * 16 + l
}

// The encodings from `first` on, on a block's nibbles.
pub fn encode_nibbles(rounds: usize, bundle: &[u8], first: usize, src: &[u8], dst: &mut [u8])
    requires { (first ≤ most_output_first) × (length src.now ≡ 16) × (length dst.old ≡ 16) }
    ensures { dst.new ≡ encode_nibbles (encoding_of rounds bundle.now) first src.now }
{
    for i in 0..16 {
        let b = encoded(rounds, bundle, first + 2 * i, src[i]);
        dst[i] = b;
    }
}

// These taken off again.
pub fn decode_nibbles(rounds: usize, bundle: &[u8], first: usize, src: &[u8], dst: &mut [u8])
    requires { TakesOff (encoding_of rounds bundle.now) first src.now dst.old }
    ensures { dst.new ≡ decode_nibbles (encoding_of rounds bundle.now) first src.now }
{
    for i in 0..16 {
        let b = decoded(rounds, bundle, first + 2 * i, src[i]);
        dst[i] = b;
    }
}

// A block times a matrix of 128 rows.
fn times(rows: &[u64], src: &[u8], dst: &mut [u8])
    requires { (256 ≤ length rows.now) × (length src.now ≡ 16) × (length dst.old ≡ 16) }
    ensures { dst.new ≡ multiply (rows_of 128 rows.now) src.now }
{
    let v = vector::read(src, 0, 16);
    let p = matrix::multiply(rows, 128, v);
    vector::write(p, dst);
}

// A block times the matrix that 2,048 bytes write.
pub fn multiply(m: &[u8], src: &[u8], dst: &mut [u8])
    requires { (2048 ≤ length m.now) × (length src.now ≡ 16) × (length dst.old ≡ 16) }
    ensures { dst.new ≡ multiply (matrix_of 16 m.now) src.now }
{
    let mut rows = [0u64; 256];
    matrix::read(m, &mut rows, 16);
    times(&rows, src, dst);
}

// A block times the inverse of the matrix that 2,048 bytes write.
pub fn unmultiply(m: &[u8], src: &[u8], dst: &mut [u8])
    requires { Unmultiplies m.now src.now dst.old }
    ensures { dst.new ≡ multiply (inverse_of 128 (matrix_of 16 m.now)) src.now }
{
    let mut inverse = [0u64; 256];
    inversion::invert_bytes(m, &mut inverse, 16).unwrap();
    times(&inverse, src, dst);
}
