// The transformations of the state: FIPS 197, sections 5.1 and 5.3.
ghost use Rattle.std.specs.Prelude.{◌≡◌, ◌+◌, ◌*◌, ◌%◌, ◌<◌, ◌≤◌, length};
ghost use Rattle.bits.specs.Groups.{xor_all};
ghost use Rattle.field.specs.Field.{mul};
ghost use Rattle.round.specs.State.{cell, state, entry, mix_by, SubBytes, ShiftRows, MixColumns, AddRoundKey, InvSubBytes, InvShiftRows, InvMixColumns};
ghost use Rattle.round.specs.Key.{key_of};

use std::array;

// The matrices of MixColumns and InvMixColumns, row after row.
pub const MIX: [u8; 16] = [2, 3, 1, 1, 1, 2, 3, 1, 1, 1, 2, 3, 3, 1, 1, 2];

pub const INV_MIX: [u8; 16] = [14, 11, 13, 9, 9, 14, 11, 13, 13, 9, 14, 11, 11, 13, 9, 14];

// Each byte through the S-box.
pub fn sub_bytes(s: [u8; 16]) -> [u8; 16]
    ensures { result ≡ SubBytes s }
{
    s.map(|x| field::sub(x))
}

// Each byte through the inverse S-box.
pub fn inv_sub_bytes(s: [u8; 16]) -> [u8; 16]
    ensures { result ≡ InvSubBytes s }
{
    s.map(|x| field::inv_sub(x))
}

// Row r turned to the left by `by` times r places.
fn turn_rows(s: [u8; 16], by: usize) -> [u8; 16]
    requires { by < 4 }
    ensures { result ≡ state (λ r c. cell s r ((c + by * r) % 4)) }
{
    array::from_fn(|i| s[i % 4 + 4 * ((i / 4 + by * (i % 4)) % 4)])
}

// Row r turned to the left by r places.
pub fn shift_rows(s: [u8; 16]) -> [u8; 16]
    ensures { result ≡ ShiftRows s }
{
    turn_rows(s, 1)
}

// Row r turned to the right by r places, which is to the left by 3r.
pub fn inv_shift_rows(s: [u8; 16]) -> [u8; 16]
    ensures { result ≡ InvShiftRows s }
{
    turn_rows(s, 3)
}

// Row r of the matrix m times column c of the state.
fn row_by_column(m: [u8; 16], s: [u8; 16], r: usize, c: usize) -> u8
    requires { (r < 4) × (c < 4) }
    ensures { result ≡ xor_all 4 (λ q. mul (entry m r q) (cell s q c)) }
{
    let mut sum: u8 = 0;
    for q in 0..4 {
        sum = sum ^ field::product(m[4 * r + q], s[q + 4 * c]);
    }
    sum
}

// Each column times the matrix m.
fn mix_by(m: [u8; 16], s: [u8; 16]) -> [u8; 16]
    ensures { result ≡ mix_by m s }
{
    array::from_fn(|i| row_by_column(m, s, i % 4, i / 4))
}

// Each column times the matrix of section 5.1.3.
pub fn mix_columns(s: [u8; 16]) -> [u8; 16]
    ensures { result ≡ MixColumns s }
{
    mix_by(MIX, s)
}

// Each column times the matrix of section 5.3.3.
pub fn inv_mix_columns(s: [u8; 16]) -> [u8; 16]
    ensures { result ≡ InvMixColumns s }
{
    mix_by(INV_MIX, s)
}

// The xor with round key n of w.
pub fn add_round_key(s: [u8; 16], w: &[u8], n: usize) -> [u8; 16]
    requires { 16 * (n + 1) ≤ length w.now }
    ensures { result ≡ AddRoundKey s (key_of w.now n) }
{
    array::from_fn(|i| s[i] ^ w[16 * n + i])
}
