// The cipher and the inverse cipher: FIPS 197, sections 5.1 and 5.3.
ghost use Rattle.std.specs.Prelude.{◌≡◌, ◌+◌, ◌*◌, length};
ghost use Rattle.rounds.specs.Rounds.{Rounds};
ghost use Rattle.aes.specs.Cipher.{Cipher, InvCipher};

use round::state::{
    add_round_key, inv_mix_columns, inv_shift_rows, inv_sub_bytes, mix_columns, shift_rows,
    sub_bytes,
};

// The cipher of the block s over the round keys w: round key 0, all rounds but the last, and the last, which has no MixColumns.
pub fn cipher(rounds: usize, w: &[u8], s: [u8; 16]) -> [u8; 16]
    requires { (length w.now ≡ 16 * (rounds + 1)) × Rounds rounds }
    ensures { result ≡ Cipher rounds w.now s }
{
    let mut t = add_round_key(s, w, 0);
    for n in 1..rounds {
        t = add_round_key(mix_columns(shift_rows(sub_bytes(t))), w, n);
    }
    add_round_key(shift_rows(sub_bytes(t)), w, rounds)
}

// The inverse cipher of the block s over the round keys w, which it takes from the last to the first.
pub fn inv_cipher(rounds: usize, w: &[u8], s: [u8; 16]) -> [u8; 16]
    requires { (length w.now ≡ 16 * (rounds + 1)) × Rounds rounds }
    ensures { result ≡ InvCipher rounds w.now s }
{
    let mut t = add_round_key(s, w, rounds);
    for n in (1..rounds).rev() {
        t = inv_mix_columns(add_round_key(inv_sub_bytes(inv_shift_rows(t)), w, n));
    }
    add_round_key(inv_sub_bytes(inv_shift_rows(t)), w, 0)
}
