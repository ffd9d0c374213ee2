// AES with a key of 128 bits, FIPS 197: the calls on slices of any length.

#![tactic(auto)]

pub mod turns;

ghost use Rattle.std.specs.Prelude.{◌≡◌};
ghost use Rattle.aes.specs.Answers.{answer_of, enciphered, deciphered};

use crate::turns::{cipher, inv_cipher};
use answers::Refusal;
use bits::block::{load, store};
use round::key::{FOUR, expand};
use rounds::TEN;

// Bytes of the round keys of ten rounds.
const ROUND_KEYS: usize = 16 * (TEN + 1);

// Whether a call is accepted, by the lengths of what it is lent.
fn judged(key: &[u8], block_in: &[u8], block_out: &[u8]) -> Result<(), Refusal>
    ensures { result ≡ answer_of key.now block_in.now block_out.now }
{
    if key.len() != 16 {
        return Err(Refusal::KeyLength);
    }
    if block_in.len() != 16 {
        return Err(Refusal::BlockLength);
    }
    if block_out.len() == 16 {
        Ok(())
    } else {
        Err(Refusal::BlockLength)
    }
}

// Two calls, on which two of C's stand; they differ in the function that is applied, not in a type, a size or a constant.

// Enciphers a block under a key; a refused call leaves block_out as it was.
pub fn encipher(key: &[u8], block_in: &[u8], block_out: &mut [u8]) -> Result<(), Refusal>
    ensures answer { result ≡ answer_of key.now block_in.now block_out.old }
    ensures block { block_out.new
        ≡ enciphered key.now block_in.now block_out.old }
{
    // The lengths are judged before a byte is written.
    judged(key, block_in, block_out)?;
    let mut w = [0u8; ROUND_KEYS];
    expand(FOUR, key, &mut w);
    store(block_out, cipher(TEN, &w, load(block_in)));
    Ok(())
}

// Deciphers a block under a key; a refused call leaves block_out as it was.
pub fn decipher(key: &[u8], block_in: &[u8], block_out: &mut [u8]) -> Result<(), Refusal>
    ensures answer { result ≡ answer_of key.now block_in.now block_out.old }
    ensures block { block_out.new
        ≡ deciphered key.now block_in.now block_out.old }
{
    judged(key, block_in, block_out)?;
    let mut w = [0u8; ROUND_KEYS];
    expand(FOUR, key, &mut w);
    store(block_out, inv_cipher(TEN, &w, load(block_in)));
    Ok(())
}
