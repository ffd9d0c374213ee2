// The key expansion for a key of four, six or eight words: FIPS 197, section 5.2.
ghost use Rattle.std.specs.Prelude.{◌≡◌, ◌+◌, ◌*◌, ◌<◌, ◌≤◌, length, take};
ghost use Rattle.rounds.specs.Rounds.{Rounds};
ghost use Rattle.round.specs.Key.{Rcon, word_at, RotWord, SubWord, xor_word, temp, put_word, rounds_of, KeyExpansion};

use std::array;

// The first bytes of the round constants; Rcon begins at 1.
const RCON: [u8; 11] = [0, 1, 2, 4, 8, 16, 32, 64, 128, 27, 54];

// FIPS 197's number of words of a key of 16 bytes.
pub const FOUR: usize = 4;

// Table 3: a cipher has six rounds more than its key has words.
pub const MORE_ROUNDS: usize = 6;

// The most rounds that a cipher has, and the bytes of its round keys.
pub const MOST_ROUNDS: usize = 14;

pub const MOST_ROUND_KEYS: usize = 16 * (MOST_ROUNDS + 1);

// Rcon[j].
fn rcon_at(j: usize) -> [u8; 4]
    requires { j < 11 }
    ensures { result ≡ Rcon j }
{
    [RCON[j], 0, 0, 0]
}

// RotWord: each byte one place to the front, the first one behind.
fn rot_word(t: [u8; 4]) -> [u8; 4]
    ensures { result ≡ RotWord t }
{
    [t[1], t[2], t[3], t[0]]
}

// SubWord: the S-box on each byte.
fn sub_word(t: [u8; 4]) -> [u8; 4]
    ensures { result ≡ SubWord t }
{
    t.map(|x| field::sub(x))
}

// The xor of two words.
fn xor_word(a: [u8; 4], b: [u8; 4]) -> [u8; 4]
    ensures { result ≡ xor_word a b }
{
    array::from_fn(|q| a[q] ^ b[q])
}

// What becomes of temp = w[i-1], for a key of so many words.
fn temp_of(words: usize, t: [u8; 4], i: usize) -> [u8; 4]
    requires { (i < 4 * (rounds_of words + 1)) × Rounds (rounds_of words) }
    ensures { result ≡ temp words i t }
{
    let j = i % words;
    if j == 0 {
        return xor_word(sub_word(rot_word(t)), rcon_at(i / words));
    }
    if words <= 6 {
        return t;
    }
    if j == 4 {
        return sub_word(t);
    }
    t
}

// Word i of w.
fn word_at(w: &[u8], i: usize) -> [u8; 4]
    requires { 4 * i + 4 ≤ length w.now }
    ensures { result ≡ word_at w.now i }
{
    array::from_fn(|q| w[4 * i + q])
}

// Writes word i of w.
fn put_word(w: &mut [u8], i: usize, x: [u8; 4])
    requires { 4 * i + 4 ≤ length w.old }
    ensures { w.new ≡ put_word w.old i x }
{
    let from = 4 * i;
    w[from..from + 4].copy_from_slice(&x);
}

// The key, laid out in front of the room for the other words. It is copied byte by byte: `copy_from_slice`, of a length that
// the compiler does not know, would be a call of the C library's `memmove`, which a host without it could not link.
fn lay(key: &[u8], w: &mut [u8])
    requires { length key.now ≤ length w.old }
    ensures { take (length key.now) w.new ≡ key.now }
{
    for i in 0..key.len() {
        w[i] = key[i];
    }
}

// The round keys of a key of so many words, one after the other: 4 (Nr + 1) words, where Nr is six more than the words
// of the key.
pub fn expand(words: usize, key: &[u8], w: &mut [u8])
    requires { (length key.now ≡ 4 * words) × (length w.old ≡ 16 * (rounds_of words + 1)) × Rounds (rounds_of words) }
    ensures { w.new ≡ KeyExpansion words key.now }
{
    lay(key, w);
    let all = 4 * (words + 7);
    for i in words..all {
        let t = temp_of(words, word_at(w, i - 1), i);
        let x = xor_word(word_at(w, i - words), t);
        put_word(w, i, x);
    }
}
