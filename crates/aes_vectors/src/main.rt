// The crate aes on vectors: for each key and block of standard input it writes the key expansion, the enciphered block
// and the deciphered block. First come keys of 24 and of 32 bytes in turn, and then keys of 16, until the input ends;
// then what both calls answer to keys and blocks of wrong lengths, and what they leave.

#![tactic(auto)]

ghost use Rattle.std.specs.Prelude.{◌≡◌, ◌+◌, ◌*◌, ◌≤◌, length};
ghost use Rattle.rounds.specs.Rounds.{Rounds};
ghost use Rattle.round.specs.Key.{rounds_of};

use answers::Refusal;
use std::io;
use streams::stream::receive;

// How many keys of 24 bytes, and of 32, the input begins with.
const LONGER: usize = 54;

// The digit of a number below 16.
fn digit(n: u8) -> u8 {
    let d = n % 16;
    if d < 10 { d + 48 } else { d + 87 }
}

// Writes up to 240 bytes in hex, and a newline: the round keys of 14 rounds have the most.
fn show(rt: &impl Print, bytes: &[u8]) -> io::Result<()>
    requires { length bytes.now ≤ 240 }
{
    let mut line = [10u8; 481];
    for (i, x) in bytes.iter().enumerate() {
        line[2 * i] = digit(*x / 16);
        line[2 * i + 1] = digit(*x);
    }
    rt.write_all(&line[..2 * bytes.len() + 1])
}

// Writes an answer: done, or the cause and the number that is returned with it.
fn tell(rt: &impl Print, a: Result<(), Refusal>) -> io::Result<()> {
    if let Ok(()) = a {
        return print!(rt; "done\n");
    }
    println!(rt; "refused {} {}", answers::cause(a), answers::second(a))
}

// The lines of one record with a key of so many words, which is lent room for its round keys.
fn with_words(
    rt: &impl Print,
    words: usize,
    key: &[u8],
    w: &mut [u8],
    block: [u8; 16],
) -> io::Result<()>
    requires { (length key.now ≡ 4 * words) × (length w.old ≡ 16 * (rounds_of words + 1)) × Rounds (rounds_of words) }
{
    round::key::expand(words, key, w);
    show(rt, w)?;
    let enciphered = aes::turns::cipher(words + 6, w, block);
    show(rt, &enciphered)?;
    let deciphered = aes::turns::inv_cipher(words + 6, w, block);
    show(rt, &deciphered)
}

// Reads and shows a record with a key of so many words, of `KEY` bytes, whose round keys have `ROUND_KEYS` bytes.
fn longer_key<const WORDS: usize, const KEY: usize, const ROUND_KEYS: usize>(
    rt: &(impl Input + Print + Eprint),
) -> io::Result<()>
    requires { (KEY ≡ 4 * WORDS) × (ROUND_KEYS ≡ 16 * (rounds_of WORDS + 1)) × Rounds (rounds_of WORDS) }
{
    let mut key = [0u8; KEY];
    let mut block = [0u8; 16];
    let mut input = rt.reader();
    receive(&mut input, rt, &mut key);
    receive(&mut input, rt, &mut block);
    let mut w = [0u8; ROUND_KEYS];
    with_words(rt, WORDS, &key, &mut w, block)
}

// The records with the longer keys, of six and of eight words.
fn longer_keys(rt: &(impl Input + Print + Eprint)) -> io::Result<()> {
    for _ in 0..LONGER {
        longer_key::<6, 24, 208>(rt)?;
        longer_key::<8, 32, 240>(rt)?;
    }
    Ok(())
}

// The lines of one record with a key of four words, by the calls.
fn vector(rt: &impl Print, key: [u8; 16], block: [u8; 16]) -> io::Result<()> {
    let mut w = [0u8; 176];
    round::key::expand(4, &key, &mut w);
    show(rt, &w)?;
    let mut enciphered = [0u8; 16];
    let _ = aes::encipher(&key, &block, &mut enciphered);
    show(rt, &enciphered)?;
    let mut deciphered = [0u8; 16];
    let _ = aes::decipher(&key, &block, &mut deciphered);
    show(rt, &deciphered)
}

// Both calls on the same key and block, each with a block of its own to write: the answer, and what is left in that
// block.
fn both(
    rt: &impl Print,
    key: &[u8],
    block: &[u8],
    enciphered: &mut [u8],
    deciphered: &mut [u8],
) -> io::Result<()>
    requires { (length enciphered.old ≤ 32) × (length deciphered.old ≤ 32) }
{
    tell(rt, aes::encipher(key, block, enciphered))?;
    show(rt, enciphered)?;
    tell(rt, aes::decipher(key, block, deciphered))?;
    show(rt, deciphered)
}

// Both calls on a key and blocks of these lengths.
fn attempt(rt: &impl Print, key_len: usize, in_len: usize, out_len: usize) -> io::Result<()>
    requires { (key_len ≤ 32) × (in_len ≤ 32) × (out_len ≤ 32) }
{
    let key = [1u8; 32];
    let block = [2u8; 32];
    let mut enciphered = [3u8; 32];
    let mut deciphered = [4u8; 32];
    both(
        rt,
        &key[..key_len],
        &block[..in_len],
        &mut enciphered[..out_len],
        &mut deciphered[..out_len],
    )
}

// Lengths that are refused, one at a time and several at once.
fn attempts(rt: &impl Print) -> io::Result<()> {
    attempt(rt, 0, 16, 16)?;
    attempt(rt, 15, 16, 16)?;
    attempt(rt, 17, 16, 16)?;
    attempt(rt, 24, 16, 16)?;
    attempt(rt, 32, 16, 16)?;
    attempt(rt, 16, 0, 16)?;
    attempt(rt, 16, 15, 16)?;
    attempt(rt, 16, 17, 16)?;
    attempt(rt, 16, 16, 0)?;
    attempt(rt, 16, 16, 15)?;
    attempt(rt, 16, 16, 17)?;
    attempt(rt, 16, 15, 17)?;
    attempt(rt, 15, 15, 16)?;
    attempt(rt, 17, 16, 0)?;
    attempt(rt, 0, 0, 0)?;
    attempt(rt, 16, 16, 16)
}

// More keys of 16 bytes than any input has: so the loop ends, whatever is read.
const MOST_RECORDS: usize = 1024;

fn main(rt: HostRuntime) -> io::Result<()> {
    longer_keys(&rt)?;
    for _ in 0..MOST_RECORDS {
        let mut key = [0u8; 16];
        let mut block = [0u8; 16];
        if receive(&mut rt.stdin(), &rt, &mut key) < 16 {
            break;
        }
        if receive(&mut rt.stdin(), &rt, &mut block) < 16 {
            break;
        }
        vector(&rt, key, block)?;
    }
    attempts(&rt)
}
