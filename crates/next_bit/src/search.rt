// The search for the next bit that a walk reads, over any set of the right length, made or not. Lookups read rising
// places, each in its own table, so no lookup before the stage or half whose tables hold the bit asked for reads a bit
// at or behind it: the walk moves there at once, and one pass from there on, which ends where the bit is found, needs no
// list of bits.
ghost use Rattle.std.specs.Prelude.{◌≡◌, ◌≤◌, length};
ghost use Rattle.layout.specs.Ciphers.{reads_of};
ghost use Rattle.layout.specs.Stages.{lookups, set_bytes, table_offset};
ghost use Rattle.rounds.specs.Rounds.{Rounds};
ghost use Rattle.sensitivity.specs.Reads.{entry_bits, bits_read};
ghost use Rattle.next_bit.specs.NextBit.{next_in};
ghost use Rattle.next_bit.specs.Promises.{Finds};

use answers::Refusal;
use evaluate::walk::{start, to_stop};
use layout::stage::{
    ENTRY_LOOKUPS, FIRST_HALF_START, HALF_BYTES, HALF_LOOKUPS, SPREADS, exit_first, exit_start,
    lookups_in,
};
use rounds::TEN;

// The bits of a byte, and of a half-byte.
const BYTE_BITS: usize = 8;

const NIBBLE_BITS: usize = 4;

// How many bits a lookup reads, where words have `width` bytes: those of a word, or of a half-byte.
fn bits_of(width: usize, index: usize) -> usize
    requires { width ≤ 16 }
    ensures { (result ≡ entry_bits width index) × (result ≤ 128) }
{
    if index < SPREADS {
        return BYTE_BITS * width;
    }
    NIBBLE_BITS
}

// The first lookup of the stage or half whose tables hold a byte of the set, of the exit for all bytes behind: its own
// table begins at the byte or before it.
fn first_lookup(rounds: usize, byte: usize) -> usize
    requires { Rounds rounds }
    ensures { (result ≤ lookups rounds) × (table_offset rounds result ≤ byte) }
{
    if byte < FIRST_HALF_START {
        return 0;
    }
    if byte < exit_start(rounds) {
        return ENTRY_LOOKUPS + HALF_LOOKUPS * ((byte - FIRST_HALF_START) / HALF_BYTES);
    }
    exit_first(rounds)
}

// The search, where the lengths are right.
fn search(rounds: usize, cipher: u64, set: &[u8], block: &[u8], from: usize) -> Option<usize>
    requires { (length set.now ≡ set_bytes rounds) × (length block.now ≡ 16) × Rounds rounds }
    ensures { result ≡ next_in (bits_read (reads_of cipher) rounds set.now block.now) from }
{
    let stop = first_lookup(rounds, from / BYTE_BITS);
    let opening = start(cipher, block);
    let moved = to_stop(rounds, opening.walk, set, stop);
    let walk = moved.walk;
    let mut standing = walk.standing;
    let mut area = walk.area;
    let all = lookups_in(rounds);
    for n in stop..all {
        let read = passes::look_up(rounds, cipher, &mut standing, &mut area, set, n);
        let first = BYTE_BITS * read.offset + NIBBLE_BITS * read.half;
        if from < first {
            return Some(first);
        }
        let end = first + bits_of(read.width, read.index);
        if from < end {
            return Some(from);
        }
    }
    None
}

// Finds the smallest bit of a set, at or after the bit `from`, that the walk for a cipher from a block reads, counted
// from the top bit of byte 0, or none where none is left; or says why the call is refused.
pub fn next_bit(
    cipher: u64,
    set: &[u8],
    block: &[u8],
    from: usize,
) -> Result<Option<usize>, Refusal>
    ensures { Finds cipher 10 set.now block.now from result }
{
    seek(TEN, cipher, set, block, from)
}

// The same, of so many rounds.
fn seek(
    rounds: usize,
    cipher: u64,
    set: &[u8],
    block: &[u8],
    from: usize,
) -> Result<Option<usize>, Refusal>
    requires { Rounds rounds }
    ensures { Finds cipher rounds set.now block.now from result }
{
    passes::judged(rounds, set.len(), block.len())?;
    Ok(search(rounds, cipher, set, block, from))
}
