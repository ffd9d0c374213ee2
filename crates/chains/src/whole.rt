// There and back, by either cipher: a set is made, a block coded and walked over it, and the output coding and the cipher are taken off again.
ghost use Rattle.chains.specs.Whole.{Presents, Walks, TakesOff, ThereAndBack};

use aes::{decipher, encipher};
use answers::Refusal;
use evaluate::walk::{fetch, move_to, start};
use external::coding::{decode_output, encode_input};
use layout::stage::LOOKUPS;
use tables::make::make_set;

// The set, and the block under the input coding.
fn present(
    cipher: u64,
    key: &[u8],
    bundle: &[u8],
    block: &[u8],
    set: &mut [u8],
    x: &mut [u8],
) -> Result<(), Refusal>
    ensures { Presents cipher key.now bundle.now block.now set.old
        x.old result set.new x.new }
{
    make_set(cipher, key, bundle, set)?;
    encode_input(bundle, block, x)
}

// The walk from the block x over the whole set, and its answer block.
fn walk_over(cipher: u64, set: &[u8], x: &[u8], answer: &mut [u8]) -> Result<(), Refusal>
    ensures { Walks cipher set.now x.now answer.old result answer.new }
{
    let opening = start(cipher, x);
    opening.answer?;
    let end = move_to(opening.walk, set, LOOKUPS);
    end.answer?;
    fetch(end.walk, answer)
}

// The output coding and then the cipher taken off: the inverse cipher is taken off by enciphering.
fn take_off(
    cipher: u64,
    key: &[u8],
    bundle: &[u8],
    coded: &[u8],
    again: &mut [u8],
) -> Result<(), Refusal>
    ensures { TakesOff cipher key.now bundle.now coded.now
        again.old result again.new }
{
    let mut t = [0u8; 16];
    decode_output(bundle, coded, &mut t)?;
    if cipher == 0 {
        decipher(key, &t, again)
    } else {
        encipher(key, &t, again)
    }
}

// All of it: the answer under the output coding, and the block again.
pub fn there_and_back(
    cipher: u64,
    key: &[u8],
    bundle: &[u8],
    block: &[u8],
    set: &mut [u8],
    coded: &mut [u8],
    again: &mut [u8],
) -> Result<(), Refusal>
    ensures { ThereAndBack cipher key.now bundle.now block.now
        set.old coded.old again.old result set.new coded.new again.new }
{
    let mut x = [0u8; 16];
    present(cipher, key, bundle, block, set, &mut x)?;
    walk_over(cipher, set, &x, coded)?;
    take_off(cipher, key, bundle, coded, again)
}
