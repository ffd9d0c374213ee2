// The walk as one call, from a block to its answer: start, one move over a whole set to the last count, fetch.

#![tactic(auto)]

ghost use Rattle.std.specs.Prelude.{◌≡◌, length};
ghost use Rattle.rounds.specs.Rounds.{Rounds};
ghost use Rattle.one_call.specs.Walks.{walk_answer_for, walk_answer, walk_leaves};

use answers::Refusal;
use evaluate::walk::{fetch, move_to, start};
use layout::stage::LOOKUPS;
use rounds::TEN;

// The answer for these lengths.
fn judged(rounds: usize, set: usize, block: usize, answer: usize) -> Result<(), Refusal>
    requires { Rounds rounds }
    ensures { result ≡ walk_answer_for rounds set block answer }
{
    passes::judged(rounds, set, block)?;
    if answer != 16 {
        return Err(Refusal::BlockLength);
    }
    Ok(())
}

// From a block under the input coding to the answer under the output coding, over a whole set, by a walk for a cipher:
// 0 forward, any other number inverse.
pub fn walk(cipher: u64, set: &[u8], block: &[u8], answer: &mut [u8]) -> Result<(), Refusal>
    ensures answer { result ≡ walk_answer (length set.now) (length block.now) (length answer.old) }
    ensures block { answer.new ≡ walk_leaves cipher set.now block.now answer.old }
{
    judged(TEN, set.len(), block.len(), answer.len())?;
    let opening = start(cipher, block);
    let moved = move_to(opening.walk, set, LOOKUPS);
    let _ = fetch(moved.walk, answer);
    Ok(())
}
