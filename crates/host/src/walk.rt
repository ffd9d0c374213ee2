// The walk for C, and the record of one. A cipher is named first: 0 forward, any other number inverse.
ghost use Rattle.std.specs.Prelude.{◌≡◌, length};
ghost use Rattle.answers.specs.Numbers.{number_of};
ghost use Rattle.records.specs.Replay.{judge_record, record_left};
ghost use Rattle.one_call.specs.Walks.{walk_answer, walk_leaves};

use answers::number;
use records::record::record_walk;

// From a block under the input coding to the answer under the output coding, over a whole set, by a walk for a cipher.
#[unsafe(no_mangle)]
pub extern "C" fn tazhikko_walk(cipher: u64, set: &[u8], block: &[u8], answer: &mut [u8]) -> u64
    ensures answer { result ≡ number_of (walk_answer (length set.now) (length block.now)
        (length answer.old)) }
    ensures block { answer.new ≡ walk_leaves cipher set.now block.now answer.old }
{
    number(one_call::walk(cipher, set, block, answer))
}

// Writes the record of the walk for a cipher, over a whole set, from a block.
#[unsafe(no_mangle)]
pub extern "C" fn tazhikko_record(cipher: u64, set: &[u8], block: &[u8], recorded: &mut [u8]) -> u64
    ensures answer { result ≡ number_of (judge_record 10 (length set.now) (length block.now)
        (length recorded.old)) }
    ensures bytes { recorded.new ≡ record_left cipher 10 set.now block.now recorded.old }
{
    number(record_walk(cipher, set, block, recorded))
}
