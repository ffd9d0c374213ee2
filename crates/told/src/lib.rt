// Results that are more than an answer, told to C: the answer's number is returned, and what else there is to say is
// put behind a pointer, which a refused call leaves as it was.

#![tactic(auto)]

ghost use Rattle.std.specs.Prelude.{◌≡◌, length};
ghost use Rattle.answers.specs.Answer.{answer_in};
ghost use Rattle.answers.specs.Numbers.{number_of};
ghost use Rattle.calls.specs.Calls.{judge_whole};
ghost use Rattle.catalogue.specs.Catalogue.{catalogue_entry, entry_answer};
ghost use Rattle.records.specs.Replay.{judge_record, replayed};
ghost use Rattle.next_bit.specs.NextBit.{next_bit_of};
ghost use Rattle.told.specs.Told.{told_left, differs_left};
ghost use Rattle.told.specs.Bits.{bit_left};
ghost use Rattle.told.specs.Entries.{matrix_left};

use answers::{Refusal, number};
use catalogue::entry_at;
use next_bit::search::next_bit;
use records::replay::replay;

// What stands for none, of lookups or of bits, behind a pointer of C: the largest number of 64 bits.
const NONE: usize = 18446744073709551615;

// What a call found is left behind a pointer, `NONE` where it found nothing; the answer's number is returned.
fn tell(told: Result<Option<usize>, Refusal>, place: &mut usize) -> u64
    ensures answer { result ≡ number_of (answer_in told) }
    ensures left { place.new ≡ told_left told place.old }
{
    match told {
        Ok(found) => {
            *place = found.unwrap_or(NONE);
            number(Ok(()))
        }
        Err(refusal) => number(Err(refusal)),
    }
}

// Of a replay: `differs` gets the first lookup that differs, `NONE` where the record is the walk's own.
pub fn tell_verdict(
    cipher: u64,
    set: &[u8],
    block: &[u8],
    recorded: &[u8],
    differs: &mut usize,
) -> u64
    ensures answer { result ≡ number_of (judge_record 10 (length set.now) (length block.now)
        (length recorded.now)) }
    ensures lookup { differs.new ≡ differs_left
        (replayed cipher 10 set.now block.now recorded.now) differs.old }
{
    tell(replay(cipher, set, block, recorded), differs)
}

// Of the search for a bit that the walk reads: `bit` gets the smallest at or after `from`, `NONE` where none is left.
pub fn tell_bit(cipher: u64, set: &[u8], block: &[u8], from: usize, bit: &mut usize) -> u64
    ensures answer { result ≡ number_of (judge_whole 10 (length set.now) (length block.now)) }
    ensures bit { bit.new ≡ bit_left (next_bit_of cipher 10 set.now block.now from) bit.old }
{
    tell(next_bit(cipher, set, block, from), bit)
}

// Of the catalogue's entry at a position: `matrix` gets the number that its rows make.
pub fn tell_entry(position: usize, matrix: &mut usize) -> u64
    ensures answer { result ≡ number_of (entry_answer (catalogue_entry position)) }
    ensures matrix { matrix.new ≡ matrix_left (catalogue_entry position) matrix.old }
{
    match entry_at(position) {
        Ok(v) => {
            *matrix = usize::from(v);
            number(Ok(()))
        }
        Err(r) => number(Err(r)),
    }
}
