// The maker's calls on slices of any length, for a cipher: "0 forward, any other number inverse" (document 02, Ticket
// 1).
ghost use Rattle.std.specs.Prelude.{◌≡◌, length};
ghost use Rattle.rounds.specs.Rounds.{Rounds};
ghost use Rattle.round.specs.Key.{rounds_of};
ghost use Rattle.tables.specs.Calls.{judged_for, set_answer, table_answer, set_left, table_left};

use answers::Refusal;
use judgement::judge;
use keyed_tables::given::Given;
use keyed_tables::single::fill_table;
use keyed_tables::whole::fill_set;
use layout::stage;
use round::key::{FOUR, MORE_ROUNDS};
use rounds::TEN;

// Causes 1 to 7, for a key of so many words.
fn judged(words: usize, key: &[u8], bundle: &[u8]) -> Result<(), Refusal>
    requires { Rounds (rounds_of words) }
    ensures { result ≡ judged_for words (length key.now) bundle.now }
{
    if key.len() != 4 * words {
        return Err(Refusal::KeyLength);
    }
    judge::judge_bundle(words + MORE_ROUNDS, bundle)
}

// The whole set, into the lent memory.
pub fn make_set(cipher: u64, key: &[u8], bundle: &[u8], memory: &mut [u8]) -> Result<(), Refusal>
    ensures answer { result ≡ set_answer (length key.now) bundle.now (length memory.old) }
    ensures bytes { memory.new ≡ set_left cipher 4 key.now bundle.now memory.old }
{
    judged(FOUR, key, bundle)?;
    if memory.len() != stage::SET_BYTES {
        return Err(Refusal::SetLength);
    }
    fill_set(&Given::new(cipher, FOUR, key, bundle), memory);
    Ok(())
}

// One table, into the lent memory.
pub fn make_table(
    cipher: u64,
    key: &[u8],
    bundle: &[u8],
    number: usize,
    memory: &mut [u8],
) -> Result<(), Refusal>
    ensures answer { result ≡ table_answer (length key.now) bundle.now number (length memory.old) }
    ensures bytes { memory.new ≡ table_left cipher 4 key.now bundle.now number
        memory.old }
{
    judged(FOUR, key, bundle)?;
    if stage::LOOKUPS <= number {
        return Err(Refusal::TableNumber);
    }
    let place = stage::place_of(TEN, number);
    let size = place.size;
    if memory.len() != size {
        return Err(Refusal::SetLength);
    }
    let s = place.stage;
    let j = place.index;
    fill_table(&Given::new(cipher, FOUR, key, bundle), s, j, memory);
    Ok(())
}
