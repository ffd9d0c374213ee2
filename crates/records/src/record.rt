// The record of a walk, written into lent memory, over any set of the right length, made or not; and the lengths, for
// both calls.
ghost use Rattle.std.specs.Prelude.{◌≡◌};
ghost use Rattle.rounds.specs.Rounds.{Rounds};
ghost use Rattle.records.specs.InPlace.{RecordAsked};
ghost use Rattle.records.specs.Record.{record_of};
ghost use Rattle.records.specs.Replay.{judge_record};
ghost use Rattle.records.specs.Promises.{Records};

use answers::Refusal;
use bits::block::load;
use layer_record::{ENTRY_BYTES, record_layer};
use layout::stage::{lookups_in, place_of, width_of};
use lookups::layer::lookups_of;
use rounds::TEN;

// The answer for these lengths.
pub(crate) fn judged(
    rounds: usize,
    set: usize,
    block: usize,
    recorded: usize,
) -> Result<(), Refusal>
    requires { Rounds rounds }
    ensures { result ≡ judge_record rounds set block recorded }
{
    let bytes = lookups_in(rounds) * ENTRY_BYTES;
    passes::judged(rounds, set, block)?;
    if recorded != bytes {
        return Err(Refusal::RecordLength);
    }
    Ok(())
}

// The record of the walk for a cipher from a block, a stage or half at a time, where the lengths are right.
fn write_all(rounds: usize, cipher: u64, set: &[u8], block: &[u8], recorded: &mut [u8])
    requires { RecordAsked rounds set.now block.now recorded.old }
    ensures { recorded.new ≡ record_of cipher rounds set.now block.now }
{
    let mut standing = load(block);
    let mut area = [0u8; 256];
    let all = lookups_in(rounds);
    let mut n = 0;
    // From stage to stage, not from lookup to lookup.
    while n < all {
        let p = place_of(rounds, n);
        let stage = p.stage;
        let offset = p.offset;
        let next = n + lookups_of(width_of(stage));
        let from = n * ENTRY_BYTES;
        let to = next * ENTRY_BYTES;
        record_layer(
            cipher,
            &mut standing,
            &mut area,
            set,
            offset,
            stage,
            &mut recorded[from..to],
        );
        n = next;
    }
}

// Writes the record of the walk for a cipher from a block into lent memory. A refused call leaves the memory as it was.
pub fn record_walk(
    cipher: u64,
    set: &[u8],
    block: &[u8],
    recorded: &mut [u8],
) -> Result<(), Refusal>
    ensures { Records cipher 10 set.now block.now recorded.old result recorded.new }
{
    write_record(TEN, cipher, set, block, recorded)
}

// The same, of so many rounds.
fn write_record(
    rounds: usize,
    cipher: u64,
    set: &[u8],
    block: &[u8],
    recorded: &mut [u8],
) -> Result<(), Refusal>
    requires { Rounds rounds }
    ensures { Records cipher rounds set.now block.now recorded.old result recorded.new }
{
    judged(rounds, set.len(), block.len(), recorded.len())?;
    write_all(rounds, cipher, set, block, recorded);
    Ok(())
}
