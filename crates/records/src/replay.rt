// The replay of a record, over any set of the right length, made or not.
ghost use Rattle.std.specs.Prelude.{◌≡◌, length};
ghost use Rattle.answers.specs.Search.{first};
ghost use Rattle.layout.specs.Ciphers.{reads_of};
ghost use Rattle.layout.specs.Stages.{lookups, shape_at};
ghost use Rattle.rounds.specs.Rounds.{Rounds};
ghost use Rattle.records.specs.InPlace.{RecordAsked, CompareAsked, LayerCompared};
ghost use Rattle.records.specs.Replay.{differs_at};
ghost use Rattle.records.specs.Promises.{Replays};

use crate::compare::first_other;
use crate::record::judged;
use answers::Refusal;
use bits::block::load;
use layer_record::{ENTRY_BYTES, record_layer};
use layout::stage::{ENTRY_LOOKUPS, Stage, lookups_in, place_of, width_of};
use lookups::layer::lookups_of;
use rounds::TEN;

// The bytes that are recorded of a stage or half, at most: those of the entry.
const STAGE_BYTES: usize = ENTRY_LOOKUPS * ENTRY_BYTES;

// Makes the lookups of a stage or half, with what is recorded of them in lent memory, and says which is the first of
// which the record has other bytes.
fn compare_layer(
    cipher: u64,
    standing: &mut [u8; 16],
    area: &mut [u8; 256],
    set: &[u8],
    from: usize,
    stage: Stage,
    recorded: &[u8],
    own: &mut [u8],
    all: usize,
) -> Option<usize>
    requires { CompareAsked stage from (length set.now) all recorded.now own.old }
    ensures { LayerCompared (shape_at (reads_of cipher) stage) set.now from
        standing.old area.old standing.new area.new
        recorded.now own.new all result }
{
    record_layer(cipher, standing, area, set, from, stage, own);
    first_other(recorded, own, all)
}

// Compares a record with the walk, a stage or half at a time, up to the first lookup that differs, if any, where the
// lengths are right.
fn compare_all(
    rounds: usize,
    cipher: u64,
    set: &[u8],
    block: &[u8],
    recorded: &[u8],
) -> Option<usize>
    requires { RecordAsked rounds set.now block.now recorded.now }
    ensures { result ≡ first (lookups rounds) (differs_at cipher rounds set.now block.now recorded.now) }
{
    let mut standing = load(block);
    let mut area = [0u8; 256];
    let mut own = [0u8; STAGE_BYTES];
    let all = lookups_in(rounds);
    let mut n = 0;
    // From stage to stage, not from lookup to lookup.
    while n < all {
        let p = place_of(rounds, n);
        let stage = p.stage;
        let offset = p.offset;
        let count = lookups_of(width_of(stage));
        let next = n + count;
        let size = count * ENTRY_BYTES;
        let from = n * ENTRY_BYTES;
        let to = next * ENTRY_BYTES;
        let other = compare_layer(
            cipher,
            &mut standing,
            &mut area,
            set,
            offset,
            stage,
            &recorded[from..to],
            &mut own[0..size],
            count,
        );
        if let Some(k) = other {
            return Some(n + k);
        }
        n = next;
    }
    None
}

// Says whether a record is the own one of the walk for a cipher from a block, which is none, and if not which lookup is
// the first that differs, of which it has other bytes; or why the call is refused.
pub fn replay(
    cipher: u64,
    set: &[u8],
    block: &[u8],
    recorded: &[u8],
) -> Result<Option<usize>, Refusal>
    ensures { Replays cipher 10 set.now block.now recorded.now result }
{
    replay_record(TEN, cipher, set, block, recorded)
}

// The same, of so many rounds.
fn replay_record(
    rounds: usize,
    cipher: u64,
    set: &[u8],
    block: &[u8],
    recorded: &[u8],
) -> Result<Option<usize>, Refusal>
    requires { Rounds rounds }
    ensures { Replays cipher rounds set.now block.now recorded.now result }
{
    judged(rounds, set.len(), block.len(), recorded.len())?;
    Ok(compare_all(rounds, cipher, set, block, recorded))
}
