// One lookup over a whole set, by its place or by its number, for calls that walk over one; and the lengths that calls
// ask for which look at each lookup.

#![tactic(auto)]

ghost use Rattle.std.specs.Prelude.{◌≡◌, length};
ghost use Rattle.layout.specs.Ciphers.{reads_of};
ghost use Rattle.rounds.specs.Rounds.{Rounds};
ghost use Rattle.calls.specs.Calls.{judge_whole};
ghost use Rattle.passes.specs.InPlace.{StandsIn, MadeAt, LookupAsked, LookupMade};

use answers::Refusal;
use layout::stage::{Place, place_of, set_bytes, width_of};
use lookups::layer;

// What is told of a lookup: the place of the set that it read, as an `EntryPlace` has it, its number in its stage or
// half, and the bytes of a word there.
#[derive(Clone, Copy)]
pub struct Lookup {
    pub offset: usize,
    pub index: usize,
    pub half: usize,
    pub width: usize,
}

// The answer for a whole set and a block of these lengths.
pub fn judged(rounds: usize, set: usize, block: usize) -> Result<(), Refusal>
    requires { Rounds rounds }
    ensures { result ≡ judge_whole rounds set block }
{
    let bytes = set_bytes(rounds);
    if set != bytes {
        return Err(Refusal::SetLength);
    }
    if block != 16 {
        return Err(Refusal::BlockLength);
    }
    Ok(())
}

// The lookup at a place that is found already, of a walk for a cipher, over its table in the set.
pub fn look_up_at(
    cipher: u64,
    standing: &mut [u8; 16],
    area: &mut [u8; 256],
    set: &[u8],
    place: Place,
) -> Lookup
    requires { StandsIn place (length set.now) }
    ensures { MadeAt (reads_of cipher) set.now place
        standing.old area.old result standing.new area.new }
{
    let from = place.offset;
    let stage = place.stage;
    let index = place.index;
    let to = from + place.size;
    let read = layer::lookup_in(cipher, standing, area, &set[from..to], from, stage, index);
    Lookup {
        offset: read.offset,
        index,
        half: read.half,
        width: width_of(stage),
    }
}

// Lookup n of a walk for a cipher, in place.
pub fn look_up(
    rounds: usize,
    cipher: u64,
    standing: &mut [u8; 16],
    area: &mut [u8; 256],
    set: &[u8],
    n: usize,
) -> Lookup
    requires { LookupAsked rounds set.now n }
    ensures { LookupMade (reads_of cipher) rounds set.now n
        standing.old area.old result standing.new area.new }
{
    look_up_at(cipher, standing, area, set, place_of(rounds, n))
}
