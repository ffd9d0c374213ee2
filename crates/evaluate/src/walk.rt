// The held walk and its calls, over any walk, any lent memory and any number.
ghost use Rattle.std.specs.Prelude.{◌≡◌};
ghost use Rattle.network.specs.Lookups.{state_at, zero_area};
ghost use Rattle.rounds.specs.Rounds.{Rounds};
ghost use Rattle.calls.specs.Calls as calls;
ghost use Rattle.evaluate.specs.Held.{held};
ghost use Rattle.evaluate.specs.Promises.{Opens, Refuses, Moves, Fetches};

use answers::Refusal;
use bits::block::{load, store};
use layout::cipher::kept;
use layout::stage::{lookups_in, place_of, set_bytes, tables_bytes};
use lookups::layer::lookup_in;
use moves::advance;
use rounds::TEN;

// "A held walk is a count, 16 standing bytes and a spread area of 256 bytes, all by value." It keeps the cipher that it
// was started for, "as 0 or 1 (any other number there acts as 1, which an accepted move hands back)" (document 02,
// Ticket 1).
#[derive(Clone, Copy)]
pub struct Walk {
    pub cipher: u64,
    pub count: usize,
    pub standing: [u8; 16],
    pub area: [u8; 256],
}

// What a start hands back: a struct and no `Result`, since a refused one hands back a walk too (`Opens`).
#[derive(Clone, Copy)]
pub struct Opening {
    pub answer: Result<(), Refusal>,
    pub walk: Walk,
}

// What a move hands back: its answer, the walk, and the byte offset within the set of the entry that its last lookup
// read, behind all tables if it made none (document 02, Ticket 2). A struct and no `Result`, since a refused move hands
// back the walk as it was given (`Refuses`).
#[derive(Clone, Copy)]
pub struct Move {
    pub answer: Result<(), Refusal>,
    pub walk: Walk,
    pub offset: usize,
}

// The walk that a start makes for a cipher: what it keeps beside its state is made here.
fn begun(cipher: u64, standing: [u8; 16]) -> Walk
    ensures { held result ≡ calls.holding (calls.marked cipher) (state_at 0 standing zero_area) }
{
    let number = kept(cipher);
    Walk {
        cipher: number,
        count: 0,
        standing,
        area: [0u8; 256],
    }
}

// What an accepted move makes of a walk, with the state that it reached: what the walk keeps is handed on here.
fn changed(walk: Walk, count: usize, standing: [u8; 16], area: [u8; 256]) -> Walk
    ensures { held result ≡ calls.holding (calls.kept_mark (held walk).mark) (state_at count standing area) }
{
    let handed = kept(walk.cipher);
    Walk {
        cipher: handed,
        count,
        standing,
        area,
    }
}

// A refused move hands the walk back as it was given, and has made no lookup.
fn refused(rounds: usize, walk: Walk, refusal: Refusal) -> Move
    requires { Rounds rounds }
    ensures { Refuses rounds refusal walk result }
{
    let nowhere = tables_bytes(rounds);
    Move {
        answer: Err(refusal),
        walk,
        offset: nowhere,
    }
}

// A walk for a cipher that has the block as its standing bytes. "A refused start hands back a walk of zeros only."
pub fn start(cipher: u64, block: &[u8]) -> Opening
    ensures { Opens cipher block.now result }
{
    if block.len() != 16 {
        return Opening {
            answer: Err(Refusal::BlockLength),
            walk: begun(0, [0u8; 16]),
        };
    }
    Opening {
        answer: Ok(()),
        walk: begun(cipher, load(block)),
    }
}

// A move to a stop.
pub fn move_to(walk: Walk, set: &[u8], stop: usize) -> Move
    ensures { Moves 10 (calls.to_stop set.now stop) walk result }
{
    to_stop(TEN, walk, set, stop)
}

// The same, of so many rounds.
pub fn to_stop(rounds: usize, walk: Walk, set: &[u8], stop: usize) -> Move
    requires { Rounds rounds }
    ensures { Moves rounds (calls.to_stop set.now stop) walk result }
{
    if set.len() != set_bytes(rounds) {
        return refused(rounds, walk, Refusal::SetLength);
    }
    if stop > lookups_in(rounds) {
        return refused(rounds, walk, Refusal::Stop);
    }
    if stop < walk.count {
        return refused(rounds, walk, Refusal::Stop);
    }
    let cipher = walk.cipher;
    let count = walk.count;
    let mut standing = walk.standing;
    let mut area = walk.area;
    let offset = advance(rounds, cipher, &mut standing, &mut area, set, count, stop);
    Move {
        answer: Ok(()),
        walk: changed(walk, stop, standing, area),
        offset,
    }
}

// A move of one lookup, with only that table lent.
pub fn move_one(walk: Walk, table: &[u8]) -> Move
    ensures { Moves 10 (calls.one_lookup table.now) walk result }
{
    one_lookup(TEN, walk, table)
}

// The same, of so many rounds.
fn one_lookup(rounds: usize, walk: Walk, table: &[u8]) -> Move
    requires { Rounds rounds }
    ensures { Moves rounds (calls.one_lookup table.now) walk result }
{
    let n = walk.count;
    if n >= lookups_in(rounds) {
        return refused(rounds, walk, Refusal::Stop);
    }
    let p = place_of(rounds, n);
    if table.len() != p.size {
        return refused(rounds, walk, Refusal::SetLength);
    }
    let cipher = walk.cipher;
    let mut standing = walk.standing;
    let mut area = walk.area;
    let stage = p.stage;
    let index = p.index;
    let from = p.offset;
    let read = lookup_in(cipher, &mut standing, &mut area, table, from, stage, index);
    Move {
        answer: Ok(()),
        walk: changed(walk, n + 1, standing, area),
        offset: read.offset,
    }
}

// The answer: the standing bytes, once all lookups are made.
pub fn fetch(walk: Walk, block: &mut [u8]) -> Result<(), Refusal>
    ensures { Fetches 10 block.old walk result block.new }
{
    answer_of(TEN, walk, block)
}

// The same, of so many rounds.
fn answer_of(rounds: usize, walk: Walk, block: &mut [u8]) -> Result<(), Refusal>
    requires { Rounds rounds }
    ensures { Fetches rounds block.old walk result block.new }
{
    if block.len() != 16 {
        return Err(Refusal::BlockLength);
    }
    let all = lookups_in(rounds);
    if walk.count != all {
        return Err(Refusal::Unfinished);
    }
    let standing = walk.standing;
    store(block, standing);
    Ok(())
}
