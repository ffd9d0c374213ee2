// The lookups of a move to a stop over a whole set, in place: all those of a stage or half at once where that can be.

#![tactic(auto)]

ghost use Rattle.std.specs.Prelude.{◌<◌};
ghost use Rattle.layout.specs.Ciphers.{reads_of};
ghost use Rattle.moves.specs.Advanced.{MoveAsked, Advanced, PartMade};

use layer_lookups::layer_in;
use layout::stage::{place_of, tables_bytes, width_of};
use lookups::layer::lookups_of;
use passes::look_up_at;

// What a part of a move reached: a count, and the offset of the last lookup up to it.
#[derive(Clone, Copy)]
struct Reached {
    count: usize,
    offset: usize,
}

// At count n, all lookups of a stage or half where it begins here and ends by the stop, else one.
fn step(
    rounds: usize,
    cipher: u64,
    standing: &mut [u8; 16],
    area: &mut [u8; 256],
    set: &[u8],
    n: usize,
    stop: usize,
) -> Reached
    requires { MoveAsked rounds set.now n stop × (n < stop) }
    ensures { PartMade (reads_of cipher) rounds set.now n stop result.count result.offset
        standing.old area.old standing.new area.new }
{
    let p = place_of(rounds, n);
    let from = p.offset;
    let stage = p.stage;
    let index = p.index;
    let all = lookups_of(width_of(stage));
    if index == 0 {
        if all <= stop - n {
            let last = layer_in(cipher, standing, area, set, from, stage);
            let end = n + all;
            return Reached {
                count: end,
                offset: last.offset,
            };
        }
    }
    let read = look_up_at(cipher, standing, area, set, p);
    let next = n + 1;
    Reached {
        count: next,
        offset: read.offset,
    }
}

// The lookups from a count up to the stop. Hands back the offset of the last, behind all tables if there is none.
pub fn advance(
    rounds: usize,
    cipher: u64,
    standing: &mut [u8; 16],
    area: &mut [u8; 256],
    set: &[u8],
    count: usize,
    stop: usize,
) -> usize
    requires { MoveAsked rounds set.now count stop }
    ensures { Advanced (reads_of cipher) rounds set.now count stop result
        standing.old area.old standing.new area.new }
{
    let mut n = count;
    let mut offset = tables_bytes(rounds);
    // Each step says how far it reached.
    while n < stop {
        let r = step(rounds, cipher, standing, area, set, n, stop);
        n = r.count;
        offset = r.offset;
    }
    offset
}
