// The walker: reads a block and then a set to the end of the input, and holds one table of it. It prints the answer in hex, or the refusal.

#![tactic(auto)]

ghost use Rattle.std.specs.Prelude.{◌≡◌, ◌≤◌, length};
ghost use Rattle.evaluate.specs.Promises.{Opens};
ghost use Rattle.evaluate.specs.Held.{held};
ghost use Rattle.streams.specs.Lines.{line_room};
ghost use Rattle.streams.specs.Written.{Written};
ghost use Rattle.walker.specs.Tables.{table_room, Next, OverInput};
ghost use Rattle.walker.specs.Writes.{line_of, Runs};

use answers::Refusal;
use evaluate::walk::{Move, Opening, Walk, fetch, move_one, start};
use layout::cipher::FORWARD;
use layout::stage::{LOOKUPS, place_of};
use rounds::TEN;
use std::io::Read;
use streams::line::{ROOM, answer_line, cause_line};
use streams::stream::{receive, send};

// Room for the largest table.
const TABLE_ROOM: usize = 4096;

// The start over the bytes that were read as the block: "the programs stay with the forward one" (document 02, Ticket 1).
fn opened(block: &[u8]) -> Opening
    ensures { Opens 0 block.now result }
{
    start(FORWARD, block)
}

// Reads the table of the next lookup into the front of the lent memory, and makes the lookup over what was read.
fn over_next<R: Read>(input: &mut R, errors: &impl Eprint, walk: Walk, table: &mut [u8]) -> Move
    requires { length table.old ≡ table_room }
    ensures { Next 10 walk result table.new }
{
    let n = walk.count;
    let p = place_of(TEN, n);
    let size = p.size;
    let got = receive(input, errors, &mut table[..size]);
    move_one(walk, &table[..got])
}

// A walk over the input: the answer of the last move, and the walk that it reached, which the contract has of a refused
// one too (`OverInput`).
#[derive(Clone, Copy)]
struct Walked {
    answer: Result<(), Refusal>,
    walk: Walk,
}

// Makes the lookups over the tables as they are read, up to the last or to the first refusal.
fn over_input<R: Read>(input: &mut R, errors: &impl Eprint, walk: Walk, table: &mut [u8]) -> Walked
    requires { length table.old ≡ table_room }
    ensures { OverInput 10 (held walk) result.answer (held result.walk) }
{
    let mut w = walk;
    // The count is the walk's own.
    while w.count < LOOKUPS {
        let m = over_next(input, errors, w, table);
        let answer = m.answer;
        w = m.walk;
        let Ok(()) = answer else {
            return Walked { answer, walk: w };
        };
    }
    Walked {
        answer: Ok(()),
        walk: w,
    }
}

// What is written for a walk behind its last table, where `rest` bytes more were read. Its length.
fn line_of(walk: Walk, rest: usize, line: &mut [u8]) -> usize
    requires { line_room ≤ length line.old }
    ensures { Written (line_of 10 (held walk) rest) line.old result line.new }
{
    if rest > 0 {
        return cause_line(Refusal::SetLength, line);
    }
    let mut block = [0u8; 16];
    let answer = fetch(walk, &mut block);
    let Err(refusal) = answer else {
        return answer_line(&block, line);
    };
    cause_line(refusal, line)
}

// Reads, walks and tells what is to be written. One byte behind the last table tells a set that is too long.
fn run<R: Read>(input: &mut R, errors: &impl Eprint, line: &mut [u8]) -> usize
    requires { line_room ≤ length line.old }
    ensures { Runs 10 line.old result line.new }
{
    let mut block = [0u8; 16];
    let got = receive(input, errors, &mut block);
    let opening = opened(&block[..got]);
    let judged = opening.answer;
    let walk = opening.walk;
    if let Err(refusal) = judged {
        return cause_line(refusal, line);
    }
    let mut table = [0u8; TABLE_ROOM];
    let m = over_input(input, errors, walk, &mut table);
    let answer = m.answer;
    let w = m.walk;
    if let Err(refusal) = answer {
        return cause_line(refusal, line);
    }
    let mut more = [0u8; 1];
    let rest = receive(input, errors, &mut more);
    line_of(w, rest, line)
}

fn main(rt: HostRuntime) {
    let mut line = [0u8; ROOM];
    let n = run(&mut rt.stdin(), &rt, &mut line);
    send(&rt, &line[..n]);
}
