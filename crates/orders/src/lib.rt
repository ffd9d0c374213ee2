// A list of calls as numbers: orders, served one after the other from a held walk over one lent memory.

#![tactic(auto)]

ghost use Rattle.std.specs.Prelude.{◌≡◌};
ghost use Rattle.calls.specs.Calls.{table_part};
ghost use Rattle.orders.specs.Orders.{OneServed, AllServed};

use answers::number;
use evaluate::walk::{Move, Walk, fetch, move_one, move_to};
use layout::stage::{NOWHERE, place_of};
use rounds::TEN;

// The orders that are no stop: a move of one lookup, and a fetch.
pub const ONE_LOOKUP: u64 = 18446744073709551615;

pub const FETCH: u64 = 18446744073709551614;

// The part of the memory where table n stands, as far as the memory goes.
fn table_part<'a>(set: &'a [u8], n: usize) -> &'a [u8]
    ensures { result.now ≡ table_part 10 set.now n }
{
    let p = place_of(TEN, n);
    let from = p.offset;
    let size = p.size;
    if set.len() <= from {
        return &set[0..0];
    }
    if set.len() - from <= size {
        return &set[from..];
    }
    let to = from + size;
    &set[from..to]
}

// One order: its answer, and the walk handed back or left. Orders are numbers of 64 bits from outside, any of which may
// be given.
fn serve_one(walk: Walk, set: &[u8], order: u64, block: &mut [u8]) -> Move
    ensures { OneServed 10 set.now order walk block.old result block.new }
{
    if order == ONE_LOOKUP {
        return move_one(walk, table_part(set, walk.count));
    }
    if order == FETCH {
        let answer = fetch(walk, block);
        return Move {
            answer,
            walk,
            offset: NOWHERE,
        };
    }
    move_to(walk, set, order as usize)
}

// All orders. In the place of each its answer's number is written, as the calls for C return it.
pub fn serve_orders(walk: Walk, set: &[u8], orders: &mut [u64], block: &mut [u8]) -> Walk
    ensures { AllServed 10 set.now walk orders.old block.old result
        orders.new block.new }
{
    let mut w = walk;
    for order in orders.iter_mut() {
        let m = serve_one(w, set, *order, block);
        w = m.walk;
        let answer = m.answer;
        *order = number(answer);
    }
    w
}
