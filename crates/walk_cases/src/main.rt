// Reads orders from standard input, and writes what the calls of a walk, and single lookups, hand back over memory that
// a formula fills or the input gives. An order is 8 bytes: its kind, a small number k and a number n of six bytes. The
// kinds: 0 a start and 1 a given walk, behind which stand 8 bytes of a cipher's number and the content; 2 and 3 a move
// to a stop, near or far; 4 a move of one lookup; 5 a fetch; 6 moves to every stop; 7 a lookup alone; 8 a memory, behind
// which stand its n bytes. The expected output is made by a program of other authorship (tests/walk_cases.py).

#![tactic(auto)]

ghost use Rattle.std.specs.Prelude.{◌<◌};

use answers::{Refusal, cause};
use evaluate::walk::{Move, Walk, fetch, move_one, move_to, start};
use layout::stage::{LOOKUPS, SET_BYTES, place_of};
use passes::{Lookup, look_up_at};
use rounds::TEN;
use std::io;
use streams::stream::receive;

// The memory, unless the input gives another: a linear congruence, its upper bits a byte each.
fn next(x: u64) -> u64 {
    (x % 2147483648 * 1103515245 + 12345) % 2147483648
}

fn byte_of(x: u64) -> u8 {
    (x / 65536 % 256) as u8
}

fn fill(set: &mut [u8]) {
    let mut x: u64 = 197;
    for b in set.iter_mut() {
        x = next(x);
        *b = byte_of(x);
    }
}

fn change(rt: &impl Print, i: usize, x: u8) -> io::Result<()> {
    print!(rt; " {i}:{}", usize::from(x))
}

// The places where two lists of bytes differ, with the new byte.
fn changes(rt: &impl Print, old: &[u8], new: &[u8]) -> io::Result<()> {
    for (i, (x, y)) in old.iter().zip(new).enumerate() {
        if x != y {
            change(rt, i, *y)?;
        }
    }
    Ok(())
}

// The beginning of a call's line: the cause, the cipher and the count.
fn report_head(rt: &impl Print, answer: Result<(), Refusal>, walk: Walk) -> io::Result<()> {
    print!(rt; "{} {} {}", cause(answer), walk.cipher, walk.count)
}

// Its end: all that the call changed in the walk.
fn report_changes(rt: &impl Print, old: Walk, new: Walk) -> io::Result<()> {
    let s = old.standing;
    let t = new.standing;
    changes(rt, &s, &t)?;
    print!(rt; " area")?;
    let a = old.area;
    let b = new.area;
    changes(rt, &a, &b)?;
    print!(rt; "\n")
}

// The line of a start or of a given walk.
fn report(rt: &impl Print, answer: Result<(), Refusal>, old: Walk, new: Walk) -> io::Result<()> {
    report_head(rt, answer, new)?;
    report_changes(rt, old, new)
}

// The line of a move, which has the offset too, behind the count. The walk that it hands back.
fn report_move(rt: &impl Print, old: Walk, m: Move) -> io::Result<Walk> {
    let answer = m.answer;
    let new = m.walk;
    report_head(rt, answer, new)?;
    print!(rt; " {}", m.offset)?;
    report_changes(rt, old, new)?;
    Ok(new)
}

// The next n bytes of the input.
fn take(rt: &(impl Input + Eprint), b: &mut [u8], n: usize) {
    if n <= b.len() {
        receive(&mut rt.reader(), rt, &mut b[0..n]);
    }
}

fn three(a: u8, b: u8, c: u8) -> usize
    ensures { result < 16777216 }
{
    (usize::from(a) * 256 + usize::from(b)) * 256 + usize::from(c)
}

fn four(a: u8, b: u8, c: u8, d: u8) -> usize
    ensures { result < 4294967296 }
{
    three(a, b, c) * 256 + usize::from(d)
}

// The number of a cipher, the next 8 bytes of the input: any number of 64 bits.
fn cipher_read(rt: &(impl Input + Eprint)) -> u64 {
    let mut b = [0u8; 8];
    receive(&mut rt.reader(), rt, &mut b);
    let high = four(b[0], b[1], b[2], b[3]);
    let low = four(b[4], b[5], b[6], b[7]);
    (high * 4294967296 + low) as u64
}

// Starts over the first k bytes.
fn start_over(
    rt: &impl Print,
    walk: Walk,
    cipher: u64,
    block: &[u8],
    k: usize,
) -> io::Result<Walk> {
    if block.len() < k {
        return Ok(walk);
    }
    let o = start(cipher, &block[0..k]);
    let answer = o.answer;
    let w = o.walk;
    report(rt, answer, walk, w)?;
    Ok(w)
}

// Starts for a cipher over a block of k bytes, the next of the input.
fn started(rt: &(impl Input + Print + Eprint), walk: Walk, k: usize) -> io::Result<Walk> {
    let cipher = cipher_read(rt);
    let mut block = [0u8; 256];
    take(rt, &mut block, k);
    start_over(rt, walk, cipher, &block, k)
}

// A walk of any content: the next bytes of the input.
fn given(rt: &(impl Input + Print + Eprint), walk: Walk, k: usize, n: usize) -> io::Result<Walk> {
    let cipher = cipher_read(rt);
    let mut standing = [0u8; 16];
    let mut area = [0u8; 256];
    let mut input = rt.reader();
    receive(&mut input, rt, &mut standing);
    receive(&mut input, rt, &mut area);
    let w = Walk {
        cipher,
        count: far(k, n),
        standing,
        area,
    };
    report(rt, Ok(()), walk, w)?;
    Ok(w)
}

// The number n, or for k = 1 one near 2^64.
fn far(k: usize, n: usize) -> usize {
    if k == 1 {
        return n % 281474976710656 * 65536 + 65535;
    }
    n
}

// A move over memory of a set's length and k - 2 more bytes.
fn long_move(rt: &impl Print, walk: Walk, mem: &[u8], k: usize, stop: usize) -> io::Result<Walk> {
    if 3 < k {
        return Ok(walk);
    }
    let n = SET_BYTES - 2 + k;
    if mem.len() < n {
        return Ok(walk);
    }
    report_move(rt, walk, move_to(walk, &mem[0..n], stop))
}

// A move of one lookup with a table of its length and k - 2 more bytes.
fn one(rt: &impl Print, walk: Walk, mem: &[u8], k: usize) -> io::Result<Walk> {
    let p = place_of(TEN, walk.count);
    let from = p.offset;
    if 3 < k {
        return Ok(walk);
    }
    if mem.len() < from {
        return Ok(walk);
    }
    if 4096 < p.size {
        return Ok(walk);
    }
    let n = p.size + k;
    if n < 2 {
        return Ok(walk);
    }
    if mem.len() - from < n - 2 {
        return Ok(walk);
    }
    let to = from + (n - 2);
    report_move(rt, walk, move_one(walk, &mem[from..to]))
}

// The line of a lookup alone: the offset and the half of the entry that it read.
fn report_place(rt: &impl Print, read: Lookup) -> io::Result<()> {
    println!(rt; "{} {}", read.offset, read.half)
}

// One lookup alone, over the table of the walk's count: a move passes on the offset only, and hides the half. Past the
// last lookup nothing is done.
fn looked_up(rt: &impl Print, walk: Walk, mem: &[u8]) -> io::Result<Walk> {
    let n = walk.count;
    if n >= LOOKUPS {
        return Ok(walk);
    }
    if mem.len() < SET_BYTES {
        return Ok(walk);
    }
    let p = place_of(TEN, n);
    let cipher = walk.cipher;
    let mut standing = walk.standing;
    let mut area = walk.area;
    let read = look_up_at(cipher, &mut standing, &mut area, mem, p);
    report_place(rt, read)?;
    let count = n + 1;
    Ok(Walk {
        cipher,
        count,
        standing,
        area,
    })
}

// Fetches into the first k bytes.
fn fetch_into(rt: &impl Print, walk: Walk, block: &mut [u8], k: usize) -> io::Result<()> {
    if block.len() < k {
        return Ok(());
    }
    let f = fetch(walk, &mut block[0..k]);
    print!(rt; "{}", cause(f))
}

// Fetches into k bytes, and writes all that changed in and behind them.
fn fetched(rt: &impl Print, walk: Walk, k: usize) -> io::Result<()> {
    let old = [90u8; 256];
    let mut block = [90u8; 256];
    fetch_into(rt, walk, &mut block, k)?;
    changes(rt, &old, &block)?;
    print!(rt; "\n")
}

// Stop by stop.
fn every(rt: &impl Print, walk: Walk, mem: &[u8]) -> io::Result<Walk> {
    let mut w = walk;
    for stop in 0..=LOOKUPS {
        w = long_move(rt, w, mem, 2, stop)?;
    }
    Ok(w)
}

fn order(
    rt: &(impl Input + Print + Eprint),
    walk: Walk,
    mem: &mut [u8],
    kind: u8,
    k: usize,
    n: usize,
) -> io::Result<Walk> {
    match kind {
        0 => started(rt, walk, k),
        1 => given(rt, walk, k, n),
        2 => long_move(rt, walk, mem, k, n),
        3 => long_move(rt, walk, mem, k, far(1, n)),
        4 => one(rt, walk, mem, k),
        5 => {
            fetched(rt, walk, k)?;
            Ok(walk)
        }
        6 => every(rt, walk, mem),
        7 => looked_up(rt, walk, mem),
        8 => {
            take(rt, mem, n);
            Ok(walk)
        }
        _ => Ok(walk),
    }
}

// More orders than any input has: so the loop ends, whatever is read.
const MOST_ORDERS: usize = 100000;

// Order after order, to the end of the input.
fn run(rt: &(impl Input + Print + Eprint), mem: &mut [u8]) -> io::Result<()> {
    let mut walk = Walk {
        cipher: 0,
        count: 0,
        standing: [0u8; 16],
        area: [0u8; 256],
    };
    let mut h = [0u8; 8];
    for _ in 0..MOST_ORDERS {
        if receive(&mut rt.reader(), rt, &mut h) != 8 {
            return Ok(());
        }
        let n = three(h[2], h[3], h[4]) * 16777216 + three(h[5], h[6], h[7]);
        walk = order(rt, walk, mem, h[0], usize::from(h[1]), n)?;
    }
    Ok(())
}

fn work(rt: &(impl Input + Print + Eprint), mem: &mut [u8; SET_BYTES + 1]) -> io::Result<()> {
    fill(mem);
    run(rt, mem)
}

fn main(rt: HostRuntime) -> io::Result<()> {
    let mut mem = [0u8; SET_BYTES + 1];
    work(&rt, &mut mem)
}
