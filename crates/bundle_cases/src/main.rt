// Reads orders from standard input, and writes what the bundle's calls answer. An order is 8 bytes: its kind, a small number k, and two
// numbers a and n of three bytes. The expected output is made by a program of other authorship (tests/bundle_cases.py).

#![tactic(auto)]

use answers::{Refusal, cause, second};
use bundle::parts;
use external::coding;
use judgement::judge;
use rounds::TEN;
use std::io;
use streams::stream::receive;
use view::part::Part;

// The cause and its second number; both are 0 where nothing is turned down.
fn say(rt: &impl Print, a: Result<(), Refusal>) -> io::Result<()> {
    println!(rt; "{} {}", cause(a), second(a))
}

fn show(rt: &impl Print, b: &[u8]) -> io::Result<()> {
    for x in b {
        print!(rt; "{x:02x}")?;
    }
    print!(rt; "\n")
}

// The next n bytes of the input go to place a.
fn patch(rt: &(impl Input + Eprint), mem: &mut [u8], a: usize, n: usize) {
    if a <= mem.len() {
        if n <= mem.len() - a {
            let e = a + n;
            receive(&mut rt.reader(), rt, &mut mem[a..e]);
        }
    }
}

fn say_judgement(rt: &impl Print, bundle: &[u8]) -> io::Result<()> {
    say(rt, judge::judge_bundle(TEN, bundle))
}

// What k and n name: encoding, byte matrix or column matrix n, or the input or output matrix; from 5 on, one of the first three with a
// number so large that 8 times it wraps.
fn named(k: u8, n: usize) -> Part {
    let far = n % 8 * 2305843009213693952;
    match k {
        0 => Part::Encoding(n),
        1 => Part::ByteMatrix(n),
        2 => Part::ColumnMatrix(n),
        3 => Part::InputMatrix,
        4 => Part::OutputMatrix,
        5 => Part::Encoding(far),
        6 => Part::ByteMatrix(far),
        _ => Part::ColumnMatrix(far),
    }
}

// The part that the bundle's call of its kind hands back.
fn show_part(rt: &impl Print, bundle: &[u8], p: Part) -> io::Result<()> {
    match p {
        Part::Encoding(n) => show(rt, parts::encoding_part(TEN, bundle, n)),
        Part::ByteMatrix(n) => show(rt, parts::byte_matrix_part(TEN, bundle, n)),
        Part::ColumnMatrix(n) => show(rt, parts::column_matrix_part(TEN, bundle, n)),
        Part::InputMatrix => show(rt, parts::input_matrix_part(TEN, bundle)),
        Part::OutputMatrix => show(rt, parts::output_matrix_part(TEN, bundle)),
    }
}

fn called(bundle: &[u8], k: u8, block: &[u8], out: &mut [u8]) -> Result<(), Refusal> {
    match k {
        0 => coding::encode_input(bundle, block, out),
        1 => coding::decode_input(bundle, block, out),
        2 => coding::encode_output(bundle, block, out),
        _ => coding::decode_output(bundle, block, out),
    }
}

fn show_first(rt: &impl Print, b: &[u8], n: usize) -> io::Result<()> {
    if n <= b.len() {
        show(rt, &b[0..n])?;
    }
    Ok(())
}

// The call of number k, on the first bytes of both blocks.
fn answer_call(
    rt: &impl Print,
    bundle: &[u8],
    k: u8,
    block: &[u8],
    from: usize,
    out: &mut [u8],
    to: usize,
) -> io::Result<()> {
    if block.len() < from {
        return Ok(());
    }
    if out.len() < to {
        return Ok(());
    }
    say(rt, called(bundle, k, &block[0..from], &mut out[0..to]))?;
    show_first(rt, out, to)
}

// A block of n / 256 bytes, the next of the input, is coded or uncoded into one of n % 256 bytes.
fn code(rt: &(impl Input + Print + Eprint), bundle: &[u8], k: u8, n: usize) -> io::Result<()> {
    let from = n / 256 % 256;
    let to = n % 256;
    let mut block = [0u8; 256];
    let mut out = [90u8; 256];
    patch(rt, &mut block, 0, from);
    answer_call(rt, bundle, k, &block, from, &mut out, to)
}

fn order(
    rt: &(impl Input + Print + Eprint),
    mem: &mut [u8],
    kind: u8,
    k: u8,
    a: usize,
    n: usize,
) -> io::Result<()> {
    if kind == 0 {
        patch(rt, mem, a, n);
        return Ok(());
    }
    if mem.len() < a {
        return Ok(());
    }
    match kind {
        1 => say_judgement(rt, &mem[0..a]),
        2 => show_part(rt, &mem[0..a], named(k, n)),
        3 => show(rt, view::served(&mem[0..a], named(k, n))),
        _ => code(rt, &mem[0..a], k, n),
    }
}

fn three(a: u8, b: u8, c: u8) -> usize {
    (usize::from(a) * 256 + usize::from(b)) * 256 + usize::from(c)
}

// One order; false at the end of the input.
fn step(rt: &(impl Input + Print + Eprint), mem: &mut [u8]) -> io::Result<bool> {
    let mut h = [0u8; 8];
    if receive(&mut rt.reader(), rt, &mut h) != 8 {
        return Ok(false);
    }
    order(
        rt,
        mem,
        h[0],
        h[1],
        three(h[2], h[3], h[4]),
        three(h[5], h[6], h[7]),
    )?;
    Ok(true)
}

// More orders than any input has: so the loop ends, whatever is read.
const MOST_ORDERS: usize = 10000;

// Order after order.
fn run(rt: &(impl Input + Print + Eprint), mem: &mut [u8]) -> io::Result<()> {
    for _ in 0..MOST_ORDERS {
        if !step(rt, mem)? {
            return Ok(());
        }
    }
    Ok(())
}

fn main(rt: HostRuntime) -> io::Result<()> {
    let mut mem = [0u8; 65537];
    run(&rt, &mut mem)
}
