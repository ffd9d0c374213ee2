// The maker: reads a key and then a bundle to the end of the input, and writes the tables of their set in order, or the refusal.

#![tactic(auto)]

ghost use Rattle.std.specs.Prelude.{◌≡◌, length};
ghost use Rattle.layout.specs.Stages.{ten_set_bytes};
ghost use Rattle.streams.specs.Written.{Written};
ghost use Rattle.maker.specs.Writes.{maker_writes, Runs};

use bundle::frame::LONGEST;
use layout::cipher::FORWARD;
use layout::stage::SET_BYTES;
use std::io::Read;
use streams::line::refusal_line;
use streams::stream::{receive, send};
use tables::make::make_set;

// What the maker writes for a key and a bundle, at the front of the lent memory: the set, or the refusal's line. Its length.
fn make(key: &[u8], bundle: &[u8], memory: &mut [u8]) -> usize
    requires { length memory.old ≡ ten_set_bytes }
    ensures { Written (maker_writes 4 key.now bundle.now) memory.old result memory.new }
{
    match make_set(FORWARD, key, bundle, memory) {
        Ok(()) => memory.len(),
        Err(refusal) => refusal_line(refusal, memory),
    }
}

// Reads, and makes what is to be written. One byte more than the longest bundle tells a longer one, which the call then turns down.
fn run<R: Read>(input: &mut R, errors: &impl Eprint, memory: &mut [u8]) -> usize
    requires { length memory.old ≡ ten_set_bytes }
    ensures { Runs 4 memory.old result memory.new }
{
    let mut key = [0u8; 16];
    let mut bundle = [0u8; LONGEST + 1];
    let k = receive(input, errors, &mut key);
    let b = receive(input, errors, &mut bundle);
    make(&key[..k], &bundle[..b], memory)
}

// Reads, makes what is to be written, and writes it to standard output.
fn write_out<R: Read>(input: &mut R, rt: &(impl Print + Eprint), memory: &mut [u8])
    requires { length memory.old ≡ ten_set_bytes }
{
    let n = run(input, rt, memory);
    send(rt, &memory[..n]);
}

// Lends the array on as a slice: an array of this size can only be lent on from a function of its own.
fn as_slice<R: Read>(input: &mut R, rt: &(impl Print + Eprint), set: &mut [u8; SET_BYTES]) {
    write_out(input, rt, set);
}

fn main(rt: HostRuntime) {
    let mut set = [0u8; SET_BYTES];
    as_slice(&mut rt.stdin(), &rt, &mut set);
}
