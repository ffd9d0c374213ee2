// Reads records to the end of the input: a byte w of 1, 4 or 16, a matrix of 8 w rows of w bytes, a vector of w bytes. Writes for each
// the product in hex, and the inverse's bytes in hex or `singular`. The expected output was made by a program of other authorship.

#![tactic(auto)]

ghost use Rattle.std.specs.Prelude.{◌≡◌, ◌*◌, ◌≤◌, length};

use bits::vector;
use matrices::matrix;
use std::io;
use streams::stream::receive;

fn show(rt: &impl Print, b: &[u8]) -> io::Result<()> {
    for x in b {
        print!(rt; "{x:02x}")?;
    }
    print!(rt; "\n")
}

// Reads a matrix of 8 w rows into `m` and a vector into `v`, and writes their product and the matrix's inverse, each from the same room.
fn answer(
    rt: &(impl Input + Print + Eprint),
    m: &mut [u8],
    v: &mut [u8],
    w: usize,
) -> io::Result<()>
    requires { (w ≤ 16) × (length m.old ≡ 8 * w * w) × (length v.old ≡ w) }
{
    let mut rows = [0u64; 256];
    let mut inverse = [0u64; 256];
    let mut input = rt.reader();
    receive(&mut input, rt, m);
    receive(&mut input, rt, v);
    matrix::read(m, &mut rows, w);
    let p = matrix::multiply(&rows, 8 * w, vector::read(v, 0, w));
    vector::write(p, v);
    show(rt, v)?;
    if inversion::invert(&rows, &mut inverse, 8 * w).is_ok() {
        matrix::write(&inverse, m, w);
        return show(rt, m);
    }
    print!(rt; "singular\n")
}

// A record whose matrix has `BYTES` bytes, `ROW` to a row.
fn matrix_case<const BYTES: usize, const ROW: usize>(
    rt: &(impl Input + Print + Eprint),
) -> io::Result<()>
    requires { (ROW ≤ 16) × (BYTES ≡ 8 * ROW * ROW) }
{
    let mut m = [0u8; BYTES];
    let mut v = [0u8; ROW];
    answer(rt, &mut m, &mut v, ROW)
}

// More records than any input has: so the loop ends, whatever is read.
const MOST_RECORDS: usize = 1000;

fn main(rt: HostRuntime) -> io::Result<()> {
    let mut tag = [0u8; 1];
    for _ in 0..MOST_RECORDS {
        if receive(&mut rt.reader(), &rt, &mut tag) != 1 {
            return Ok(());
        }
        match tag[0] {
            1 => matrix_case::<8, 1>(&rt)?,
            4 => matrix_case::<128, 4>(&rt)?,
            _ => matrix_case::<2048, 16>(&rt)?,
        }
    }
    Ok(())
}
