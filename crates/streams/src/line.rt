// The lines that the programs write, at the front of lent memory, since there is no heap: each contract gives the
// bytes (`Written`). Document 01, "Programs"; document 02, Ticket 4.
ghost use Rattle.std.specs.Prelude.{◌≡◌, ◌+◌, ◌<◌, ◌≤◌, length, take};
ghost use Rattle.streams.specs.Digits.{hex_digit_ascii as Digits·glyph, last_digits, IsDigitCount};
ghost use Rattle.streams.specs.Lines.{line_room, cause_room, number_room, matrix_room};
ghost use Rattle.streams.specs.Lines.{decimal, hex_digits, cause_text, cause_line, refusal_line, answer_line, matrix_line};
ghost use Rattle.streams.specs.Written.{Put, Written};

use answers::{Refusal, cause, second};
use bits::encoding::nibble;
use std::array;

// Room for every line of the maker and the walker, and for one of the catalogue, which has 4 digits.
pub const ROOM: usize = 33;

pub const MATRIX_ROOM: usize = MATRIX_DIGITS + 1;

const MATRIX_DIGITS: usize = 4;

// The most digits that a number of 32 bits has in decimal.
const NUMBER_ROOM: usize = 10;

// Writes a text from a place on. Where it ends.
fn put(line: &mut [u8], from: usize, text: &[u8]) -> usize
    requires { from + length text.now ≤ length line.old }
    ensures { Put text.now line.old from result line.new }
{
    let end = from + text.len();
    line[from..end].copy_from_slice(text);
    end
}

// How many digits a number has in decimal: no index is counted, the number is divided away.
fn digit_count(n: u32) -> usize
    ensures { IsDigitCount 10 1 n result }
{
    let mut k = 1;
    let mut rest = n / 10;
    while rest > 0 {
        rest /= 10;
        k += 1;
    }
    k
}

// Writes the last k digits of a number in a base, the most significant first, to the front.
fn write_digits(n: u32, base: u32, k: usize, out: &mut [u8])
    requires base { (0 < base) × (base ≤ 16) }
    requires room { k ≤ length out.old }
    ensures { take k out.new ≡ last_digits base k n }
{
    let mut rest = n;
    for i in (0..k).rev() {
        out[i] = glyph((rest % base) as u8);
        rest /= base;
    }
}

// Writes a number in decimal.
fn put_decimal(line: &mut [u8], from: usize, n: u32) -> usize
    requires { from + number_room ≤ length line.old }
    ensures { Put (decimal n) line.old from result line.new × (length (decimal n) ≤ number_room) }
{
    let mut digits = [0u8; NUMBER_ROOM];
    let k = digit_count(n);
    write_digits(n, 10, k, &mut digits);
    put(line, from, &digits[..k])
}

// Writes `refused N`, the number of the cause.
fn put_cause(line: &mut [u8], refusal: Refusal) -> usize
    requires { line_room ≤ length line.old }
    ensures { Written (cause_text refusal) line.old result line.new × (result ≤ cause_room) }
{
    let end = put(line, 0, b"refused ");
    put_decimal(line, end, cause(Err(refusal)))
}

// The walker's refusal: `refused N` and a newline. Its length.
pub fn cause_line(refusal: Refusal, line: &mut [u8]) -> usize
    requires { line_room ≤ length line.old }
    ensures { Written (cause_line refusal) line.old result line.new }
{
    let end = put_cause(line, refusal);
    put(line, end, b"\n")
}

// The maker's refusal: `refused N I` and a newline, "cause, then its second number". Its length.
pub fn refusal_line(refusal: Refusal, line: &mut [u8]) -> usize
    requires { line_room ≤ length line.old }
    ensures { Written (refusal_line refusal) line.old result line.new }
{
    let end = put_cause(line, refusal);
    let gap = put(line, end, b" ");
    let number = put_decimal(line, gap, second(Err(refusal)));
    put(line, number, b"\n")
}

// The digit of a nibble, in lowercase hex.
fn glyph(d: u8) -> u8
    requires { d < 16 }
    ensures { result ≡ Digits·glyph d }
{
    if d < 10 { 48 + d } else { 87 + d }
}

// The 32 nibbles of a block in lowercase hex.
fn hex_digits(block: &[u8]) -> [u8; 32]
    ensures { result ≡ hex_digits block.now }
{
    array::from_fn(|q| glyph(nibble(block, q)))
}

// The walker's answer: "32 lowercase hex digits and a newline". Its length.
pub fn answer_line(block: &[u8], line: &mut [u8]) -> usize
    requires { line_room ≤ length line.old }
    ensures { Written (answer_line block.now) line.old result line.new }
{
    let digits = hex_digits(block);
    let end = put(line, 0, &digits);
    put(line, end, b"\n")
}

// An entry of the catalogue: "4 lowercase hex digits a line". Its length.
pub fn matrix_line(matrix: u16, line: &mut [u8]) -> usize
    requires { matrix_room ≤ length line.old }
    ensures { Written (matrix_line matrix) line.old result line.new }
{
    let mut digits = [0u8; MATRIX_DIGITS];
    write_digits(u32::from(matrix), 16, MATRIX_DIGITS, &mut digits);
    let end = put(line, 0, &digits);
    put(line, end, b"\n")
}
