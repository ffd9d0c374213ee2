// The catalogue of small matrices: the 4 by 4 bit matrices that have an inverse, in rising order of the number that
// their rows make (document 02, Ticket 4). The one at a position is found row by row: no scan over all numbers. And the
// test of one matrix, by its number.

#![tactic(auto)]

ghost use Rattle.std.specs.Prelude.{◌≡◌, ◌<◌};
ghost use Rattle.bits.specs.Counts.{sum_below};
ghost use Rattle.bits.specs.Lists.{at};
ghost use Rattle.catalogue.specs.Catalogue.{side, is_invertible, catalogue, catalogue_length};
ghost use Rattle.catalogue.specs.Promises.{Gives};
ghost use Rattle.catalogue.specs.Kernels.{vectors, kernel_with, completions, ways, NextRow};

use answers::Refusal;

// How many matrices there are, how many rows each has, and how many values a row can have.
pub const MATRICES: usize = 20160;

pub const SIDE: usize = 4;

pub const VECTORS: usize = 16;

// The kernel of no row, which has all vectors; and the smallest, which has the vector 0 alone.
const WHOLE: u16 = 0xffff;

const ALONE: u16 = 0x8000;

// The kernel of each row: bit w of it, from the top, is set where the row takes the vector w to 0.
const KERNELS: [u16; VECTORS] = [
    0xffff, 0xaaaa, 0xcccc, 0x9999, 0xf0f0, 0xa5a5, 0xc3c3, 0x9696, 0xff00, 0xaa55, 0xcc33, 0x9966,
    0xf00f, 0xa55a, 0xc33c, 0x9669,
];

// How many matrices begin with the same rows, where 0, 1, 2 or 3 rows are still to choose: outside the span of the rows
// before it, the last row has 8 choices, the third 12, the second 14.
const WAYS: [usize; SIDE] = [1, 8, 96, 1344];

// The kernel of some rows and one row more.
fn kernel_with(kernel: u16, row: usize) -> u16
    requires { row < vectors }
    ensures { result ≡ kernel_with kernel row }
{
    kernel & KERNELS[row]
}

// The matrix whose rows make a number has an inverse: all its rows together take no vector but 0 to 0. The constant
// is laid out once for the four rows: each read of the constant itself copies it.
pub fn is_invertible(number: u16) -> bool
    ensures { result ≡ is_invertible side number }
{
    let kernels = KERNELS;
    let v = usize::from(number);
    let first = WHOLE & kernels[v / VECTORS / VECTORS / VECTORS];
    let second = first & kernels[v / VECTORS / VECTORS % VECTORS];
    let third = second & kernels[v / VECTORS % VECTORS];
    third & kernels[v % VECTORS] == ALONE
}

// `WAYS`, where this many rows are still to choose.
fn ways_at(left: usize) -> usize
    requires { left < side }
    ensures { result ≡ ways left }
{
    WAYS[left]
}

// How many matrices go on with a row, where some rows have this kernel: none where it narrows nothing, for then it is
// in their span; else `each`.
fn completions_with(kernel: u16, each: usize, row: usize) -> usize
    requires { row < vectors }
    ensures { result ≡ completions kernel each row }
{
    if kernel_with(kernel, row) == kernel {
        return 0;
    }
    each
}

// A row, the kernel of the rows up to it, and the position among the matrices that begin with these rows.
#[derive(Clone, Copy)]
struct Choice {
    row: usize,
    kernel: u16,
    rest: usize,
}

// The next row of the matrix at a position among those that begin with some rows.
fn next_row(kernel: u16, each: usize, position: usize) -> Choice
    requires { position < sum_below vectors (completions kernel each) }
    ensures { NextRow kernel each position result.row result.kernel result.rest }
{
    let mut rest = position;
    for row in 0..VECTORS {
        let here = completions_with(kernel, each, row);
        if rest < here {
            return Choice {
                row,
                kernel: kernel_with(kernel, row),
                rest,
            };
        }
        rest -= here;
    }
    unreachable!()
}

// The number at a position, from row 0 down.
fn number_at(position: usize) -> u16
    requires { position < catalogue_length }
    ensures { result ≡ at catalogue position }
{
    let mut number = 0;
    let mut kernel = WHOLE;
    let mut rest = position;
    for left in (0..SIDE).rev() {
        let next = next_row(kernel, ways_at(left), rest);
        number = number * VECTORS + next.row;
        kernel = next.kernel;
        rest = next.rest;
    }
    number as u16
}

// The entry at any position: the number that the rows of the matrix make, or why the call is refused.
pub fn entry_at(position: usize) -> Result<u16, Refusal>
    ensures { Gives position result }
{
    if position >= MATRICES {
        return Err(Refusal::CataloguePosition);
    }
    Ok(number_at(position))
}
