// Parts of a bundle whose sections' starts are known.
ghost use Rattle.std.specs.Prelude.{◌≡◌};
ghost use Rattle.rounds.specs.Rounds.{Rounds};
ghost use Rattle.view.specs.Views.{section_from, numbered_from, part_from};

use crate::starts::Starts;
use bits::slices;
use bundle::layout;
use rounds::TEN;

// What a part of a bundle holds: an encoding or a matrix, by its number.
#[derive(Clone, Copy)]
pub enum Part {
    Encoding(usize),
    ByteMatrix(usize),
    ColumnMatrix(usize),
    InputMatrix,
    OutputMatrix,
}

// Section s where it starts at byte a; empty where a is 0, at which no section starts, or where it would end behind the bundle.
pub(crate) fn section_from<'a>(rounds: usize, bundle: &'a [u8], s: usize, a: usize) -> &'a [u8]
    requires { Rounds rounds }
    ensures { result.now ≡ section_from rounds bundle.now s a }
{
    let n = layout::section_length(rounds, s);
    if a == 0 {
        return &bundle[0..0];
    }
    if bundle.len() < n {
        return &bundle[0..0];
    }
    if bundle.len() - n < a {
        return &bundle[0..0];
    }
    let e = a + n;
    &bundle[a..e]
}

// Part n of section s where it starts at byte a; empty behind the last.
fn numbered_from<'a>(rounds: usize, bundle: &'a [u8], s: usize, a: usize, n: usize) -> &'a [u8]
    requires { Rounds rounds }
    ensures { result.now ≡ numbered_from rounds bundle.now s a n }
{
    slices::part(section_from(rounds, bundle, s, a), layout::part_size(s), n)
}

// The part that holds what p names, where the sections start at t.
pub(crate) fn part_in<'a>(rounds: usize, bundle: &'a [u8], t: Starts, p: Part) -> &'a [u8]
    requires { Rounds rounds }
    ensures { result.now ≡ part_from rounds bundle.now t p }
{
    match p {
        Part::Encoding(n) => numbered_from(rounds, bundle, 0, t.encodings, n),
        Part::ByteMatrix(n) => numbered_from(rounds, bundle, 1, t.bytes, n),
        Part::ColumnMatrix(n) => numbered_from(rounds, bundle, 2, t.columns, n),
        Part::InputMatrix => numbered_from(rounds, bundle, 3, t.input, 0),
        Part::OutputMatrix => numbered_from(rounds, bundle, 4, t.output, 0),
    }
}

// That of a bundle for ten rounds.
pub fn part_from<'a>(bundle: &'a [u8], t: Starts, p: Part) -> &'a [u8]
    ensures { result.now ≡ part_from 10 bundle.now t p }
{
    part_in(TEN, bundle, t, p)
}
