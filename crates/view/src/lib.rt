// A view of a bundle: the lent bytes with the five sections' starts, found once, and the parts that it serves by number. The three
// functions here, over a struct that holds a reference, are thin; the work is in the other files.

#![tactic(auto)]

ghost use Rattle.std.specs.Prelude.{◌≡◌};
ghost use Rattle.view.specs.Views.{view_of, served_by, part_in};

pub mod found;
pub mod opened;
pub mod part;
pub mod starts;

use crate::part::Part;
use crate::starts::Starts;

// The lent bytes, and where the sections start: encodings, byte matrices, column matrices, input matrix and output matrix.
#[derive(Clone, Copy)]
pub struct View<'a> {
    pub bundle: &'a [u8],
    pub encodings: usize,
    pub bytes: usize,
    pub columns: usize,
    pub input: usize,
    pub output: usize,
}

// The view of a bundle; its starts are 0 over a bundle with cause 2 or 3.
pub fn view_of<'a>(bundle: &'a [u8]) -> View<'a>
    ensures { result ≡ view_of bundle.entry }
{
    let s = starts::starts_of(bundle);
    View {
        bundle,
        encodings: s.encodings,
        bytes: s.bytes,
        columns: s.columns,
        input: s.input,
        output: s.output,
    }
}

// The part of the view's bundle that holds what p names. The bundle is not judged again.
pub fn serve<'a>(v: View<'a>, p: Part) -> &'a [u8]
    ensures { result.now ≡ served_by v.entry p }
{
    let s = Starts {
        encodings: v.encodings,
        bytes: v.bytes,
        columns: v.columns,
        input: v.input,
        output: v.output,
    };
    part::part_from(v.bundle, s, p)
}

// The part of a bundle that holds what p names, by a view that is made for it.
pub fn served<'a>(bundle: &'a [u8], p: Part) -> &'a [u8]
    ensures { result.now ≡ part_in 10 bundle.now p }
{
    serve(view_of(bundle), p)
}
