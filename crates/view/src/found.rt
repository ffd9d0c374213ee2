// What a bundle has, by the starts that were found for it: nothing is judged again. Where `starts_in` found none, all of it is empty.
ghost use Rattle.std.specs.Prelude.{◌≡◌};
ghost use Rattle.rounds.specs.Rounds.{Rounds};
ghost use Rattle.bundle.specs.Format.{section_of};
ghost use Rattle.view.specs.Views.{starts_of, part_in};

use crate::part;
use crate::part::Part;
use crate::starts::Starts;

// The section of the encodings.
pub fn encodings<'a>(rounds: usize, bundle: &'a [u8], t: Starts) -> &'a [u8]
    requires { (t ≡ starts_of rounds bundle.now) × Rounds rounds }
    ensures { result.now ≡ section_of rounds bundle.now 0 }
{
    part::section_from(rounds, bundle, 0, t.encodings)
}

// The section of the byte matrices.
pub fn byte_matrices<'a>(rounds: usize, bundle: &'a [u8], t: Starts) -> &'a [u8]
    requires { (t ≡ starts_of rounds bundle.now) × Rounds rounds }
    ensures { result.now ≡ section_of rounds bundle.now 1 }
{
    part::section_from(rounds, bundle, 1, t.bytes)
}

// The part that holds what p names.
pub fn part<'a>(rounds: usize, bundle: &'a [u8], t: Starts, p: Part) -> &'a [u8]
    requires { (t ≡ starts_of rounds bundle.now) × Rounds rounds }
    ensures { result.now ≡ part_in rounds bundle.now p }
{
    part::part_in(rounds, bundle, t, p)
}
