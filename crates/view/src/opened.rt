// An accepted bundle, opened: the starts of its five sections are found once, and what it has is served by them, with
// nothing judged again.
ghost use Rattle.std.specs.Prelude.{◌≡◌};
ghost use Rattle.answers.specs.Answer.{Accepted};
ghost use Rattle.rounds.specs.Rounds.{Rounds};
ghost use Rattle.bits.specs.Bytes.{Bytes};
ghost use Rattle.bundle.specs.Format.{section_of};
ghost use Rattle.judgement.specs.Judge.{judge};
ghost use Rattle.view.specs.Views.{starts_of, part_in};

use crate::part::Part;
use crate::starts::Starts;
use crate::{found, starts};

// A bundle that is accepted for a number of rounds, with the starts that were found for it.
#[derive(Clone, Copy)]
pub struct Opened<'a> {
    pub rounds: usize,
    pub bundle: &'a [u8],
    starts: Starts,
    pub ghost known: { Rounds rounds },
    pub ghost bytes: { Bytes bundle.now },
    pub ghost accepted: { judge rounds bundle.now ≡ Accepted },
    ghost found: { starts ≡ starts_of rounds bundle.now },
}

impl<'a> Opened<'a> {
    // An accepted bundle is opened: its starts are found.
    pub fn new(rounds: usize, bundle: &'a [u8]) -> Self
        requires { Rounds rounds × (judge rounds bundle.now ≡ Accepted) }
        ensures { (result.rounds ≡ rounds) × (result.bundle.now ≡ bundle.now) }
    {
        Opened {
            rounds,
            bundle,
            starts: starts::starts_in(rounds, bundle),
        }
    }

    // The section of the encodings.
    pub fn encodings(&self) -> &'a [u8]
        ensures { result.now ≡ section_of self.now.rounds self.now.bundle.now 0 }
    {
        found::encodings(self.rounds, self.bundle, self.starts)
    }

    // The section of the byte matrices.
    pub fn byte_matrices(&self) -> &'a [u8]
        ensures { result.now ≡ section_of self.now.rounds self.now.bundle.now 1 }
    {
        found::byte_matrices(self.rounds, self.bundle, self.starts)
    }

    // The part that holds what p names.
    pub fn part(&self, p: Part) -> &'a [u8]
        ensures { result.now ≡ part_in self.now.rounds self.now.bundle.now p }
    {
        found::part(self.rounds, self.bundle, self.starts, p)
    }
}
