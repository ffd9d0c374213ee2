// Sections, and the parts of a section by number, as parts of the lent slice.
ghost use Rattle.std.specs.Prelude.{◌≡◌};
ghost use Rattle.bundle.specs.Format.{section_of, part_at};

use crate::{frame, layout};
use bits::slices;

// Section s; empty in a bundle with cause 2 or 3, and behind the fifth.
pub fn section<'a>(rounds: usize, bundle: &'a [u8], s: usize) -> &'a [u8]
    ensures { result.now ≡ section_of rounds bundle.now s }
{
    if 5 <= s {
        return &bundle[0..0];
    }
    match frame::judge_frame(rounds, bundle) {
        Ok(()) => {
            let at = 8 * s;
            let a = slices::number_at(bundle, at);
            let e = a + layout::section_length(rounds, s);
            &bundle[a..e]
        }
        Err(_) => &bundle[0..0],
    }
}

// Part n of section s of a bundle.
pub fn part_at<'a>(rounds: usize, bundle: &'a [u8], s: usize, n: usize) -> &'a [u8]
    ensures { result.now ≡ part_at rounds bundle.now s n }
{
    slices::part(section(rounds, bundle, s), layout::part_size(s), n)
}
