// The parts of the lent slice that hold an encoding (list) or a matrix, by number: empty for a number too large, and for a bundle with
// cause 2 or 3, as is one for any number of rounds but 10, 12 and 14. Each is `part_at` with its section.
ghost use Rattle.std.specs.Prelude.{◌≡◌};
ghost use Rattle.bundle.specs.Format.{encoding_part, byte_matrix_part, column_matrix_part, input_matrix_part, output_matrix_part};

use crate::sections;

pub fn encoding_part<'a>(rounds: usize, bundle: &'a [u8], n: usize) -> &'a [u8]
    ensures { result.now ≡ encoding_part rounds bundle.now n }
{
    sections::part_at(rounds, bundle, 0, n)
}

pub fn byte_matrix_part<'a>(rounds: usize, bundle: &'a [u8], n: usize) -> &'a [u8]
    ensures { result.now ≡ byte_matrix_part rounds bundle.now n }
{
    sections::part_at(rounds, bundle, 1, n)
}

pub fn column_matrix_part<'a>(rounds: usize, bundle: &'a [u8], n: usize) -> &'a [u8]
    ensures { result.now ≡ column_matrix_part rounds bundle.now n }
{
    sections::part_at(rounds, bundle, 2, n)
}

pub fn input_matrix_part<'a>(rounds: usize, bundle: &'a [u8]) -> &'a [u8]
    ensures { result.now ≡ input_matrix_part rounds bundle.now }
{
    sections::part_at(rounds, bundle, 3, 0)
}

pub fn output_matrix_part<'a>(rounds: usize, bundle: &'a [u8]) -> &'a [u8]
    ensures { result.now ≡ output_matrix_part rounds bundle.now }
{
    sections::part_at(rounds, bundle, 4, 0)
}
