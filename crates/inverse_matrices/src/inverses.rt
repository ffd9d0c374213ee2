// Inverses of a bundle's matrices: all of them, worked out once for a whole set, or the one that a single table needs.
// A byte matrix's inverse is used by one table only.
ghost use Rattle.std.specs.Prelude.{◌++◌, ◌≡◌, ◌-◌, ◌*◌, ◌<◌, ◌≤◌, length, drop};
ghost use Rattle.rounds.specs.Rounds.{Rounds};
ghost use Rattle.bundle.specs.Format.{column_matrices};
ghost use Rattle.layout.specs.Stages.{InRounds};
ghost use Rattle.inverse_matrices.specs.InverseWords.{input_words, column_words, in_front};
ghost use Rattle.inverse_matrices.specs.InverseWords.{input_inverse, column_inverse, column_inverses, inverse_for, chosen_from};

use crate::{column, inverse};
use layout::stage::Stage;
use round::key::MOST_ROUNDS;
use view::opened::Opened;
use view::part::Part;

// The words of the inverse of the input matrix, of a column matrix, and of all column matrices of the most rounds.
pub const INPUT_WORDS: usize = 256;

pub const COLUMN_WORDS: usize = 64;

pub const MOST_COLUMNS_WORDS: usize = 4 * (MOST_ROUNDS - 1) * COLUMN_WORDS;

// The inverse of the input matrix.
pub fn of_input(opened: &Opened, dst: &mut [u64])
    requires { length dst.old ≡ input_words }
    ensures { dst.new ≡ input_inverse opened.now.rounds opened.now.bundle.now }
{
    let matrix = opened.part(Part::InputMatrix);
    inverse::read(matrix, dst, 16);
}

// The inverse of column matrix n, into the front of dst.
fn of_column(opened: &Opened, n: usize, dst: &mut [u64])
    requires { (n < column_matrices opened.now.rounds) × (column_words ≤ length dst.old) }
    ensures { dst.new ≡ column_inverse opened.now.rounds opened.now.bundle.now n ++ drop column_words dst.old }
{
    let matrix = opened.part(Part::ColumnMatrix(n));
    inverse::read(matrix, dst, 4);
}

// The inverses of the column matrices, one after the other.
pub fn of_columns(opened: &Opened, dst: &mut [u64])
    requires { length dst.old ≡ 4 * (opened.now.rounds - 1) * column_words }
    ensures { dst.new ≡ column_inverses opened.now.rounds opened.now.bundle.now }
{
    let count = 4 * (opened.rounds - 1);
    for n in 0..count {
        let a = n * COLUMN_WORDS;
        let e = a + COLUMN_WORDS;
        of_column(opened, n, &mut dst[a..e]);
    }
}

// The one inverse, if any, that table j of a stage or half is made with, into the front of dst: an XOR table, from 16
// on, is made with none.
pub fn of_table(opened: &Opened, s: Stage, j: usize, dst: &mut [u64])
    requires { InRounds opened.now.rounds s × (length dst.old ≡ input_words) }
    ensures { dst.new ≡ in_front (inverse_for opened.now.rounds opened.now.bundle.now s j) dst.old }
{
    if 15 < j {
        return;
    }
    match s {
        Stage::Entry => of_input(opened, dst),
        Stage::First(_) => {}
        Stage::Second(r) => of_column(opened, column::column_number(r, j), dst),
        Stage::Exit => {}
        Stage::Beyond => {}
    }
}

// Where all are worked out, the words of which table j of a stage or half is made with the first.
pub fn chosen<'a>(
    rounds: usize,
    columns: &'a [u64],
    input: &'a [u64],
    s: Stage,
    j: usize,
) -> &'a [u64]
    requires { Rounds rounds × (length columns.now ≡ 4 * (rounds - 1) * column_words) × InRounds rounds s }
    ensures { result.now ≡ chosen_from columns.now input.now s j }
{
    if 15 < j {
        return input;
    }
    match s {
        Stage::Entry => input,
        Stage::First(_) => input,
        Stage::Second(r) => {
            let a = column::column_number(r, j) * COLUMN_WORDS;
            let e = a + COLUMN_WORDS;
            &columns[a..e]
        }
        Stage::Exit => input,
        Stage::Beyond => input,
    }
}
