// One table by its stage or half and its number there.
ghost use Rattle.std.specs.Prelude.{cond, ◌≡◌, eqb};
ghost use Rattle.network.specs.Tables.{xor_table};
ghost use Rattle.whitebox.specs.Bundles.{codings_of};
ghost use Rattle.inverse_matrices.specs.InverseWords.{Begins, inverse_for};
ghost use Rattle.stages.specs.Asked.{Sized, ForXorTable};
ghost use Rattle.stages.specs.Table.{stage_table};

use crate::spread::Spread;
use layout::stage::Stage;
use layout::{numbers, stage};
use substitution::source::Source;
use view::opened::Opened;

// The number of the encoding of the sum so far: of the group's first word, or of the XOR before.
fn sum_so_far(added: usize, spread: usize, before: usize) -> usize
    ensures { result ≡ cond (eqb added 0) spread before }
{
    if added == 0 { spread } else { before }
}

// XOR table x of a layer of width m whose results are numbered from `first` on.
fn xor_table(opened: &Opened, m: usize, first: usize, x: usize, dst: &mut [u8])
    requires { ForXorTable opened.now.rounds m first x dst.old }
    ensures { dst.new ≡ xor_table (codings_of opened.now.rounds opened.now.bundle.now).encoding m first x }
{
    let d = 2 * m;
    let h = x % d;
    let turn = x / d;
    let word = turn / (m - 1) * m;
    let added = turn % (m - 1);
    let result = first + 16 * d + x;
    let sum = sum_so_far(added, first + word * d + h, result - d);
    let encodings = opened.encodings();
    xor_tables::write(
        encodings,
        sum,
        first + (word + added + 1) * d + h,
        result,
        dst,
    );
}

// Table j of a stage or half; only a spread table has a use for the inverse.
pub fn write(source: &Source, inverse: &[u64], s: Stage, j: usize, dst: &mut [u8])
    requires { Begins (inverse_for source.now.opened.rounds source.now.opened.bundle.now s j) inverse.now
        × Sized source.now.opened.rounds s j dst.old }
    ensures { dst.new
        ≡ stage_table source.now.cipher source.now.opened.rounds source.now.keys.now source.now.opened.bundle.now s j }
{
    if j < stage::SPREADS {
        let table = Spread {
            source: *source,
            stage: s,
            position: j,
            inverse,
        };
        table.write(dst);
    } else {
        xor_table(
            &source.opened,
            stage::width_of(s),
            numbers::first_number(source.opened.rounds, s),
            j - stage::SPREADS,
            dst,
        );
    }
}
