// The judgement of a whole bundle, causes 2 to 7, a cause at a time.
ghost use Rattle.std.specs.Prelude.{◌≡◌};
ghost use Rattle.answers.specs.Answer.{Accepted};
ghost use Rattle.bundle.specs.Format.{part_count, part_at, frame};
ghost use Rattle.answers.specs.Search.{first};
ghost use Rattle.judgement.specs.Asked.{MatrixSection};
ghost use Rattle.judgement.specs.Judge.{mixing_bad, judge_encodings, judge_byte_matrices, judge_column_matrices, judge_block_matrices, judge};

use crate::search;
use answers::Refusal;
use bundle::{frame, layout, parts, sections};

// Cause 4.
pub fn judge_encodings(rounds: usize, bundle: &[u8]) -> Result<(), Refusal>
    requires { frame rounds bundle.now ≡ Accepted }
    ensures { result ≡ judge_encodings rounds bundle.now }
{
    match search::first_bad_encoding(
        sections::section(rounds, bundle, 0),
        layout::part_count(rounds, 0),
    ) {
        Some(n) => Err(Refusal::Encoding(n)),
        None => Ok(()),
    }
}

// The first byte or column matrix, of section s and of 8 w rows, that is bad.
fn first_bad_matrix(rounds: usize, bundle: &[u8], s: usize, w: usize) -> Option<u32>
    requires { MatrixSection rounds bundle.now s w }
    ensures { result ≡ first (part_count rounds s) (λ n. mixing_bad w (part_at rounds bundle.now s n)) }
{
    search::first_bad_mixing(
        sections::section(rounds, bundle, s),
        w,
        layout::part_size(s),
        layout::part_count(rounds, s),
    )
}

// Causes 5 and 6 are `first_bad_matrix` with a section and a width, and a refusal each.

// Cause 5.
pub fn judge_byte_matrices(rounds: usize, bundle: &[u8]) -> Result<(), Refusal>
    requires { frame rounds bundle.now ≡ Accepted }
    ensures { result ≡ judge_byte_matrices rounds bundle.now }
{
    match first_bad_matrix(rounds, bundle, 1, 1) {
        Some(n) => Err(Refusal::ByteMatrix(n)),
        None => Ok(()),
    }
}

// Cause 6.
pub fn judge_column_matrices(rounds: usize, bundle: &[u8]) -> Result<(), Refusal>
    requires { frame rounds bundle.now ≡ Accepted }
    ensures { result ≡ judge_column_matrices rounds bundle.now }
{
    match first_bad_matrix(rounds, bundle, 2, 4) {
        Some(n) => Err(Refusal::ColumnMatrix(n)),
        None => Ok(()),
    }
}

// Cause 7.
pub fn judge_block_matrices(rounds: usize, bundle: &[u8]) -> Result<(), Refusal>
    requires { frame rounds bundle.now ≡ Accepted }
    ensures { result ≡ judge_block_matrices rounds bundle.now }
{
    if search::no_inverse(parts::input_matrix_part(rounds, bundle), 16) {
        return Err(Refusal::InputMatrix);
    }
    if search::no_inverse(parts::output_matrix_part(rounds, bundle), 16) {
        return Err(Refusal::OutputMatrix);
    }
    Ok(())
}

// The judgement of a bundle.
pub fn judge_bundle(rounds: usize, bundle: &[u8]) -> Result<(), Refusal>
    ensures { result ≡ judge rounds bundle.now }
{
    frame::judge_frame(rounds, bundle)?;
    judge_encodings(rounds, bundle)?;
    judge_byte_matrices(rounds, bundle)?;
    judge_column_matrices(rounds, bundle)?;
    judge_block_matrices(rounds, bundle)
}
