// The number of a column matrix by its round and position.
ghost use Rattle.std.specs.Prelude.{◌≡◌, ◌*◌, ◌<◌, ◌≤◌};
ghost use Rattle.layout.specs.Stages.{most_rounds};
ghost use Rattle.inverse_matrices.specs.InverseWords.{column_number};

// The number of the column matrix at position p of a round.
pub fn column_number(round: usize, p: usize) -> usize
    requires { (1 ≤ round) × (round < most_rounds) × (p < 16) }
    ensures { (result ≡ column_number round p) × (result < 4 * round) }
{
    4 * (round - 1) + p / 4
}
