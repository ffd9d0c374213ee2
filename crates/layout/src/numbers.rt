// Numbers of encodings by stage.
ghost use Rattle.std.specs.Prelude.{◌≡◌, ◌+◌, ◌<◌, ◌≤◌};
ghost use Rattle.rounds.specs.Rounds.{Rounds};
ghost use Rattle.network.specs.Numbers.{sum_number};
ghost use Rattle.layout.specs.Stages.{most_rounds, encodings, half_results, first_number, standing_number, InRounds};
ghost use Rattle.layout.specs.declared.stage.Stage.TheVariants.{Exit};

use crate::stage::Stage;

// The numbers of the encodings of first results: of the entry, of round 1's first and second half. A round has `ROUND_RESULTS` results.
const ENTRY_FIRST: usize = 32;

const FIRST_HALF_FIRST: usize = 1024;

const SECOND_HALF_FIRST: usize = 1248;

const ROUND_RESULTS: usize = 448;

// The number of the encoding of the entry's first sum.
const ENTRY_SUMS: usize = 992;

// The number of the encoding of a stage's first result: the exit's is the highest.
pub fn first_number(rounds: usize, s: Stage) -> usize
    requires { Rounds rounds × InRounds rounds s }
    ensures { (result ≡ first_number rounds s) × (result ≤ first_number rounds Exit) }
{
    match s {
        Stage::Entry => ENTRY_FIRST,
        Stage::First(r) => FIRST_HALF_FIRST + ROUND_RESULTS * (r - 1),
        Stage::Second(r) => SECOND_HALF_FIRST + ROUND_RESULTS * (r - 1),
        Stage::Exit => FIRST_HALF_FIRST + ROUND_RESULTS * (rounds - 1),
        Stage::Beyond => 0,
    }
}

// The number of the encoding of nibble q of a half's sums, whose results are numbered from `first` on.
fn sum_number(first: usize, q: usize) -> usize
    requires { (first ≤ first_number most_rounds Exit) × (q < 32) }
    ensures { (result ≡ sum_number 4 first q) × (result < first + half_results) }
{
    first + 128 + (q / 8 * 3 + 2) * 8 + q % 8
}

// The number of the encoding of standing nibble q as a stage begins.
pub fn standing_number(rounds: usize, s: Stage, q: usize) -> usize
    requires { Rounds rounds × InRounds rounds s × (q < 32) }
    ensures { (result ≡ standing_number rounds s q) × (result < encodings rounds) }
{
    match s {
        Stage::Entry => q,
        Stage::First(r) => {
            if r == 1 {
                return ENTRY_SUMS + q;
            }
            sum_number(SECOND_HALF_FIRST + ROUND_RESULTS * (r - 2), q)
        }
        Stage::Second(r) => sum_number(FIRST_HALF_FIRST + ROUND_RESULTS * (r - 1), q),
        Stage::Exit => sum_number(SECOND_HALF_FIRST + ROUND_RESULTS * (rounds - 2), q),
        Stage::Beyond => q,
    }
}
