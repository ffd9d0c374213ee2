// Where the five sections of a bundle start: encodings, byte matrices, column matrices, input matrix and output matrix.
ghost use Rattle.std.specs.Prelude.{◌≡◌};
ghost use Rattle.view.specs.Views.{starts_of};

use bits::slices;
use bundle::frame;
use rounds::TEN;

#[derive(Clone, Copy)]
pub struct Starts {
    pub encodings: usize,
    pub bytes: usize,
    pub columns: usize,
    pub input: usize,
    pub output: usize,
}

// The offsets of the five pairs; all 0 in a bundle with cause 2 or 3.
pub fn starts_in(rounds: usize, bundle: &[u8]) -> Starts
    ensures { result ≡ starts_of rounds bundle.now }
{
    match frame::judge_frame(rounds, bundle) {
        Ok(()) => Starts {
            encodings: slices::number_at(bundle, 0),
            bytes: slices::number_at(bundle, 8),
            columns: slices::number_at(bundle, 16),
            input: slices::number_at(bundle, 24),
            output: slices::number_at(bundle, 32),
        },
        Err(_) => Starts {
            encodings: 0,
            bytes: 0,
            columns: 0,
            input: 0,
            output: 0,
        },
    }
}

// Those of a bundle for ten rounds.
pub fn starts_of(bundle: &[u8]) -> Starts
    ensures { result ≡ starts_of 10 bundle.now }
{
    starts_in(TEN, bundle)
}
