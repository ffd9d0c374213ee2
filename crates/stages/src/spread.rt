// A spread table of a stage or half: the bytes that it reads, the words that they become, and these words encoded.
ghost use Rattle.std.specs.Prelude.{List, ◌≡◌, ℕ, ◌*◌, ◌<◌, length};
ghost use Rattle.bits.specs.Lists.{tabulate};
ghost use Rattle.layout.specs.Ciphers.{reads_of};
ghost use Rattle.layout.specs.Stages.{InRounds, width_of};
ghost use Rattle.inverse_matrices.specs.InverseWords.{Begins, inverse_for};
ghost use Rattle.stages.specs.InRounds.{in_rounds_prop};
ghost use Rattle.stages.specs.Spread.{read_byte, acted_bytes, word_basis};
ghost use Rattle.stages.specs.Table.{stage_spread};

use encodings::lists;
use inverse_matrices::column;
use layers::words;
use layout::stage::Stage;
use layout::{numbers, stage};
use substitution::source::Source;
use substitution::values;
use view::part::Part;

// Spread table `position` of a stage or half; `inverse` begins with the one that it is made with, if any.
#[derive(Clone, Copy)]
pub(crate) struct Spread<'a> {
    pub source: Source<'a>,
    pub stage: Stage,
    pub position: usize,
    pub inverse: &'a [u64],
    pub ghost in_rounds: { InRounds source.opened.rounds stage } by { in_rounds_prop source.opened.rounds stage },
    pub ghost standing: { position < 16 },
    pub ghost begins: { Begins (inverse_for source.opened.rounds source.opened.bundle.now stage position) inverse.now },
}

impl<'a> Spread<'a> {
    // The bytes that its position reads, decoded.
    fn read_bytes(&self, dst: &mut [u8])
        requires { length dst.old ≡ 256 }
        ensures { dst.new
            ≡ tabulate 256 (read_byte self.now.source.opened.rounds (reads_of self.now.source.cipher)
            self.now.source.opened.bundle.now self.now.stage self.now.position) }
    {
        let opened = &self.source.opened;
        let j = stage::source_of(self.source.cipher, self.stage, self.position);
        let high = numbers::standing_number(opened.rounds, self.stage, 2 * j);
        let low = numbers::standing_number(opened.rounds, self.stage, 2 * j + 1);
        lists::decoded_bytes(opened.encodings(), high, low, dst);
    }

    // For each of them, the byte that its word is linear in.
    fn values(&self, dst: &mut [u8])
        requires { length dst.old ≡ 256 }
        ensures { dst.new
            ≡ acted_bytes self.now.source.cipher self.now.source.opened.rounds self.now.source.keys.now
            self.now.source.opened.bundle.now self.now.stage self.now.position }
    {
        match self.stage {
            Stage::First(r) => {
                let mut read = [0u8; 256];
                self.read_bytes(&mut read);
                values::behind_sbox(&self.source, r, self.position, &read, dst);
            }
            Stage::Exit => {
                let mut read = [0u8; 256];
                self.read_bytes(&mut read);
                values::behind_sbox(
                    &self.source,
                    self.source.opened.rounds,
                    self.position,
                    &read,
                    dst,
                );
            }
            Stage::Entry => self.read_bytes(dst),
            Stage::Second(_) => self.read_bytes(dst),
            Stage::Beyond => self.read_bytes(dst),
        }
    }

    // The words of the bytes 2^0 to 2^7; the round keys play no part in them.
    fn basis(&self, basis: &mut [u64])
        requires { length basis.old ≡ 16 }
        ensures { (w : List ℕ)
            → basis.new
            ≡ word_basis self.now.source.cipher self.now.source.opened.rounds w self.now.source.opened.bundle.now
            self.now.stage self.now.position basis.old }
    {
        let opened = &self.source.opened;
        let p = self.position;
        match self.stage {
            Stage::Entry => words::spread_basis(opened, self.inverse, 16, p, 0, basis),
            Stage::First(r) => {
                let n = column::column_number(r, p);
                words::mixed_basis(
                    self.source.cipher,
                    opened.part(Part::ColumnMatrix(n)),
                    p % 4,
                    basis,
                );
            }
            Stage::Second(r) => words::spread_basis(
                opened,
                self.inverse,
                4,
                p % 4,
                16 * r + 4 * (p / 4),
                basis,
            ),
            Stage::Exit => words::placed_basis(opened.part(Part::OutputMatrix), p, basis),
            Stage::Beyond => {}
        }
    }

    // The table.
    pub fn write(&self, dst: &mut [u8])
        requires { length dst.old ≡ 256 * width_of self.now.stage }
        ensures { dst.new
            ≡ stage_spread self.now.source.cipher self.now.source.opened.rounds self.now.source.keys.now
            self.now.source.opened.bundle.now self.now.stage self.now.position }
    {
        let opened = &self.source.opened;
        let m = stage::width_of(self.stage);
        let mut values = [0u8; 256];
        let mut basis = [0u64; 16];
        let mut images = [0u8; 512];
        self.values(&mut values);
        self.basis(&mut basis);
        let d = 2 * m;
        let first = numbers::first_number(opened.rounds, self.stage) + self.position * d;
        lists::all_images(opened.encodings(), first, d, &mut images);
        spread_tables::write(&values, &basis, &images, m, dst);
    }
}
