// A single table of that set.
ghost use Rattle.std.specs.Prelude.{◌≡◌, ◌+◌, ◌*◌, ◌≤◌, length};
ghost use Rattle.round.specs.Key.{rounds_of, KeyExpansion};
ghost use Rattle.stages.specs.Asked.{Sized};
ghost use Rattle.stages.specs.Table.{stage_table};

use crate::given::Given;
use inverse_matrices::inverses;
use layout::stage::Stage;
use round::key::MOST_ROUND_KEYS;
use stages::table;

// Table j of a stage or half of the set of a key and a bundle, with room for the round keys; no other inverse than its
// own is worked out.
fn write_table(given: &Given, s: Stage, j: usize, keys: &mut [u8], memory: &mut [u8])
    requires { (16 * (rounds_of given.now.words + 1) ≤ length keys.old)
        × Sized (rounds_of given.now.words) s j memory.old }
    ensures { memory.new
        ≡ stage_table given.now.cipher (rounds_of given.now.words) (KeyExpansion given.now.words given.now.key.now)
        given.now.bundle.now s j }
{
    let n = given.round_keys(keys);
    let source = given.source(&keys[0..n]);
    let mut inverse = [0u64; inverses::INPUT_WORDS];
    inverses::of_table(&source.opened, s, j, &mut inverse);
    table::write(&source, &inverse, s, j, memory);
}

// The same; the room is that of the most rounds, since memory is fixed.
pub fn fill_table(given: &Given, s: Stage, j: usize, memory: &mut [u8])
    requires { Sized (rounds_of given.now.words) s j memory.old }
    ensures { memory.new
        ≡ stage_table given.now.cipher (rounds_of given.now.words) (KeyExpansion given.now.words given.now.key.now)
        given.now.bundle.now s j }
{
    let mut keys = [0u8; MOST_ROUND_KEYS];
    write_table(given, s, j, &mut keys, memory);
}
