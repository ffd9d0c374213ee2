// The whole set of a key and a bundle, table by table.
ghost use Rattle.std.specs.Prelude.{◌≡◌, ◌+◌, ◌-◌, ◌*◌, ◌≤◌, length};
ghost use Rattle.round.specs.Key.{rounds_of};
ghost use Rattle.layout.specs.Stages.{tables_bytes, set_bytes};
ghost use Rattle.whitebox.specs.Bundles.{made_set};
ghost use Rattle.inverse_matrices.specs.InverseWords.{column_words, column_inverses, input_inverse};
ghost use Rattle.keyed_tables.specs.Set.{tables_made};

use crate::given::Given;
use inverse_matrices::inverses;
use layout::stage;
use round::key::MOST_ROUND_KEYS;
use stages::table;
use substitution::source::Source;

// Every table, each into its own part of the lent memory, from the inverses of all column matrices and of the input
// matrix.
fn write_all(source: &Source, columns: &[u64], input: &[u64], memory: &mut [u8])
    requires { (columns.now ≡ column_inverses source.now.opened.rounds source.now.opened.bundle.now)
        × (input.now ≡ input_inverse source.now.opened.rounds source.now.opened.bundle.now)
        × (length memory.old ≡ tables_bytes source.now.opened.rounds) }
    ensures { memory.new
        ≡ tables_made source.now.cipher source.now.opened.rounds source.now.keys.now source.now.opened.bundle.now }
{
    let rounds = source.opened.rounds;
    let all = stage::lookups_in(rounds);
    for n in 0..all {
        let place = stage::place_of(rounds, n);
        let a = place.offset;
        let size = place.size;
        let e = a + size;
        let s = place.stage;
        let j = place.index;
        let inverse = inverses::chosen(rounds, columns, input, s, j);
        table::write(source, inverse, s, j, &mut memory[a..e]);
    }
}

// Every table, from the round keys and the bundle; the inverses are worked out once, those of the column matrices into
// the front of `columns`.
fn write_tables(source: &Source, columns: &mut [u64], memory: &mut [u8])
    requires { (4 * (source.now.opened.rounds - 1) * column_words ≤ length columns.old)
        × (length memory.old ≡ tables_bytes source.now.opened.rounds) }
    ensures { memory.new
        ≡ tables_made source.now.cipher source.now.opened.rounds source.now.keys.now source.now.opened.bundle.now }
{
    let n = 4 * (source.opened.rounds - 1) * inverses::COLUMN_WORDS;
    let mut input = [0u64; inverses::INPUT_WORDS];
    inverses::of_columns(&source.opened, &mut columns[0..n]);
    inverses::of_input(&source.opened, &mut input);
    write_all(source, &columns[0..n], &input, memory);
}

// The set of an accepted bundle, with room for its round keys and for the inverses of its column matrices.
fn write_set(given: &Given, keys: &mut [u8], columns: &mut [u64], memory: &mut [u8])
    requires { (16 * (rounds_of given.now.words + 1) ≤ length keys.old)
        × (4 * (rounds_of given.now.words - 1) * column_words ≤ length columns.old)
        × (length memory.old ≡ set_bytes (rounds_of given.now.words)) }
    ensures { memory.new ≡ made_set given.now.cipher given.now.words given.now.key.now given.now.bundle.now }
{
    let n = given.round_keys(keys);
    let source = given.source(&keys[0..n]);
    let tables = stage::tables_bytes(source.opened.rounds);
    write_tables(&source, columns, &mut memory[0..tables]);
}

// The same; the room is that of the most rounds, since memory is fixed.
pub fn fill_set(given: &Given, memory: &mut [u8])
    requires { length memory.old ≡ set_bytes (rounds_of given.now.words) }
    ensures { memory.new ≡ made_set given.now.cipher given.now.words given.now.key.now given.now.bundle.now }
{
    let mut keys = [0u8; MOST_ROUND_KEYS];
    let mut columns = [0u64; inverses::MOST_COLUMNS_WORDS];
    write_set(given, &mut keys, &mut columns, memory);
}
