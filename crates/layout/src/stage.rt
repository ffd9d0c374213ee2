// Where a lookup stands: document 01's table of stages.
ghost use Rattle.std.specs.Prelude.{◌≡◌, ◌<◌, ◌≤◌};
ghost use Rattle.rounds.specs.Rounds.{Rounds};
ghost use Rattle.layout.specs.Stages.{lookups, tables_bytes, set_bytes, most_rounds, most_bytes_of, entry_lookups, round_lookups};
ghost use Rattle.layout.specs.Stages.{place_of, place_from, place_in_round, place_beyond, round_at, in_round};
ghost use Rattle.layout.specs.Stages.{width_of, source_of, first_lookup, first_byte_of};
ghost use Rattle.layout.specs.declared.stage.Stage.TheVariants.{Exit};
ghost use Rattle.layout.specs.Ciphers.{reads_of};

use crate::cipher::reads_of;

// The entry, the first and the second half of a round, the exit; or beyond the last lookup.
#[derive(Clone, Copy)]
pub enum Stage {
    Entry,
    First(usize),
    Second(usize),
    Exit,
    Beyond,
}

// Of ten rounds, a cipher with a key of 16 bytes: the lookups of its set, and its bytes.
pub const LOOKUPS: usize = 3008;

const TABLES_BYTES: usize = 770048;

pub const SET_BYTES: usize = TABLES_BYTES;

// The offset that is passed on where no lookup was made: behind all tables.
pub const NOWHERE: usize = TABLES_BYTES;

// The spread lookups of a stage or half, the first of its lookups: one for each standing byte.
pub const SPREADS: usize = 16;

// The lookups of the entry, which are as many as those of the exit, of a half and of a round.
pub const ENTRY_LOOKUPS: usize = 496;

pub const HALF_LOOKUPS: usize = 112;

const ROUND_LOOKUPS: usize = 224;

// Where tables begin: those of round 1's first and second half. A half has `HALF_BYTES` bytes of tables.
pub const FIRST_HALF_START: usize = 126976;

const SECOND_HALF_START: usize = FIRST_HALF_START + HALF_BYTES;

pub const HALF_BYTES: usize = 28672;

const ROUND_BYTES: usize = 2 * HALF_BYTES;

// The lookups of a set.
pub fn lookups_in(rounds: usize) -> usize
    requires { Rounds rounds }
    ensures { result ≡ lookups rounds }
{
    match rounds {
        10 => LOOKUPS,
        12 => 3456,
        _ => 3904,
    }
}

// The bytes of a set's tables.
pub fn tables_bytes(rounds: usize) -> usize
    requires { Rounds rounds }
    ensures { result ≡ tables_bytes rounds }
{
    match rounds {
        10 => TABLES_BYTES,
        12 => 884736,
        _ => 999424,
    }
}

// The bytes of a set.
pub fn set_bytes(rounds: usize) -> usize
    requires { Rounds rounds }
    ensures { result ≡ set_bytes rounds }
{
    tables_bytes(rounds)
}

// The exit's first lookup, and where its tables begin.
pub fn exit_first(rounds: usize) -> usize
    requires { Rounds rounds }
    ensures { result ≡ first_lookup rounds Exit }
{
    ENTRY_LOOKUPS + ROUND_LOOKUPS * (rounds - 1)
}

pub fn exit_start(rounds: usize) -> usize
    requires { Rounds rounds }
    ensures { result ≡ first_byte_of rounds Exit }
{
    FIRST_HALF_START + ROUND_BYTES * (rounds - 1)
}

// A lookup's stage or half, its number there, and the size and the offset of its table.
#[derive(Clone, Copy)]
pub struct Place {
    pub stage: Stage,
    pub index: usize,
    pub size: usize,
    pub offset: usize,
}

// Lookup j of a stage or half whose tables begin at `start` and whose words have `width` bytes.
fn placed(stage: Stage, width: usize, start: usize, j: usize) -> Place
    requires { (width ≤ 16) × (start ≤ most_bytes_of) × (j < entry_lookups) }
    ensures { result ≡ place_from stage width start j }
{
    match j {
        0..=15 => Place {
            stage,
            index: j,
            size: 256 * width,
            offset: start + j * (256 * width),
        },
        _ => Place {
            stage,
            index: j,
            size: 128,
            offset: start + 16 * (256 * width) + (j - 16) * 128,
        },
    }
}

// Lookup j of a round.
fn in_round(round: usize, j: usize) -> Place
    requires { (1 ≤ round) × (round < most_rounds) × (j < round_lookups) }
    ensures { result ≡ place_in_round round j }
{
    let before = ROUND_BYTES * (round - 1);
    match j {
        0..=111 => placed(Stage::First(round), 4, FIRST_HALF_START + before, j),
        _ => placed(
            Stage::Second(round),
            4,
            SECOND_HALF_START + before,
            j - HALF_LOOKUPS,
        ),
    }
}

// Lookup n behind the entry and before the exit.
fn between(n: usize) -> Place
    requires { (entry_lookups ≤ n) × (n < first_lookup most_rounds Exit) }
    ensures { result ≡ place_in_round (round_at n) (in_round n) }
{
    in_round(
        (n - ENTRY_LOOKUPS) / ROUND_LOOKUPS + 1,
        (n - ENTRY_LOOKUPS) % ROUND_LOOKUPS,
    )
}

// Behind the last lookup, by j lookups, and behind all tables.
fn beyond(j: usize, offset: usize) -> Place
    ensures { result ≡ place_beyond j offset }
{
    Place {
        stage: Stage::Beyond,
        index: j,
        size: 0,
        offset,
    }
}

// The place of lookup n of a set, for any n.
pub fn place_of(rounds: usize, n: usize) -> Place
    requires { Rounds rounds }
    ensures { result ≡ place_of rounds n }
{
    match rounds {
        10 => match n {
            0..=495 => placed(Stage::Entry, 16, 0, n),
            496..=2511 => between(n),
            2512..=3007 => placed(Stage::Exit, 16, 643072, n - 2512),
            _ => beyond(n - 3008, 770048),
        },
        12 => match n {
            0..=495 => placed(Stage::Entry, 16, 0, n),
            496..=2959 => between(n),
            2960..=3455 => placed(Stage::Exit, 16, 757760, n - 2960),
            _ => beyond(n - 3456, 884736),
        },
        _ => match n {
            0..=495 => placed(Stage::Entry, 16, 0, n),
            496..=3407 => between(n),
            3408..=3903 => placed(Stage::Exit, 16, 872448, n - 3408),
            _ => beyond(n - 3904, 999424),
        },
    }
}

// The bytes of a word.
pub fn width_of(stage: Stage) -> usize
    ensures { (result ≡ width_of stage) × (result ≤ 16) }
{
    match stage {
        Stage::Entry => 16,
        Stage::First(_) => 4,
        Stage::Second(_) => 4,
        Stage::Exit => 16,
        Stage::Beyond => 0,
    }
}

// The standing byte that spread lookup p reads.
pub fn source_of(cipher: u64, stage: Stage, p: usize) -> usize
    ensures { (result ≡ source_of (reads_of cipher) stage p) × (p < 16 → result < 16) }
{
    match stage {
        Stage::Entry => p,
        Stage::First(_) => reads_of(cipher, p),
        Stage::Second(_) => p,
        Stage::Exit => reads_of(cipher, p),
        Stage::Beyond => p,
    }
}
