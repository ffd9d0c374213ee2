// The lookups of a stage or half, in place: the standing bytes and the area are lent. One lookup over its table; and
// what crates that make all of them over a set share.
ghost use Rattle.std.specs.Prelude.{◌≡◌, ◌≤◌, ◌<◌, length};
ghost use Rattle.network.specs.Order.{layer_lookups};
ghost use Rattle.network.specs.Lookups.{sums, zero_area};
ghost use Rattle.network.specs.Read.{nibble_place};
ghost use Rattle.layout.specs.Ciphers.{reads_of};
ghost use Rattle.layout.specs.Stages.{width_of, shape_at};
ghost use Rattle.lookups.specs.InPlace.{offset_limit, Width, XorIn, Fits, XorMade, LookedUp};
ghost use Rattle.lookups.specs.Layer.{SpreadAsked, SpreadMade, WordIn, WordAt};

use crate::area;
use layout::stage::{ENTRY_LOOKUPS, HALF_LOOKUPS, SPREADS, Stage, source_of, width_of};
use network::EntryPlace;

// The words of a spread table, one for each byte that may be looked up; those of all spread tables of a stage or half;
// and the bytes of an XOR table, and of two.
const WORDS: usize = 256;

pub const SPREAD_WORDS: usize = SPREADS * WORDS;

pub const XOR_BYTES: usize = 128;

pub const PAIR_BYTES: usize = 2 * XOR_BYTES;

// Where the bytes of a word of a group stand that are added to the group's sum: the first byte of the sum and of the
// word in the area, and the first byte of their tables behind where those of the stage or half begin.
#[derive(Clone, Copy)]
pub struct Word {
    pub sum: usize,
    pub added: usize,
    pub tables: usize,
}

// All lookups of a stage or half.
pub fn lookups_of(width: usize) -> usize
    requires { Width width }
    ensures { result ≡ layer_lookups width }
{
    if width == 16 {
        ENTRY_LOOKUPS
    } else {
        HALF_LOOKUPS
    }
}

// XOR lookup x of a stage or half. Entry and exit have one group of 16 words, a half has four of 4 words. Hands back
// the entry that was read.
fn xor_in(area: &mut [u8; 256], table: &[u8], width: usize, x: usize) -> usize
    requires { XorIn width x × (length table.now ≡ 128) }
    ensures { XorMade width x table.now area.old result area.new }
{
    if width == 16 {
        area::xor(area, table, x % 32, x + 32)
    } else {
        let group = x / 24 * 32;
        area::xor(area, table, group + x % 8, group + 8 + x % 24)
    }
}

// The place of entry e of an XOR table that begins at byte `from` of the set.
pub fn xor_place(from: usize, e: usize) -> EntryPlace
    requires { (from ≤ offset_limit) × (e < 256) }
    ensures { result ≡ nibble_place from e }
{
    let at = from + e / 2;
    EntryPlace {
        offset: at,
        half: e % 2,
    }
}

// Lookup j of a stage or half, of a walk for a cipher, over its table, which begins at byte `from` of the set. "The
// last XOR of a stage or half copies the sums to the standing bytes and zeroes the area." Hands back the place of the
// entry that was read (document 02, Ticket 2).
pub fn lookup_in(
    cipher: u64,
    standing: &mut [u8; 16],
    area: &mut [u8; 256],
    table: &[u8],
    from: usize,
    stage: Stage,
    j: usize,
) -> EntryPlace
    requires { Fits stage j from (length table.now) }
    ensures { LookedUp (shape_at (reads_of cipher) stage) j table.now from
        standing.old area.old result standing.new area.new }
{
    let width = width_of(stage);
    if j < SPREADS {
        let i = source_of(cipher, stage, j);
        let word = area::spread_at(area, table, stage, j, standing[i]);
        let at = from + word;
        return EntryPlace {
            offset: at,
            half: 0,
        };
    }
    let e = xor_in(area, table, width, j - SPREADS);
    let read = xor_place(from, e);
    if j + 1 != lookups_of(width) {
        return read;
    }
    finish(standing, area, width);
    read
}

// Spread lookup p of a stage or half, whose tables begin at byte `from` of the set, where the compiler knows the width:
// the word is moved at once. Hands back the byte of the set where the word begins that was read.
pub fn spread_of_width<const WIDTH: usize>(
    cipher: u64,
    standing: &[u8; 16],
    area: &mut [u8; 256],
    set: &[u8],
    from: usize,
    stage: Stage,
    p: usize,
) -> usize
    requires { SpreadAsked stage p from (length set.now) × (WIDTH ≡ width_of stage) }
    ensures { SpreadMade (shape_at (reads_of cipher) stage) set.now from p
        standing.now area.old result area.new }
{
    let size = WORDS * WIDTH;
    let start = from + p * size;
    let end = start + size;
    let i = source_of(cipher, stage, p);
    let word = area::spread::<WIDTH>(area, &set[start..end], p, standing[i]);
    start + word
}

// The same, for a caller that has the stage alone.
pub fn spread_in(
    cipher: u64,
    standing: &[u8; 16],
    area: &mut [u8; 256],
    set: &[u8],
    from: usize,
    stage: Stage,
    p: usize,
) -> usize
    requires { SpreadAsked stage p from (length set.now) }
    ensures { SpreadMade (shape_at (reads_of cipher) stage) set.now from p
        standing.now area.old result area.new }
{
    if width_of(stage) == 16 {
        spread_of_width::<16>(cipher, standing, area, set, from, stage, p)
    } else {
        spread_of_width::<4>(cipher, standing, area, set, from, stage, p)
    }
}

// Word t of group g: "rounds, column, then word 1 to 3", each of its bytes two tables.
pub fn word_in(width: usize, g: usize, t: usize) -> Word
    requires { WordIn width g t }
    ensures { WordAt width g t result }
{
    let sum = g * width * width;
    let turns = g * (width - 1) + t - 1;
    Word {
        sum,
        added: sum + t * width,
        tables: SPREAD_WORDS * width + turns * (PAIR_BYTES * width),
    }
}

// Behind the last lookup of a stage or half: the sums become the standing bytes, and the area zero.
pub fn finish(standing: &mut [u8; 16], area: &mut [u8; 256], width: usize)
    requires { Width width }
    ensures { (standing.new ≡ sums width area.old) × (area.new ≡ zero_area) }
{
    area::take_sums(standing, area, width);
    area::clear(area);
}
