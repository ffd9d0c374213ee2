// All lookups of a stage or half over a set, in place: what a walk makes at once where it may. The definitions are
// those of specs/ and of crate lookups.

#![tactic(auto)]

ghost use Rattle.std.specs.Prelude.{◌≡◌, ◌+◌, ◌*◌, ◌/◌, ◌≤◌, ◌<◌, length};
ghost use Rattle.network.specs.Order.{xors};
ghost use Rattle.network.specs.Sizes.{layer_bytes};
ghost use Rattle.layout.specs.Ciphers.{reads_of};
ghost use Rattle.layout.specs.Stages.{width_of, shape_at};
ghost use Rattle.lookups.specs.InPlace.{Width};
ghost use Rattle.lookups.specs.Layer.{LayerStands, WordIn, word_first, word_xors, group_xors, spreads_in};
ghost use Rattle.layer_lookups.specs.Whole.{XorsMade, LayerMade, GroupAsked};

use layout::stage::{SPREADS, Stage, width_of};
use lookups::layer;
use lookups::layer::{PAIR_BYTES, SPREAD_WORDS, XOR_BYTES};
use lookups::pair::xor_byte;
use network::EntryPlace;

// All spread lookups of a stage or half, whose tables begin at byte `from` of the set.
fn spread_all<const WIDTH: usize>(
    cipher: u64,
    standing: &[u8; 16],
    area: &mut [u8; 256],
    set: &[u8],
    from: usize,
    stage: Stage,
)
    requires { LayerStands stage from (length set.now) × (WIDTH ≡ width_of stage) }
    ensures { area.new
        ≡ spreads_in (shape_at (reads_of cipher) stage) set.now from standing.now 16 area.old }
{
    for p in 0..SPREADS {
        layer::spread_of_width::<WIDTH>(cipher, standing, area, set, from, stage, p);
    }
}

// The XOR lookups of word t of group g, two for each of its bytes. Hands back the entry that the last read.
fn xor_word<const WIDTH: usize>(
    area: &mut [u8; 256],
    set: &[u8],
    from: usize,
    g: usize,
    t: usize,
) -> usize
    requires { WordIn WIDTH g t × (from + layer_bytes WIDTH ≤ length set.now) }
    ensures { XorsMade WIDTH set.now from (word_first WIDTH g t) (word_xors WIDTH)
        area.old result area.new }
{
    let word = layer::word_in(WIDTH, g, t);
    let sum = word.sum;
    let added = word.added;
    let start = from + word.tables;
    let mut last = 0;
    for i in 0..WIDTH {
        let high = start + i * PAIR_BYTES;
        let low = high + XOR_BYTES;
        let end = low + XOR_BYTES;
        last = xor_byte(area, &set[high..low], &set[low..end], sum + i, added + i);
    }
    last
}

// Those of a group, word by word.
fn xor_group<const WIDTH: usize>(area: &mut [u8; 256], set: &[u8], from: usize, g: usize) -> usize
    requires { GroupAsked WIDTH g from (length set.now) }
    ensures { XorsMade WIDTH set.now from (g * group_xors WIDTH) (group_xors WIDTH)
        area.old result area.new }
{
    let mut last = 0;
    for t in 1..WIDTH {
        last = xor_word::<WIDTH>(area, set, from, g, t);
    }
    last
}

// All XOR lookups of a stage or half, whose tables begin at byte `from` of the set, behind those of the spread lookups:
// "rounds, column, then word 1 to 3, then half-byte 0 to 7". Hands back the entry that the last read.
fn xor_all<const WIDTH: usize>(area: &mut [u8; 256], set: &[u8], from: usize) -> usize
    requires { Width WIDTH × (from + layer_bytes WIDTH ≤ length set.now) }
    ensures { XorsMade WIDTH set.now from 0 (xors WIDTH) area.old result area.new }
{
    let groups = SPREADS / WIDTH;
    let mut last = 0;
    for g in 0..groups {
        last = xor_group::<WIDTH>(area, set, from, g);
    }
    last
}

// All lookups of a stage or half whose width the compiler knows.
fn layer_of_width<const WIDTH: usize>(
    cipher: u64,
    standing: &mut [u8; 16],
    area: &mut [u8; 256],
    set: &[u8],
    from: usize,
    stage: Stage,
) -> EntryPlace
    requires { LayerStands stage from (length set.now) × (WIDTH ≡ width_of stage) }
    ensures { LayerMade (shape_at (reads_of cipher) stage) set.now from
        standing.old area.old result standing.new area.new }
{
    // The last table: behind those of the spread lookups and of all XOR lookups but one.
    let last = layer::lookups_of(WIDTH) - 1;
    let table = from + SPREAD_WORDS * WIDTH + (last - SPREADS) * XOR_BYTES;
    spread_all::<WIDTH>(cipher, standing, area, set, from, stage);
    let e = xor_all::<WIDTH>(area, set, from);
    layer::finish(standing, area, WIDTH);
    layer::xor_place(table, e)
}

// All lookups of a stage or half, whose tables begin at byte `from` of the set. Hands back the place that the last one
// read.
pub fn layer_in(
    cipher: u64,
    standing: &mut [u8; 16],
    area: &mut [u8; 256],
    set: &[u8],
    from: usize,
    stage: Stage,
) -> EntryPlace
    requires { LayerStands stage from (length set.now) }
    ensures { LayerMade (shape_at (reads_of cipher) stage) set.now from
        standing.old area.old result standing.new area.new }
{
    if width_of(stage) == 16 {
        layer_of_width::<16>(cipher, standing, area, set, from, stage)
    } else {
        layer_of_width::<4>(cipher, standing, area, set, from, stage)
    }
}
