// The lookups of a stage or half over a set, made in place, with what is recorded of each written into lent memory as
// it is made: document 02, Ticket 3. The definitions are those of specs/ and of crate lookups.

#![tactic(auto)]

ghost use Rattle.std.specs.Prelude.{◌∷◌, ◌++◌, [], ◌≡◌, ◌+◌, ◌*◌, ◌/◌, ◌%◌, ◌<◌, ◌≤◌, length};
ghost use Rattle.bits.specs.Bytes.{bytes_of};
ghost use Rattle.bits.specs.Nibbles.{half, pack};
ghost use Rattle.network.specs.Order.{xors, layer_lookups};
ghost use Rattle.layout.specs.Ciphers.{reads_of};
ghost use Rattle.layout.specs.Stages.{width_of, shape_at};
ghost use Rattle.lookups.specs.Layer.{LayerStands, WordIn, word_xors, word_first, group_xors};
ghost use Rattle.layer_record.specs.Entries.{offset_bytes, entry_size};
ghost use Rattle.layer_record.specs.Layer.{LayerRecorded};
ghost use Rattle.layer_record.specs.Parts.{XorsAsked, ByteAsked, OffsetPut, ByteRecorded, XorsRecorded, SpreadsRecorded};

use layout::stage::{SPREADS, Stage, width_of};
use lookups::layer;
use lookups::layer::{PAIR_BYTES, XOR_BYTES};
use lookups::pair::{half_of, index_of, joined, xor_entry};

// The bytes of an offset, of an entry, and of the two entries of a byte of the area.
const OFFSET_BYTES: usize = 4;

pub const ENTRY_BYTES: usize = OFFSET_BYTES + 1;

const PAIR_ENTRIES: usize = 2 * ENTRY_BYTES;

// "An offset in 4 bytes, most significant first."
fn put_offset(part: &mut [u8], offset: usize)
    requires { length part.old ≡ offset_bytes }
    ensures { part.new ≡ bytes_of offset_bytes offset }
{
    part.copy_from_slice(&((offset % 4294967296) as u32).to_be_bytes());
}

// The whole entry.
fn put_entry(part: &mut [u8], offset: usize, value: u8)
    requires { length part.old ≡ entry_size }
    ensures { part.new ≡ bytes_of offset_bytes offset ++ (value ∷ []) }
{
    put_offset(&mut part[0..OFFSET_BYTES], offset);
    part[OFFSET_BYTES] = value;
}

// All spread lookups of a stage or half, whose tables begin at byte `from` of the set.
fn record_spreads<const WIDTH: usize>(
    cipher: u64,
    standing: &[u8; 16],
    area: &mut [u8; 256],
    set: &[u8],
    from: usize,
    stage: Stage,
    recorded: &mut [u8],
)
    requires { LayerStands stage from (length set.now) × (WIDTH ≡ width_of stage)
        × (length recorded.old ≡ 16 * entry_size) }
    ensures { SpreadsRecorded (shape_at (reads_of cipher) stage) set.now from
        standing.now area.old area.new recorded.new }
{
    for p in 0..SPREADS {
        let at = p * ENTRY_BYTES;
        let to = at + ENTRY_BYTES;
        let offset = layer::spread_of_width::<WIDTH>(cipher, standing, area, set, from, stage, p);
        put_entry(&mut recorded[at..to], offset, set[offset]);
    }
}

// The entry that the high halves of two bytes pick, or their low halves.
fn entry_of(a: u8, b: u8, q: usize) -> usize
    ensures { (result ≡ pack (half (q % 2) a) (half (q % 2) b)) × (result < 256) }
{
    index_of(half_of(a, q), half_of(b, q))
}

// Entry e of the XOR table that begins at byte `from` of the set. Its offset is written first, and then it is read.
fn note_entry(set: &[u8], from: usize, e: usize, part: &mut [u8]) -> usize
    requires { (from + 128 ≤ length set.now) × (e < 256) × (length part.old ≡ offset_bytes) }
    ensures { OffsetPut set.now from e result part.new }
{
    let end = from + XOR_BYTES;
    put_offset(part, from + e / 2);
    xor_entry(&set[from..end], e)
}

// The two XOR lookups of the byte at `sum`, over two tables, one behind the other from byte `high` of the set. The
// order is for speed: the compiler makes one store of the four of an offset only where a read stands between them and
// the stores before.
fn record_byte(
    area: &mut [u8; 256],
    set: &[u8],
    high: usize,
    sum: usize,
    added: usize,
    recorded: &mut [u8],
)
    requires { ByteAsked sum added high set.now recorded.old }
    ensures { ByteRecorded set.now high sum added
        area.old area.new recorded.new }
{
    let low = high + XOR_BYTES;
    let value = ENTRY_BYTES + OFFSET_BYTES;
    let a = area[sum];
    let b = area[added];
    let h = note_entry(set, high, entry_of(a, b, 0), &mut recorded[0..OFFSET_BYTES]);
    let l = note_entry(
        set,
        low,
        entry_of(a, b, 1),
        &mut recorded[ENTRY_BYTES..value],
    );
    recorded[OFFSET_BYTES] = h as u8;
    recorded[value] = l as u8;
    area[sum] = joined(h, l);
}

// The XOR lookups of word t of group g, two for each of its bytes.
fn record_word<const WIDTH: usize>(
    area: &mut [u8; 256],
    set: &[u8],
    from: usize,
    g: usize,
    t: usize,
    recorded: &mut [u8],
)
    requires { WordIn WIDTH g t × XorsAsked WIDTH from (length set.now)
        × (length recorded.old ≡ word_xors WIDTH * entry_size) }
    ensures { XorsRecorded WIDTH set.now from (word_first WIDTH g t) (word_xors WIDTH)
        area.old area.new recorded.new }
{
    let word = layer::word_in(WIDTH, g, t);
    let sum = word.sum;
    let added = word.added;
    let start = from + word.tables;
    for i in 0..WIDTH {
        let at = i * PAIR_ENTRIES;
        let to = at + PAIR_ENTRIES;
        record_byte(
            area,
            set,
            start + i * PAIR_BYTES,
            sum + i,
            added + i,
            &mut recorded[at..to],
        );
    }
}

// Those of a group, word by word.
fn record_group<const WIDTH: usize>(
    area: &mut [u8; 256],
    set: &[u8],
    from: usize,
    g: usize,
    recorded: &mut [u8],
)
    requires { (g < 16 / WIDTH) × XorsAsked WIDTH from (length set.now)
        × (length recorded.old ≡ group_xors WIDTH * entry_size) }
    ensures { XorsRecorded WIDTH set.now from (g * group_xors WIDTH) (group_xors WIDTH)
        area.old area.new recorded.new }
{
    let size = PAIR_ENTRIES * WIDTH;
    for t in 1..WIDTH {
        let at = (t - 1) * size;
        let to = at + size;
        record_word::<WIDTH>(area, set, from, g, t, &mut recorded[at..to]);
    }
}

// All XOR lookups of a stage or half, whose tables begin at byte `from` of the set, behind those of the spread lookups:
// "rounds, column, then word 1 to 3, then half-byte 0 to 7".
fn record_xors<const WIDTH: usize>(
    area: &mut [u8; 256],
    set: &[u8],
    from: usize,
    recorded: &mut [u8],
)
    requires { XorsAsked WIDTH from (length set.now) × (length recorded.old ≡ xors WIDTH * entry_size) }
    ensures { XorsRecorded WIDTH set.now from 0 (xors WIDTH)
        area.old area.new recorded.new }
{
    let groups = SPREADS / WIDTH;
    let size = PAIR_ENTRIES * WIDTH * (WIDTH - 1);
    for g in 0..groups {
        let at = g * size;
        let to = at + size;
        record_group::<WIDTH>(area, set, from, g, &mut recorded[at..to]);
    }
}

// All lookups of a stage or half whose width the compiler knows.
fn record_of_width<const WIDTH: usize>(
    cipher: u64,
    standing: &mut [u8; 16],
    area: &mut [u8; 256],
    set: &[u8],
    from: usize,
    stage: Stage,
    recorded: &mut [u8],
)
    requires { LayerStands stage from (length set.now) × (WIDTH ≡ width_of stage)
        × (length recorded.old ≡ layer_lookups (width_of stage) * entry_size) }
    ensures { LayerRecorded (shape_at (reads_of cipher) stage) set.now from
        standing.old area.old standing.new area.new recorded.new }
{
    let mid = SPREADS * ENTRY_BYTES;
    let end = recorded.len();
    record_spreads::<WIDTH>(
        cipher,
        standing,
        area,
        set,
        from,
        stage,
        &mut recorded[0..mid],
    );
    record_xors::<WIDTH>(area, set, from, &mut recorded[mid..end]);
    layer::finish(standing, area, WIDTH);
}

// All lookups of a stage or half, whose tables begin at byte `from` of the set.
pub fn record_layer(
    cipher: u64,
    standing: &mut [u8; 16],
    area: &mut [u8; 256],
    set: &[u8],
    from: usize,
    stage: Stage,
    recorded: &mut [u8],
)
    requires { LayerStands stage from (length set.now)
        × (length recorded.old ≡ layer_lookups (width_of stage) * entry_size) }
    ensures { LayerRecorded (shape_at (reads_of cipher) stage) set.now from
        standing.old area.old standing.new area.new recorded.new }
{
    if width_of(stage) == 16 {
        record_of_width::<16>(cipher, standing, area, set, from, stage, recorded);
    } else {
        record_of_width::<4>(cipher, standing, area, set, from, stage, recorded);
    }
}
