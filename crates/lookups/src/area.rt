// The spread area, changed in place.
ghost use Rattle.std.specs.Prelude.{◌≡◌, ◌+◌, ◌*◌, ◌/◌, ◌%◌, ◌<◌, ◌≤◌, length};
ghost use Rattle.network.specs.Lookups.{sums, zero_area};
ghost use Rattle.layout.specs.Stages.{width_of};
ghost use Rattle.lookups.specs.InPlace.{Width, SpreadIn, with_half, SpreadRead, XorRead};

use crate::pair::{half_of, index_of, joined, xor_entry};
use layout::stage::{Stage, width_of};
use std::array;

// The byte x with the half replaced by v that is nibble q of a list.
fn with_half(x: u8, q: usize, v: usize) -> u8
    requires { v < 16 }
    ensures { result ≡ with_half x q v }
{
    if q % 2 == 0 {
        joined(v, half_of(x, 1))
    } else {
        joined(half_of(x, 0), v)
    }
}

// An XOR lookup: the nibbles at `sum` and `added` pick the nibble of the table that replaces the first. Hands
// back the entry that was read.
pub fn xor(area: &mut [u8; 256], table: &[u8], sum: usize, added: usize) -> usize
    requires { (sum < 512) × (added < 512) × (length table.now ≡ 128) }
    ensures { XorRead table.now sum added area.old result area.new }
{
    let i = sum / 2;
    let j = added / 2;
    let a = half_of(area[i], sum);
    let b = half_of(area[j], added);
    let e = index_of(a, b);
    let v = xor_entry(table, e);
    area[i] = with_half(area[i], sum, v);
    e
}

// A spread lookup: the byte s picks a word of the table, which becomes word p of the area. It is read whole before it is
// written: the compiler cannot know that the table and the area lie apart, and would test it or move the word byte by
// byte. Hands back the byte of the table where it begins.
pub fn spread<const WIDTH: usize>(area: &mut [u8; 256], table: &[u8], p: usize, s: u8) -> usize
    requires { SpreadIn WIDTH p (length table.now) }
    ensures { SpreadRead table.now WIDTH p s area.old result area.new }
{
    let to = p * WIDTH;
    let from = usize::from(s) * WIDTH;
    let mut word = [0u8; 16];
    word[..WIDTH].copy_from_slice(&table[from..from + WIDTH]);
    area[to..to + WIDTH].copy_from_slice(&word[..WIDTH]);
    from
}

// That of a stage. The compiler so knows how wide the words are: one of any width would be moved by the C library's
// `memmove`, which a host without it could not link.
pub fn spread_at(area: &mut [u8; 256], table: &[u8], stage: Stage, p: usize, s: u8) -> usize
    requires { SpreadIn (width_of stage) p (length table.now) }
    ensures { SpreadRead table.now (width_of stage) p s area.old result area.new }
{
    let width = width_of(stage);
    if width == 16 {
        return spread::<16>(area, table, p, s);
    }
    if width == 4 {
        return spread::<4>(area, table, p, s);
    }
    // Behind the exit there are no words.
    spread::<0>(area, table, p, s)
}

// Where byte q of the sums stands: in word 0 of its group.
fn sum_at(width: usize, q: usize) -> usize
    requires { Width width × (q < 16) }
    ensures { (result ≡ q / width * width * width + q % width) × (result < 256) }
{
    if width == 16 { q } else { q / 4 * 16 + q % 4 }
}

// The sums, word 0 of each group, become the standing bytes.
pub fn take_sums(standing: &mut [u8; 16], area: &[u8; 256], width: usize)
    requires { Width width }
    ensures { standing.new ≡ sums width area.now }
{
    *standing = array::from_fn(|q| area[sum_at(width, q)]);
}

// The area is made zero.
pub fn clear(area: &mut [u8; 256])
    ensures { area.new ≡ zero_area }
{
    area.fill(0);
}
