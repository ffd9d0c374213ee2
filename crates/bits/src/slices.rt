// What is read out of a slice of bytes: a part by number, and the number that four bytes write.
ghost use Rattle.std.specs.Prelude.{◌≡◌, ◌+◌, ◌<◌, ◌≤◌, length};
ghost use Rattle.bits.specs.Bytes.{number_at};
ghost use Rattle.bits.specs.Lists.{part_of};

use crate::vector;

// Part n of a slice in parts of one size; behind the whole parts stands the rest, and behind that nothing.
pub fn part<'a>(s: &'a [u8], size: usize, n: usize) -> &'a [u8]
    ensures { result.now ≡ part_of size s.now n }
{
    if size == 0 {
        return &s[0..0];
    }
    let whole = s.len() / size;
    if whole < n {
        return &s[0..0];
    }
    let a = n * size;
    if whole == n {
        let e = s.len();
        return &s[a..e];
    }
    let e = a + size;
    &s[a..e]
}

// The number that four bytes write, from place a on.
pub fn number_at(s: &[u8], a: usize) -> usize
    requires { a + 4 ≤ length s.now }
    ensures { (result ≡ number_at s.now a) × (result < 4294967296) }
{
    let v = vector::read(s, a, 4);
    let n = v.lo;
    n as usize
}
