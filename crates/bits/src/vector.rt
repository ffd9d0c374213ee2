// Vectors of up to 128 bits.
ghost use Rattle.std.specs.Prelude.{◌≡◌, ◌+◌, ◌*◌, ◌/◌, ◌%◌, ◌^◌, ◌<◌, ◌≤◌, length};
ghost use Rattle.std.specs.Int.Bits.{bit_xor};
ghost use Rattle.bits.specs.Bytes.{number, bytes_of};
ghost use Rattle.bits.specs.Lists.{at};
ghost use Rattle.bits.specs.Vectors.{dot};
ghost use Rattle.bits.specs.Words.{value};

// A vector as the number hi * 2^64 + lo; `value` of specs/ gives it.
#[derive(Clone, Copy)]
pub struct Vector {
    pub hi: u64,
    pub lo: u64,
}

// The parity of the ones that two vectors share: of one word, since the parities of two words add up to that of their xor.
pub fn parity(a: Vector, b: Vector) -> u64
    ensures { result ≡ dot (value a) (value b) }
{
    u64::from(u64::count_ones((a.hi & b.hi) ^ (a.lo & b.lo))) % 2
}

// Digit s, from the bottom; 0 above the vector.
pub fn digit(v: Vector, s: usize) -> u64
    ensures { result ≡ value v / 2 ^ s % 2 }
{
    if s < 64 {
        (v.lo >> s) % 2
    } else if s < 128 {
        (v.hi >> (s - 64)) % 2
    } else {
        0
    }
}

// Byte k, from the bottom.
pub fn byte(v: Vector, k: usize) -> u8
    requires { k < 16 }
    ensures { result ≡ value v / 2 ^ (8 * k) % 256 }
{
    if k < 8 {
        ((v.lo >> (8 * k)) % 256) as u8
    } else {
        ((v.hi >> (8 * k - 64)) % 256) as u8
    }
}

// The vector with one bit more at the bottom, the lowest of b; the top bit of 128 falls out.
pub fn push_bit(v: Vector, b: u64) -> Vector
    ensures { value result ≡ (value v * 2 + b % 2) % 2 ^ 128 }
{
    let top = v.lo / 9223372036854775808;
    let rest = v.lo % 9223372036854775808;
    Vector {
        hi: v.hi % 9223372036854775808 * 2 + top,
        lo: rest * 2 + b % 2,
    }
}

// The vector with one byte more at the bottom.
fn push_byte(v: Vector, b: u8) -> Vector
    requires { value v < 2 ^ 120 }
    ensures { value result ≡ value v * 256 + b }
{
    let top = v.lo / 72057594037927936;
    let rest = v.lo % 72057594037927936;
    Vector {
        hi: v.hi * 256 + top,
        lo: rest * 256 + u64::from(b),
    }
}

// The vector whose only one is digit s; 0 where a vector of 128 bits has no such digit.
pub fn power(s: usize) -> Vector
    ensures { value result ≡ 2 ^ s % 2 ^ 128 }
{
    let one: u64 = 1;
    if s < 64 {
        Vector {
            hi: 0,
            lo: one << s,
        }
    } else if s < 128 {
        Vector {
            hi: one << (s - 64),
            lo: 0,
        }
    } else {
        Vector { hi: 0, lo: 0 }
    }
}

// x times the lowest bit of c, with no branch and no product of two unknown words.
pub fn masked(c: u64, x: u64) -> u64
    ensures { result ≡ c % 2 * x }
{
    x & (c % 2 * 18446744073709551615)
}

// a xor the lowest bit of c times b.
pub fn add(a: Vector, c: u64, b: Vector) -> Vector
    ensures { value result ≡ bit_xor (value a) (c % 2 * value b) }
{
    Vector {
        hi: a.hi ^ masked(c, b.hi),
        lo: a.lo ^ masked(c, b.lo),
    }
}

// The number that w bytes write, from place a on.
pub fn read(s: &[u8], a: usize, w: usize) -> Vector
    requires { (w ≤ 16) × (a + w ≤ length s.now) }
    ensures { value result ≡ number w (λ j. at s.now (a + j)) }
{
    let mut v = Vector { hi: 0, lo: 0 };
    for j in 0..w {
        v = push_byte(v, s[a + j]);
    }
    v
}

// The lowest bytes of a vector, as many as there is room for.
pub fn write(v: Vector, dst: &mut [u8])
    requires { length dst.old ≤ 16 }
    ensures { dst.new ≡ bytes_of (length dst.old) (value v) }
{
    let w = dst.len();
    for (i, x) in dst.iter_mut().enumerate() {
        *x = byte(v, w - 1 - i);
    }
}
