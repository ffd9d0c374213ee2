// FIPS 197's field of 256 elements (section 4.2) and its two S-boxes.

#![tactic(auto)]

mod inv_sbox;
mod sbox;

ghost use Rattle.std.specs.Prelude.{◌≡◌, cond, ◌%◌, eqb};
ghost use Rattle.field.specs.Field.{xtime, mul};

pub use inv_sbox::{inv_sbox_table, inv_sub};
pub use sbox::{sbox_table, sub};

// x times a.
fn xtimes(a: u8) -> u8
    ensures { result ≡ xtime a }
{
    if a < 128 { a * 2 } else { (a - 128) * 2 ^ 27 }
}

// a where the lowest bit of b is 1, else 0.
fn share(a: u8, b: u8) -> u8
    ensures { result ≡ cond (eqb (b % 2) 1) a 0 }
{
    if b % 2 == 1 { a } else { 0 }
}

// a times b, bit after bit of b.
pub fn product(a: u8, b: u8) -> u8
    ensures { result ≡ mul a b }
{
    let mut x = a;
    let mut y = b;
    let mut sum: u8 = 0;
    for _done in 0u8..8 {
        sum ^= share(x, y);
        x = xtimes(x);
        y /= 2;
    }
    sum
}
