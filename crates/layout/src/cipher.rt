// The two ciphers, by the number that a call names: "0 forward, any other number inverse" (document 02, Ticket 1).
ghost use Rattle.std.specs.Prelude.{◌≡◌, ◌<◌};
ghost use Rattle.layout.specs.Stages.{shifted};
ghost use Rattle.layout.specs.Ciphers.{kept, inv_shifted, reads_of};

// The forward cipher, with which the programs stay.
pub const FORWARD: u64 = 0;

// The number that a walk keeps: 0 or 1. The calls and a held walk take any number of 64 bits, so it is no enum there.
pub fn kept(cipher: u64) -> u64
    ensures { result ≡ kept cipher }
{
    if cipher == 0 { 0 } else { 1 }
}

// The row shift of FIPS 197: "position p = 4c+q: read byte j = 4((c+q) mod 4)+q".
fn shifted(p: usize) -> usize
    ensures { (result ≡ shifted p) × (result < 16) }
{
    4 * ((p / 4 + p % 4) % 4) + p % 4
}

// The inverse row shift: byte 4((c−q) mod 4)+q.
fn inv_shifted(p: usize) -> usize
    ensures { (result ≡ inv_shifted p) × (result < 16) }
{
    4 * ((p / 4 + (4 - p % 4)) % 4) + p % 4
}

// The byte that a position of a first half or of the exit reads.
pub fn reads_of(cipher: u64, p: usize) -> usize
    ensures { (result ≡ reads_of cipher p) × (result < 16) }
{
    if cipher == 0 {
        shifted(p)
    } else {
        inv_shifted(p)
    }
}
