// What the tables of a set are made from: the cipher, the bundle and the round keys.
ghost use Rattle.std.specs.Prelude.{◌≡◌, ◌+◌, ◌*◌, ◌<◌, ◌≤◌, length};
ghost use Rattle.bits.specs.Bytes.{Bytes};
ghost use Rattle.bits.specs.Lists.{at};
ghost use Rattle.round.specs.Key.{key_of};
ghost use Rattle.whitebox.specs.Parts.{parts_for};
ghost use Rattle.substitution.specs.Asked.{Position};

use view::opened::Opened;

// A cipher, an accepted bundle and as many round keys as it has rounds for.
#[derive(Clone, Copy)]
pub struct Source<'a> {
    pub cipher: u64,
    pub opened: Opened<'a>,
    pub keys: &'a [u8],
    pub ghost key_bytes: { Bytes keys.now },
    pub ghost key_count: { length keys.now ≡ 16 * (opened.rounds + 1) },
}

// The bytes of a round key.
const KEY_BYTES: usize = 16;

// Byte j of round key k.
fn key_byte(keys: &[u8], k: usize, j: usize) -> u8
    requires { (k ≤ 14) × (16 * (k + 1) ≤ length keys.now) × (j < 16) }
    ensures { result ≡ at (key_of keys.now k) j }
{
    keys[KEY_BYTES * k + j]
}

impl<'a> Source<'a> {
    // The key byte before the S-box of round r, that of the byte j that is read: of round key r−1; for the inverse
    // cipher, of the last round key in round 1, else none.
    pub(crate) fn key_before(&self, r: usize, j: usize) -> u8
        requires { Position self.now.opened.rounds r j }
        ensures { result ≡ (parts_for self.now.cipher self.now.opened.rounds self.now.keys.now).before r j }
    {
        let rounds = self.opened.rounds;
        if self.cipher == 0 {
            return key_byte(self.keys, r - 1, j);
        }
        if r == 1 {
            key_byte(self.keys, rounds, j)
        } else {
            0
        }
    }

    // The key byte behind it, that of position p: of the last round key in the last round, else none; for the inverse
    // cipher, of round key Nr−r.
    pub(crate) fn key_behind(&self, r: usize, p: usize) -> u8
        requires { Position self.now.opened.rounds r p }
        ensures { result ≡ (parts_for self.now.cipher self.now.opened.rounds self.now.keys.now).behind r p }
    {
        let rounds = self.opened.rounds;
        if self.cipher != 0 {
            return key_byte(self.keys, rounds - r, p);
        }
        if r == rounds {
            key_byte(self.keys, rounds, p)
        } else {
            0
        }
    }
}
