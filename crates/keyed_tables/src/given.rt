// What tables are made for, once it was judged: a cipher, a key and a bundle.
ghost use Rattle.std.specs.Prelude.{◌≡◌, ◌+◌, ◌*◌, ◌≤◌, length, take};
ghost use Rattle.answers.specs.Answer.{Accepted};
ghost use Rattle.rounds.specs.Rounds.{Rounds};
ghost use Rattle.round.specs.Key.{rounds_of, KeyExpansion};
ghost use Rattle.judgement.specs.Judge.{judge};

use round::key::{MORE_ROUNDS, expand};
use substitution::source::Source;
use view::opened::Opened;

// A cipher, a key of so many words, and a bundle that is accepted for its rounds.
#[derive(Clone, Copy)]
pub struct Given<'a> {
    pub cipher: u64,
    pub words: usize,
    pub key: &'a [u8],
    pub bundle: &'a [u8],
    pub ghost known: { Rounds (rounds_of words) },
    pub ghost long: { length key.now ≡ 4 * words },
    pub ghost accepted: { judge (rounds_of words) bundle.now ≡ Accepted },
}

impl<'a> Given<'a> {
    // Of a key and a bundle that a call has judged.
    pub fn new(cipher: u64, words: usize, key: &'a [u8], bundle: &'a [u8]) -> Self
        requires { Rounds (rounds_of words) × (length key.now ≡ 4 * words)
            × (judge (rounds_of words) bundle.now ≡ Accepted) }
        ensures cipher { result.cipher ≡ cipher }
        ensures words { result.words ≡ words }
        ensures key { result.key.now ≡ key.now }
        ensures bundle { result.bundle.now ≡ bundle.now }
    {
        Given {
            cipher,
            words,
            key,
            bundle,
        }
    }

    // Its round keys, into the front of `keys`; how many bytes they are.
    pub(crate) fn round_keys(&self, keys: &mut [u8]) -> usize
        requires { 16 * (rounds_of self.now.words + 1) ≤ length keys.old }
        ensures count { result ≡ 16 * (rounds_of self.now.words + 1) }
        ensures front { take result keys.new ≡ KeyExpansion self.now.words self.now.key.now }
    {
        let n = 16 * (self.words + MORE_ROUNDS + 1);
        expand(self.words, self.key, &mut keys[0..n]);
        n
    }

    // What its tables are made from, with these round keys.
    pub(crate) fn source(self, keys: &'a [u8]) -> Source<'a>
        requires { length keys.now ≡ 16 * (rounds_of self.words + 1) }
        ensures cipher { result.cipher ≡ self.entry.cipher }
        ensures rounds { result.opened.rounds ≡ rounds_of self.entry.words }
        ensures bundle { result.opened.bundle.now ≡ self.entry.bundle.now }
        ensures keys { result.keys.now ≡ keys.now }
    {
        Source {
            cipher: self.cipher,
            opened: Opened::new(self.words + MORE_ROUNDS, self.bundle),
            keys,
        }
    }
}
