// Causes 2 and 3: the bundle's length and its five pairs.
ghost use Rattle.std.specs.Prelude.{◌≡◌, ◌<◌, ◌≤◌, length};
ghost use Rattle.rounds.specs.Rounds.{Rounds};
ghost use Rattle.bundle.specs.Format.{shortest, longest, end_before, pair_bad, frame};
ghost use Rattle.answers.specs.Search.{first};

use crate::layout;
use answers::Refusal;
use bits::slices;
use rounds::TEN;

// The longest bundle of ten rounds, and of 12 and 14.
pub const LONGEST: usize = 65536;

const LONGEST_OF_MORE: usize = 131072;

// The bytes of the shortest bundle: the five pairs and the five sections.
fn shortest_of(rounds: usize) -> usize
    requires { Rounds rounds }
    ensures { result ≡ shortest rounds }
{
    let lists = layout::section_length(rounds, 0);
    let bytes = layout::section_length(rounds, 1);
    let columns = layout::section_length(rounds, 2);
    let input = layout::section_length(rounds, 3);
    let output = layout::section_length(rounds, 4);
    40 + lists + bytes + columns + input + output
}

// The bytes of the longest.
fn longest_of(rounds: usize) -> usize
    requires { Rounds rounds }
    ensures { result ≡ longest rounds }
{
    if rounds == TEN {
        LONGEST
    } else {
        LONGEST_OF_MORE
    }
}

// What section i has to start behind.
fn end_before(bundle: &[u8], i: usize) -> usize
    requires { (i < 5) × (40 ≤ length bundle.now) }
    ensures { result ≡ end_before bundle.now i }
{
    if i == 0 {
        return 40;
    }
    let at = 8 * (i - 1);
    let o = slices::number_at(bundle, at);
    let n = slices::number_at(bundle, at + 4);
    o + n
}

// Whether pair i has another length than its section, or its section starts too early or ends behind the bundle.
fn pair_bad(rounds: usize, bundle: &[u8], i: usize) -> bool
    requires { (i < 5) × (40 ≤ length bundle.now) × Rounds rounds }
    ensures { result ≡ pair_bad rounds bundle.now i }
{
    let at = 8 * i;
    let o = slices::number_at(bundle, at);
    let n = slices::number_at(bundle, at + 4);
    let want = layout::section_length(rounds, i);
    let start = end_before(bundle, i);
    if n != want {
        return true;
    }
    if o < start {
        return true;
    }
    if bundle.len() < o + n {
        return true;
    }
    false
}

// The first of the five pairs that is bad.
fn first_bad_pair(rounds: usize, bundle: &[u8]) -> Option<u32>
    requires { (40 ≤ length bundle.now) × Rounds rounds }
    ensures { result ≡ first 5 (pair_bad rounds bundle.now) }
{
    for i in 0..5 {
        if pair_bad(rounds, bundle, i) {
            return Some(i as u32);
        }
    }
    None
}

// The judgement of length and pairs, for any number of rounds: another than 10, 12 and 14 counts as a wrong length.
pub fn judge_frame(rounds: usize, bundle: &[u8]) -> Result<(), Refusal>
    ensures { result ≡ frame rounds bundle.now }
{
    if !rounds::known(rounds) {
        return Err(Refusal::BundleLength);
    }
    if bundle.len() < shortest_of(rounds) {
        return Err(Refusal::BundleLength);
    }
    if longest_of(rounds) < bundle.len() {
        return Err(Refusal::BundleLength);
    }
    match first_bad_pair(rounds, bundle) {
        Some(i) => Err(Refusal::Pair(i)),
        None => Ok(()),
    }
}
