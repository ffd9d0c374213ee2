// Two parts of records, compared: the first entry of which they have other bytes.
ghost use Rattle.std.specs.Prelude.{◌≡◌, ◌&&◌, ◌*◌, eqb, length};
ghost use Rattle.layer_record.specs.Entries.{entry_size};
ghost use Rattle.answers.specs.Search.{first};
ghost use Rattle.records.specs.InPlace.{other_in};
ghost use Rattle.records.specs.Replay.{same};

use layer_record::ENTRY_BYTES;

// Whether two bytes are the same, too.
fn and_same(alike: bool, a: u8, b: u8) -> bool
    ensures { result ≡ (alike && eqb a b) }
{
    if a != b {
        return false;
    }
    alike
}

// Whether two parts of records are the same. No byte ends the loop, so that the compiler compares many at once.
fn all_same(a: &[u8], b: &[u8]) -> bool
    requires { length a.now ≡ length b.now }
    ensures { result ≡ same a.now b.now }
{
    let n = a.len();
    let mut alike = true;
    for i in 0..n {
        alike = and_same(alike, a[i], b[i]);
    }
    alike
}

// The first of n entries of which two parts of records have other bytes.
pub(crate) fn first_other(a: &[u8], b: &[u8], n: usize) -> Option<usize>
    requires { (length a.now ≡ n * entry_size) × (length b.now ≡ n * entry_size) }
    ensures { result ≡ first n (other_in a.now b.now) }
{
    if all_same(a, b) {
        return None;
    }
    for k in 0..n {
        let from = k * ENTRY_BYTES;
        let to = from + ENTRY_BYTES;
        if !all_same(&a[from..to], &b[from..to]) {
            return Some(k);
        }
    }
    None
}
