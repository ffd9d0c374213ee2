// Searches in one section: the first encoding that is no permutation, the first byte or column matrix that is bad.
ghost use Rattle.std.specs.Prelude.{◌≡◌, ◌*◌, ◌/◌, ◌≤◌, ◌<◌, length};
ghost use Rattle.bits.specs.Lists.{part_of};
ghost use Rattle.bits.specs.Nibbles.{nibble};
ghost use Rattle.bits.specs.Vectors.{unit};
ghost use Rattle.bundle.specs.Format.{most_encodings};
ghost use Rattle.answers.specs.Search.{first};
ghost use Rattle.judgement.specs.Asked.{MatricesIn};
ghost use Rattle.judgement.specs.Judge.{no_permutation, no_inverse, mixing_bad};

// How many images a list has.
const IMAGES: usize = 16;

// The mark of image 0: the top bit of 16.
const FIRST_MARK: u64 = 32768;

// The mark of image x in a word of marks: bit x of 16, from the top.
fn mark(x: u8) -> u64
    requires { x < 16 }
    ensures { result ≡ unit 16 x }
{
    FIRST_MARK >> x
}

// Image q of the lists that a section holds, 16 a list: "two to a byte". It asks for its byte, where `nibble` of bits
// tests for it: the test took 80 microseconds of a judgement.
fn image(lists: &[u8], q: usize) -> u8
    requires { q / 2 < length lists.now }
    ensures { (result ≡ nibble lists.now q) × (result < 16) }
{
    let b = lists[q / 2];
    if q % 2 == 0 { b / 16 } else { b % 16 }
}

// The first of the encodings that a section holds that repeats an image. The images that a list has met are marked in a
// word.
pub fn first_bad_encoding(lists: &[u8], count: usize) -> Option<u32>
    requires { (count ≤ most_encodings) × (count * 8 ≤ length lists.now) }
    ensures { result ≡ first count (λ n. no_permutation (part_of 8 lists.now n)) }
{
    'lists: {
        for n in 0..count {
            let mut met: u64 = 0;
            for i in 0..IMAGES {
                let here = mark(image(lists, n * IMAGES + i));
                if met & here != 0 {
                    break 'lists Some(n as u32);
                }
                met = met ^ here;
            }
        }
        None
    }
}

// The matrix of 8 w rows that bytes write has no inverse.
pub fn no_inverse(p: &[u8], w: usize) -> bool
    requires { (w ≤ 16) × (8 * w * w ≤ length p.now) }
    ensures { result ≡ no_inverse w p.now }
{
    !invertible::has_inverse(p, w)
}

// A byte or column matrix of 8 w rows is bad: it or one of its blocks has no inverse.
fn mixing_bad(p: &[u8], w: usize) -> bool
    requires { (w ≤ 16) × (8 * w * w ≤ length p.now) }
    ensures { result ≡ mixing_bad w p.now }
{
    if blocks::some_block_bad(p, w) {
        return true;
    }
    no_inverse(p, w)
}

// The first of a section's byte or column matrices, of 8 w rows, that is bad.
pub fn first_bad_mixing(s: &[u8], w: usize, size: usize, count: usize) -> Option<u32>
    requires { MatricesIn s.now w size count }
    ensures { result ≡ first count (λ n. mixing_bad w (part_of size s.now n)) }
{
    for k in 0..count {
        let a = k * size;
        let e = a + size;
        if mixing_bad(&s[a..e], w) {
            return Some(k as u32);
        }
    }
    None
}
