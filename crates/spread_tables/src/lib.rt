// Spread tables, word by word, each word straight into its bytes of the lent part. The word of a byte is the xor of
// eight words, at the bits that the byte has, which `matrices::nibbles` adds up by the byte's two nibbles.

#![tactic(auto)]

ghost use Rattle.std.specs.Prelude.{◌≡◌, ◌+◌, ◌*◌, ◌<◌};
ghost use Rattle.bits.specs.Lists.{at, concat};
ghost use Rattle.bits.specs.Words.{value};
ghost use Rattle.matrices.specs.ByNibbles.{combined, word_in};
ghost use Rattle.matrices.specs.Rows.{row_at};
ghost use Rattle.encodings.specs.Encodings.{Nibbles};
ghost use Rattle.spread_tables.specs.Spread.{encoded_byte, encoded_word};
ghost use Rattle.spread_tables.specs.Words.{with_word, WordPut, ForWord, ForWords, ForTable};

use bits::vector;
use bits::vector::Vector;
use matrices::nibbles;

// The bytes of a word: of the entry and of the exit, and of a round.
const BLOCK_WORD: usize = 16;

const ROUND_WORD: usize = 4;

// Byte b at place k of a word, encoded nibble by nibble: the images of its two nibbles, joined. `images` has 16 images
// for each nibble of a word.
fn encoded_byte(images: &[u8], k: usize, b: u8) -> u8
    requires { (k < 16) × Nibbles (32 * k + 32) images.now }
    ensures { result ≡ encoded_byte (at images.now) k b }
{
    let high = images[16 * (2 * k) + usize::from(b / 16)];
    let low = images[16 * (2 * k + 1) + usize::from(b % 16)];
    high * 16 + low
}

// The word's writer: the word v, encoded, straight into the m bytes of word x of the part, and every other byte of the
// part as it was.
fn write_word(v: Vector, images: &[u8], m: usize, x: usize, dst: &mut [u8])
    requires { ForWord m x images.now dst.old }
    ensures word { dst.new ≡ with_word m x (encoded_word (at images.now) m (value v)) dst.old }
    ensures alone { WordPut m x (encoded_word (at images.now) m (value v)) dst.old dst.new }
{
    let a = x * m;
    for k in 0..m {
        dst[a + k] = encoded_byte(images, k, vector::byte(v, m - 1 - k));
    }
}

// The words of 256 bytes, in order.
fn write_words(values: &[u8], words: &[u64], images: &[u8], m: usize, dst: &mut [u8])
    requires { ForWords m values.now words.now images.now dst.old }
    ensures { dst.new
        ≡ concat 256 (λ x. encoded_word (at images.now) m (word_in words.now (at values.now x))) }
{
    for x in 0..256 {
        write_word(nibbles::word_of(words, values[x]), images, m, x, dst);
    }
}

// The 256 words of m bytes, each in its place: `values` has the byte whose word stands at x. Each width is named, so
// that the compiler unrolls the loop over a word's bytes.
pub fn write(values: &[u8], basis: &[u64], images: &[u8], m: usize, dst: &mut [u8])
    requires { ForTable m values.now basis.now images.now dst.old }
    ensures { dst.new ≡ concat 256 (λ x.
        encoded_word (at images.now) m (combined (row_at basis.now) (at values.now x))) }
{
    let mut words = [0u64; 2 * nibbles::NIBBLE_ROWS];
    nibbles::nibble_words(basis, &mut words);
    if m == BLOCK_WORD {
        write_words(values, &words, images, BLOCK_WORD, dst);
    } else {
        write_words(values, &words, images, ROUND_WORD, dst);
    }
}
