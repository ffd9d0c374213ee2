// Encodings (lists) of a bundle, one nibble to a byte. Those by number are of the bundle's section of encodings.
ghost use Rattle.std.specs.Prelude.{◌++◌, ◌≡◌, ◌+◌, ◌*◌, ◌/◌, ◌%◌, ◌≤◌, length, drop};
ghost use Rattle.bits.specs.Encodings.{images_of, decode, Permutation};
ghost use Rattle.bits.specs.Lists.{tabulate, concat};
ghost use Rattle.bits.specs.Nibbles.{pack};
ghost use Rattle.encodings.specs.Encodings.{encoding_in, ForImages};

use crate::bytes;
use bits::slices;

// The images that an encoding's 8 bytes give, two to a byte.
pub fn images(p: &[u8], dst: &mut [u8])
    requires { (8 ≤ length p.now) × (length dst.old ≡ 16) }
    ensures { dst.new ≡ images_of p.now }
{
    for i in 0..8 {
        dst[2 * i] = p[i] / 16;
        dst[2 * i + 1] = p[i] % 16;
    }
}

// What undoes them: the nibble of each image. In a permutation each image is of one nibble.
pub fn places(p: &[u8], dst: &mut [u8])
    requires { Permutation (images_of p.now) × (length dst.old ≡ 16) }
    ensures { dst.new ≡ tabulate 16 (decode (images_of p.now)) }
{
    for i in 0..8 {
        let high = usize::from(p[i] / 16);
        let low = usize::from(p[i] % 16);
        dst[high] = (2 * i) as u8;
        dst[low] = (2 * i + 1) as u8;
    }
}

// The images of the encodings n, n + 1, .., `count` of them, one after the other, into the front of dst.
pub fn all_images(section: &[u8], n: usize, count: usize, dst: &mut [u8])
    requires { ForImages n count section.now dst.old }
    ensures { dst.new
        ≡ concat count (λ h. encoding_in section.now (n + h)) ++ drop (count * 16) dst.old }
{
    for h in 0..count {
        let a = h * 16;
        let e = a + 16;
        images(slices::part(section, 8, n + h), &mut dst[a..e]);
    }
}

// Every byte with its nibbles decoded by the encodings numbered `high` and `low`.
pub fn decoded_bytes(section: &[u8], high: usize, low: usize, dst: &mut [u8])
    requires { (length dst.old ≡ 256) × Permutation (encoding_in section.now high) × Permutation (encoding_in section.now low) }
    ensures { dst.new ≡ tabulate 256 (λ x. pack
        (decode (encoding_in section.now high) (x / 16))
        (decode (encoding_in section.now low) (x % 16))) }
{
    let mut a = [0u8; 16];
    let mut b = [0u8; 16];
    places(slices::part(section, 8, high), &mut a);
    places(slices::part(section, 8, low), &mut b);
    bytes::by_nibbles(&a, &b, dst);
}
