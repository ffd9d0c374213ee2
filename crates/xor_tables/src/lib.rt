// XOR tables: "index 16a+b, a the sum so far and b the next word's half-byte, both encoded".

#![tactic(auto)]

ghost use Rattle.std.specs.Prelude.{◌≡◌, ◌/◌, ◌%◌, ◌≤◌, ◌<◌, length};
ghost use Rattle.std.specs.Int.Bits.{bit_xor};
ghost use Rattle.bits.specs.Encodings.{encode, decode};
ghost use Rattle.bits.specs.Lists.{at};
ghost use Rattle.bits.specs.Nibbles.{packed};
ghost use Rattle.encodings.specs.Encodings.{encoding_in, Nibbles};
ghost use Rattle.xor_tables.specs.Xors.{ForSums, ForXors};

use bits::slices;
use encodings::lists;

// The image of the sum of two nibbles.
fn image_of_sum(res: &[u8], a: u8, b: u8) -> u8
    requires { (16 ≤ length res.now) × (a < 16) × (b < 16) }
    ensures { result ≡ at res.now (bit_xor a b) }
{
    res[usize::from(a ^ b)]
}

// The entries for one nibble `a` of the sum so far, decoded: `added` undoes the encoding of the nibble that is added,
// and `result` has the images of the sum. "Entry e stands in byte e/2, even e in the high half."
fn write_row(a: u8, added: &[u8], res: &[u8], dst: &mut [u8])
    requires { (a < 16) × ForSums added.now res.now × (length dst.old ≡ 8) }
    ensures { dst.new ≡ packed 8 (λ j. at res.now (bit_xor a (at added.now j))) }
{
    for k in 0..8 {
        let high = image_of_sum(res, a, added[2 * k]);
        let low = image_of_sum(res, a, added[2 * k + 1]);
        dst[k] = high * 16 + low;
    }
}

// All entries: `sum` undoes the encoding of the sum so far.
fn write_entries(sum: &[u8], added: &[u8], res: &[u8], dst: &mut [u8])
    requires { Nibbles 16 sum.now × ForSums added.now res.now × (length dst.old ≡ 128) }
    ensures { dst.new ≡ packed 128 (λ e.
        at res.now (bit_xor (at sum.now (e / 16)) (at added.now (e % 16)))) }
{
    for i in 0..16 {
        let a = i * 8;
        let e = a + 8;
        write_row(sum[i], added, res, &mut dst[a..e]);
    }
}

// The XOR table for the encodings of the sum so far, of the nibble that is added, and of the result, by number.
pub fn write(section: &[u8], sum: usize, added: usize, res: usize, dst: &mut [u8])
    requires { ForXors section.now sum added res dst.old }
    ensures { dst.new ≡ packed 128 (λ e. encode (encoding_in section.now res) (bit_xor
        (decode (encoding_in section.now sum) (e / 16))
        (decode (encoding_in section.now added) (e % 16)))) }
{
    let mut a = [0u8; 16];
    let mut b = [0u8; 16];
    let mut c = [0u8; 16];
    lists::places(slices::part(section, 8, sum), &mut a);
    lists::places(slices::part(section, 8, added), &mut b);
    lists::images(slices::part(section, 8, res), &mut c);
    write_entries(&a, &b, &c, dst);
}
