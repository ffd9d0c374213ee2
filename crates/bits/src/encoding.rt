// Nibbles of bytes, and the encoding (list) that 8 bytes hold.
ghost use Rattle.std.specs.Prelude.{◌≡◌, ◌<◌};
ghost use Rattle.bits.specs.Encodings.{images_of, encode, decode};
ghost use Rattle.bits.specs.Nibbles.{nibble};

// Nibble q of bytes; 0 behind the last.
pub fn nibble(s: &[u8], q: usize) -> u8
    ensures { (result ≡ nibble s.now q) × (result < 16) }
{
    let k = q / 2;
    if s.len() <= k {
        return 0;
    }
    let b = s[k];
    if q % 2 == 0 { b / 16 } else { b % 16 }
}

// The image of v; 0 where v is no nibble.
pub fn image(p: &[u8], v: u8) -> u8
    ensures { (result ≡ encode (images_of p.now) v) × (result < 16) }
{
    if 16 <= v {
        return 0;
    }
    let q = usize::from(v);
    nibble(p, q)
}

// The nibble whose image is y; 16 where there is none, as the definition `decode` has it, on which the theorems rest.
pub fn place(p: &[u8], y: u8) -> u8
    ensures { result ≡ decode (images_of p.now) y }
{
    for i in 0u8..16 {
        if image(p, i) == y {
            return i;
        }
    }
    16
}
