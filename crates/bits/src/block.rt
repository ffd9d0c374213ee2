// Blocks of 16 bytes in and out of slices.
ghost use Rattle.std.specs.Prelude.{◌≡◌, length};

// The 16 bytes of a slice.
pub fn load(s: &[u8]) -> [u8; 16]
    requires { length s.now ≡ 16 }
    ensures { result ≡ s.now }
{
    let mut t = [0u8; 16];
    t.copy_from_slice(s);
    t
}

// Writes a block over the 16 bytes of a slice.
pub fn store(d: &mut [u8], s: [u8; 16])
    requires { length d.old ≡ 16 }
    ensures { d.new ≡ s }
{
    d.copy_from_slice(&s);
}
