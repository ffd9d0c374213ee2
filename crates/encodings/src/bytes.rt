// All 256 bytes with both nibbles replaced: what encodes or decodes a byte by one lookup.
ghost use Rattle.std.specs.Prelude.{◌≡◌, ◌<◌, length};
ghost use Rattle.bits.specs.Lists.{at, tabulate};
ghost use Rattle.bits.specs.Nibbles.{pack};
ghost use Rattle.encodings.specs.Encodings.{Nibbles, by_nibbles};

// The bytes of one high nibble, which is replaced by `high`; the low one is replaced by its element of `low`.
fn write_row(high: u8, low: &[u8], dst: &mut [u8])
    requires { (high < 16) × Nibbles 16 low.now × (length dst.old ≡ 16) }
    ensures { dst.new ≡ tabulate 16 (λ v. pack high (at low.now v)) }
{
    for v in 0..16 {
        dst[v] = high * 16 + low[v];
    }
}

// All of them: the high nibble is replaced by its element of `high`, the low one by that of `low`.
pub(crate) fn by_nibbles(high: &[u8], low: &[u8], dst: &mut [u8])
    requires { Nibbles 16 high.now × Nibbles 16 low.now × (length dst.old ≡ 256) }
    ensures { dst.new ≡ tabulate 256 (by_nibbles high.now low.now) }
{
    for i in 0..16 {
        let a = i * 16;
        let e = a + 16;
        write_row(high[i], low, &mut dst[a..e]);
    }
}
