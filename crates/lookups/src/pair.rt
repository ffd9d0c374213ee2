// An XOR lookup at two nibbles, and two in a row, those of the two nibbles of a byte. Nibbles are as wide as an index
// here: a byte that is widened once costs less than one that is cut to 8 bits at each step.
ghost use Rattle.std.specs.Prelude.{◌≡◌, ◌<◌, ◌%◌, length};
ghost use Rattle.bits.specs.Nibbles.{half, nibble, pack};
ghost use Rattle.lookups.specs.InPlace.{XorTables, PairRead};

// The half of the byte x that is nibble q of a list: the low one is not shifted. (With a test in place of the shift a
// walk takes a tenth longer.)
pub fn half_of(x: u8, q: usize) -> usize
    ensures { (result ≡ half (q % 2) x) × (result < 16) }
{
    (usize::from(x) >> (4 * (1 - q % 2))) % 16
}

// The byte of two nibbles.
pub fn joined(high: usize, low: usize) -> u8
    requires { (high < 16) × (low < 16) }
    ensures { result ≡ pack high low }
{
    (high * 16 + low) as u8
}

// The entry that two nibbles pick: "index 16a+b".
pub fn index_of(a: usize, b: usize) -> usize
    requires { (a < 16) × (b < 16) }
    ensures { (result ≡ pack a b) × (result < 256) }
{
    a * 16 + b
}

// Entry e of an XOR table: "entry e stands in byte e/2, even e in the high half".
pub fn xor_entry(table: &[u8], e: usize) -> usize
    requires { (e < 256) × (length table.now ≡ 128) }
    ensures { (result ≡ nibble table.now e) × (result < 16) }
{
    let k = e / 2;
    half_of(table[k], e)
}

// Two XOR lookups in a row: the high nibble over one table, then the low nibble over the next. The byte is read and
// written once, which halves the time of a walk. Hands back the entry that the second read.
pub fn xor_byte(area: &mut [u8; 256], high: &[u8], low: &[u8], sum: usize, added: usize) -> usize
    requires { (sum < 256) × (added < 256) × XorTables high.now low.now }
    ensures { PairRead high.now low.now sum added area.old result area.new }
{
    let a = area[sum];
    let b = area[added];
    let h = xor_entry(high, index_of(half_of(a, 0), half_of(b, 0)));
    let e = index_of(half_of(a, 1), half_of(b, 1));
    let l = xor_entry(low, e);
    area[sum] = joined(h, l);
    e
}
