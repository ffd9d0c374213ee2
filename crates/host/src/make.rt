// The maker for C. A cipher is named first: 0 forward, any other number inverse.
ghost use Rattle.std.specs.Prelude.{◌≡◌, length};
ghost use Rattle.answers.specs.Numbers.{number_of};
ghost use Rattle.tables.specs.Calls.{set_answer, table_answer, set_left, table_left};

use tables::make;

// The whole set of a key and a bundle, for a cipher.
#[unsafe(no_mangle)]
pub extern "C" fn tazhikko_make_set(cipher: u64, key: &[u8], bundle: &[u8], set: &mut [u8]) -> u64
    ensures answer { result ≡ number_of (set_answer (length key.now) bundle.now (length set.old)) }
    ensures bytes { set.new ≡ set_left cipher 4 key.now bundle.now set.old }
{
    answers::number(make::make_set(cipher, key, bundle, set))
}

// One table of it.
#[unsafe(no_mangle)]
pub extern "C" fn tazhikko_make_table(
    cipher: u64,
    key: &[u8],
    bundle: &[u8],
    number: usize,
    table: &mut [u8],
) -> u64
    ensures answer { result ≡ number_of (table_answer (length key.now) bundle.now number
        (length table.old)) }
    ensures bytes { table.new ≡ table_left cipher 4 key.now bundle.now number table.old }
{
    answers::number(make::make_table(cipher, key, bundle, number, table))
}
