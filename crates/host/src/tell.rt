// The calls for C that tell more than an answer, through a pointer, which a refused call leaves as it was. Where there
// is nothing to tell, it gets TAZHIKKO_NONE of the header, the largest number of 64 bits.
ghost use Rattle.std.specs.Prelude.{◌≡◌, length};
ghost use Rattle.answers.specs.Numbers.{number_of};
ghost use Rattle.calls.specs.Calls.{judge_whole};
ghost use Rattle.catalogue.specs.Catalogue.{catalogue_entry, entry_answer};
ghost use Rattle.records.specs.Replay.{judge_record, replayed};
ghost use Rattle.next_bit.specs.NextBit.{next_bit_of};
ghost use Rattle.told.specs.Told.{differs_left};
ghost use Rattle.told.specs.Bits.{bit_left};
ghost use Rattle.told.specs.Entries.{matrix_left};

// Replays a record: `differs` gets the first lookup that differs, none where the record is the walk's own.
#[unsafe(no_mangle)]
pub extern "C" fn tazhikko_replay(
    cipher: u64,
    set: &[u8],
    block: &[u8],
    recorded: &[u8],
    differs: &mut usize,
) -> u64
    ensures answer { result ≡ number_of (judge_record 10 (length set.now) (length block.now)
        (length recorded.now)) }
    ensures lookup { differs.new ≡ differs_left
        (replayed cipher 10 set.now block.now recorded.now) differs.old }
{
    told::tell_verdict(cipher, set, block, recorded, differs)
}

// The next bit of a set that the walk reads: `bit` gets the smallest at or after `from`, none where none is left.
#[unsafe(no_mangle)]
pub extern "C" fn tazhikko_next_bit(
    cipher: u64,
    set: &[u8],
    block: &[u8],
    from: usize,
    bit: &mut usize,
) -> u64
    ensures answer { result ≡ number_of (judge_whole 10 (length set.now) (length block.now)) }
    ensures bit { bit.new ≡ bit_left (next_bit_of cipher 10 set.now block.now from) bit.old }
{
    told::tell_bit(cipher, set, block, from, bit)
}

// The catalogue's entry at a position: `matrix` gets the number that its rows make.
#[unsafe(no_mangle)]
pub extern "C" fn tazhikko_catalogue_entry(position: usize, matrix: &mut usize) -> u64
    ensures answer { result ≡ number_of (entry_answer (catalogue_entry position)) }
    ensures matrix { matrix.new ≡ matrix_left (catalogue_entry position) matrix.old }
{
    told::tell_entry(position, matrix)
}
