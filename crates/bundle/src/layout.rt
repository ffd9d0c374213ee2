// Sizes of the sections, for each number of rounds.
ghost use Rattle.std.specs.Prelude.{◌≡◌, ◌*◌, ◌≤◌};
ghost use Rattle.rounds.specs.Rounds.{Rounds};
ghost use Rattle.bundle.specs.Format.{part_count, part_size, section_length, most_encodings};

// How many parts section s has, counted as in specs/: encodings, byte matrices, column matrices, and one matrix of each
// side; none behind the fifth.
pub fn part_count(rounds: usize, s: usize) -> usize
    requires { Rounds rounds }
    ensures { (result ≡ part_count rounds s) × (result ≤ most_encodings) }
{
    match s {
        0 => 32 + 2 * 992 + (rounds - 1) * 448,
        1 => 16 * rounds,
        2 => 4 * (rounds - 1),
        3 => 1,
        4 => 1,
        _ => 0,
    }
}

// How many bytes a part of section s has.
pub fn part_size(s: usize) -> usize
    ensures { (result ≡ part_size s) × (1 ≤ result) × (result ≤ 2048) }
{
    match s {
        0 => 8,
        1 => 8,
        2 => 128,
        _ => 2048,
    }
}

// How many bytes section s has.
pub fn section_length(rounds: usize, s: usize) -> usize
    requires { Rounds rounds }
    ensures { (result ≡ section_length rounds s) × (result ≤ most_encodings * 2048) }
{
    let count = part_count(rounds, s);
    let size = part_size(s);
    count * size
}
