// The numbers of rounds that there are: FIPS 197's 10, 12 and 14. The definitions are those of specs/.

#![tactic(auto)]

ghost use Rattle.std.specs.Prelude.{◌≡◌};
ghost use Rattle.rounds.specs.Rounds.{known};

// FIPS 197's number of rounds for a key of 16 bytes.
pub const TEN: usize = 10;

// Whether a number is one of the three.
pub fn known(n: usize) -> bool
    ensures { result ≡ known n }
{
    match n {
        10 => true,
        12 => true,
        14 => true,
        _ => false,
    }
}
