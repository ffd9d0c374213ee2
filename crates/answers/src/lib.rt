// The refusals of every call: a cause of document 01's table "Turned down" or of document 02. A call that only accepts
// or refuses hands back `Result<(), Refusal>`. In code the numbers of each cause stand here alone.

#![tactic(auto)]

ghost use Rattle.std.specs.Prelude.{◌≡◌};
ghost use Rattle.answers.specs.Numbers.{cause_of, second_of, cause_in, second_in, joined, number_of};

// Why a call is refused, in the order of the documents' numbers: `cause_of` and `second_of` of specs/ give the two
// numbers of each.
#[derive(Clone, Copy, Debug, PartialEq, Eq)]
pub enum Refusal {
    KeyLength,
    BundleLength,
    Pair(u32),
    Encoding(u32),
    ByteMatrix(u32),
    ColumnMatrix(u32),
    InputMatrix,
    OutputMatrix,
    TableNumber,
    SetLength,
    BlockLength,
    Stop,
    Unfinished,
    RecordLength,
    CataloguePosition,
}

// The number of the cause.
fn cause_of(r: Refusal) -> u32
    ensures { result ≡ cause_of r }
{
    match r {
        Refusal::KeyLength => 1,
        Refusal::BundleLength => 2,
        Refusal::Pair(_) => 3,
        Refusal::Encoding(_) => 4,
        Refusal::ByteMatrix(_) => 5,
        Refusal::ColumnMatrix(_) => 6,
        Refusal::InputMatrix => 7,
        Refusal::OutputMatrix => 7,
        Refusal::TableNumber => 8,
        Refusal::SetLength => 9,
        Refusal::BlockLength => 10,
        Refusal::Stop => 11,
        Refusal::Unfinished => 12,
        Refusal::RecordLength => 13,
        Refusal::CataloguePosition => 14,
    }
}

// The number returned with it.
fn second_of(r: Refusal) -> u32
    ensures { result ≡ second_of r }
{
    match r {
        Refusal::KeyLength => 0,
        Refusal::BundleLength => 0,
        Refusal::Pair(i) => i,
        Refusal::Encoding(n) => n,
        Refusal::ByteMatrix(n) => n,
        Refusal::ColumnMatrix(n) => n,
        Refusal::InputMatrix => 0,
        Refusal::OutputMatrix => 1,
        Refusal::TableNumber => 0,
        Refusal::SetLength => 0,
        Refusal::BlockLength => 0,
        Refusal::Stop => 0,
        Refusal::Unfinished => 0,
        Refusal::RecordLength => 0,
        Refusal::CataloguePosition => 0,
    }
}

// Both of an answer: 0 where the call is accepted.
pub fn cause(a: Result<(), Refusal>) -> u32
    ensures { result ≡ cause_in a }
{
    match a {
        Ok(()) => 0,
        Err(r) => cause_of(r),
    }
}

pub fn second(a: Result<(), Refusal>) -> u32
    ensures { result ≡ second_in a }
{
    match a {
        Ok(()) => 0,
        Err(r) => second_of(r),
    }
}

fn joined(cause: u32, second: u32) -> u64
    ensures { result ≡ joined cause second }
{
    u64::from(cause) * 4294967296 + u64::from(second)
}

// An answer as one number, for C.
pub fn number(a: Result<(), Refusal>) -> u64
    ensures { result ≡ number_of a }
{
    joined(cause(a), second(a))
}
