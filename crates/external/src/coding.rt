// Coding and uncoding of a block, input and output side. They judge the whole bundle; a call that is turned down leaves the lent block
// as it was.
ghost use Rattle.std.specs.Prelude.{◌≡◌, length};
ghost use Rattle.matrices.specs.Matrices.{matrix_of};
ghost use Rattle.bundle.specs.Format.{encoding_of};
ghost use Rattle.external.specs.Asked.{CodesBy, UncodesBy};
ghost use Rattle.external.specs.Calls.{answer, leaves};
ghost use Rattle.external.specs.Coding.{encode_by, decode_by, encode_input, decode_input, encode_output, decode_output};

use crate::block;
use answers::Refusal;
use bundle::parts;
use judgement::judge;
use rounds::TEN;

// The first of the output coding's 32 encodings, for ten rounds.
const OUTPUT_FIRST: usize = 6016;

// The answer for a bundle and blocks of these lengths.
fn ready(rounds: usize, bundle: &[u8], from: usize, to: usize) -> Result<(), Refusal>
    ensures { result ≡ answer rounds bundle.now from to }
{
    judge::judge_bundle(rounds, bundle)?;
    if from != 16 {
        return Err(Refusal::BlockLength);
    }
    if to != 16 {
        return Err(Refusal::BlockLength);
    }
    Ok(())
}

// The block matrix that m writes, then the 32 encodings from `first` on.
fn encode_by(
    rounds: usize,
    bundle: &[u8],
    first: usize,
    m: &[u8],
    block: &[u8],
    out: &mut [u8],
) -> Result<(), Refusal>
    requires { CodesBy rounds bundle.now first m.now }
    ensures answer { result ≡ answer rounds bundle.now (length block.now) (length out.old) }
    ensures block { out.new
        ≡ leaves rounds bundle.now
        (encode_by (encoding_of rounds bundle.now) first (matrix_of 16 m.now))
        block.now out.old }
{
    // The call is judged before a byte is written.
    ready(rounds, bundle, block.len(), out.len())?;
    let mut t = [0u8; 16];
    block::multiply(m, block, &mut t);
    block::encode_nibbles(rounds, bundle, first, &t, out);
    Ok(())
}

// The encodings taken off, then the inverse of the block matrix.
fn decode_by(
    rounds: usize,
    bundle: &[u8],
    first: usize,
    m: &[u8],
    block: &[u8],
    out: &mut [u8],
) -> Result<(), Refusal>
    requires { UncodesBy rounds bundle.now first m.now }
    ensures answer { result ≡ answer rounds bundle.now (length block.now) (length out.old) }
    ensures block { out.new
        ≡ leaves rounds bundle.now
        (decode_by (encoding_of rounds bundle.now) first (matrix_of 16 m.now))
        block.now out.old }
{
    ready(rounds, bundle, block.len(), out.len())?;
    let mut t = [0u8; 16];
    block::decode_nibbles(rounds, bundle, first, block, &mut t);
    block::unmultiply(m, &t, out);
    Ok(())
}

// Four calls over the two functions above, on which four of C's stand; each contract names its own coding.

// The input coding of a block ("coding").
pub fn encode_input(bundle: &[u8], block: &[u8], out: &mut [u8]) -> Result<(), Refusal>
    ensures answer { result ≡ answer 10 bundle.now (length block.now) (length out.old) }
    ensures block { out.new
        ≡ leaves 10 bundle.now (encode_input 10 bundle.now) block.now out.old }
{
    encode_by(
        TEN,
        bundle,
        0,
        parts::input_matrix_part(TEN, bundle),
        block,
        out,
    )
}

// The input coding taken off ("uncoding").
pub fn decode_input(bundle: &[u8], block: &[u8], out: &mut [u8]) -> Result<(), Refusal>
    ensures answer { result ≡ answer 10 bundle.now (length block.now) (length out.old) }
    ensures block { out.new
        ≡ leaves 10 bundle.now (decode_input 10 bundle.now) block.now out.old }
{
    decode_by(
        TEN,
        bundle,
        0,
        parts::input_matrix_part(TEN, bundle),
        block,
        out,
    )
}

// The output coding of a block.
pub fn encode_output(bundle: &[u8], block: &[u8], out: &mut [u8]) -> Result<(), Refusal>
    ensures answer { result ≡ answer 10 bundle.now (length block.now) (length out.old) }
    ensures block { out.new
        ≡ leaves 10 bundle.now (encode_output 10 bundle.now) block.now out.old }
{
    encode_by(
        TEN,
        bundle,
        OUTPUT_FIRST,
        parts::output_matrix_part(TEN, bundle),
        block,
        out,
    )
}

// The output coding taken off.
pub fn decode_output(bundle: &[u8], block: &[u8], out: &mut [u8]) -> Result<(), Refusal>
    ensures answer { result ≡ answer 10 bundle.now (length block.now) (length out.old) }
    ensures block { out.new
        ≡ leaves 10 bundle.now (decode_output 10 bundle.now) block.now out.old }
{
    decode_by(
        TEN,
        bundle,
        OUTPUT_FIRST,
        parts::output_matrix_part(TEN, bundle),
        block,
        out,
    )
}
