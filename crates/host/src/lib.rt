// The calls for a host program in C: numbers and byte slices, each slice a pointer and a length. A call returns 0 where
// it is accepted, else cause * 2^32 + the number returned with it.

#![tactic(auto)]

pub mod make;
pub mod tell;
pub mod walk;

ghost use Rattle.std.specs.Prelude.{◌≡◌, length};
ghost use Rattle.answers.specs.Numbers.{number_of};
ghost use Rattle.aes.specs.Answers.{answer_of, enciphered, deciphered};
ghost use Rattle.judgement.specs.Judge.{judge};
ghost use Rattle.external.specs.Calls.{answer, leaves};
ghost use Rattle.external.specs.Coding.{encode_input, decode_input, encode_output, decode_output};

use answers::number;

// The judgement of a bundle, causes 2 to 7.
#[unsafe(no_mangle)]
pub extern "C" fn tazhikko_judge_bundle(bundle: &[u8]) -> u64
    ensures { result ≡ number_of (judge 10 bundle.now) }
{
    number(judgement::judge::judge_bundle(rounds::TEN, bundle))
}

// The input coding of a block.
#[unsafe(no_mangle)]
pub extern "C" fn tazhikko_encode_input(bundle: &[u8], block: &[u8], out: &mut [u8]) -> u64
    ensures answer { result ≡ number_of (answer 10 bundle.now (length block.now) (length out.old)) }
    ensures block { out.new ≡ leaves 10 bundle.now (encode_input 10 bundle.now)
        block.now out.old }
{
    number(external::coding::encode_input(bundle, block, out))
}

// The output coding of a block.
#[unsafe(no_mangle)]
pub extern "C" fn tazhikko_encode_output(bundle: &[u8], block: &[u8], out: &mut [u8]) -> u64
    ensures answer { result ≡ number_of (answer 10 bundle.now (length block.now) (length out.old)) }
    ensures block { out.new ≡ leaves 10 bundle.now (encode_output 10 bundle.now)
        block.now out.old }
{
    number(external::coding::encode_output(bundle, block, out))
}

// The input coding taken off.
#[unsafe(no_mangle)]
pub extern "C" fn tazhikko_decode_input(bundle: &[u8], block: &[u8], out: &mut [u8]) -> u64
    ensures answer { result ≡ number_of (answer 10 bundle.now (length block.now) (length out.old)) }
    ensures block { out.new ≡ leaves 10 bundle.now (decode_input 10 bundle.now)
        block.now out.old }
{
    number(external::coding::decode_input(bundle, block, out))
}

// The output coding taken off.
#[unsafe(no_mangle)]
pub extern "C" fn tazhikko_decode_output(bundle: &[u8], block: &[u8], out: &mut [u8]) -> u64
    ensures answer { result ≡ number_of (answer 10 bundle.now (length block.now) (length out.old)) }
    ensures block { out.new ≡ leaves 10 bundle.now (decode_output 10 bundle.now)
        block.now out.old }
{
    number(external::coding::decode_output(bundle, block, out))
}

// FIPS 197's cipher.
#[unsafe(no_mangle)]
pub extern "C" fn tazhikko_encipher(key: &[u8], block: &[u8], out: &mut [u8]) -> u64
    ensures answer { result ≡ number_of (answer_of key.now block.now out.old) }
    ensures block { out.new ≡ enciphered key.now block.now out.old }
{
    number(aes::encipher(key, block, out))
}

// FIPS 197's inverse cipher.
#[unsafe(no_mangle)]
pub extern "C" fn tazhikko_decipher(key: &[u8], block: &[u8], out: &mut [u8]) -> u64
    ensures answer { result ≡ number_of (answer_of key.now block.now out.old) }
    ensures block { out.new ≡ deciphered key.now block.now out.old }
{
    number(aes::decipher(key, block, out))
}
