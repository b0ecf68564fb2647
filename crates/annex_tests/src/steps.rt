// Our functions on one example.
ghost use Rattle.std.specs.Prelude.{◌≡◌, ◌-◌, true, take, drop, Some, IfSome, slice_index};
ghost use Rattle.magma.specs.Magma.{word_at};
ghost use Rattle.annex_tests.specs.Agreement.{Makes};

use super::table::Step;
use kuznyechik::{
    Halves, add_key, feistel_round, inverse_l, inverse_s, iteration_constant, key_schedule, lsx,
    transform_l, transform_r, transform_s,
};
use magma::tables::{round_function, substitute};
use magma::{last_round, round, round_key_of};

// N bytes from place i on.
fn bytes_at<const N: usize>(bytes: &[u8], i: usize) -> Option<[u8; N]>
    ensures { IfSome result (λ b. b ≡ take N (drop i bytes.now)) }
{
    let (front, _) = bytes.get(i..)?.split_first_chunk::<N>()?;
    Some(*front)
}

// The word from place i on.
fn word_at(bytes: &[u8], i: usize) -> Option<u32>
    ensures { IfSome result (λ w. w ≡ word_at bytes.now i) }
{
    let [a, b, c, d, ..] = bytes.get(i..)? else {
        return None;
    };
    Some(u32::from_be_bytes([*a, *b, *c, *d]))
}

// A key and, behind it, the number of a round key, counted from 0.
fn key_and_number(input: &[u8]) -> Option<([u8; 32], usize)>
    ensures { IfSome result (λ p. (p.0 ≡ take 32 input.now) × (p.1 ≡ slice_index input.now 32 - 1)) }
{
    if input.len() != 33 {
        return None;
    }
    Some((bytes_at(input, 0)?, usize::from(input[32]).checked_sub(1)?))
}

fn feistel_agrees(input: &[u8], output: &[u8]) -> Option<bool>
    ensures { result ≡ Some true → Makes Step.FeistelRound input.now output.now }
{
    if input.len() != 33 || output.len() != 32 {
        return None;
    }
    let blocks = Halves {
        left: bytes_at(input, 0)?,
        right: bytes_at(input, 16)?,
    };
    let Halves { left, right } = feistel_round(input[32], blocks);
    Some(left.as_slice() == &output[..16] && right.as_slice() == &output[16..])
}

// The key stands before the two halves of the block.
fn round_agrees<F: Fn(u32, u32, u32) -> (u32, u32)>(
    f: F,
    input: &[u8],
    output: &[u8],
) -> Option<bool>
    requires { F.IsAlwaysCallable f }
    ensures { result ≡ Some true → F.post f (word_at input.now 0) (word_at input.now 4) (word_at input.now 8) (record { 0 = word_at output.now 0; 1 = word_at output.now 4 }) }
{
    let (b1, b0) = f(word_at(input, 0)?, word_at(input, 4)?, word_at(input, 8)?);
    Some(b1 == word_at(output, 0)? && b0 == word_at(output, 4)?)
}

// Whether our function for the step makes this output of this input; None where one of them has too few bytes.
fn makes(step: Step, input: &[u8], output: &[u8]) -> Option<bool>
    ensures { result ≡ Some true → Makes step input.now output.now }
{
    match step {
        Step::S => Some(transform_s(bytes_at(input, 0)?).as_slice() == output),
        Step::InverseS => Some(inverse_s(bytes_at(input, 0)?).as_slice() == output),
        Step::R => Some(transform_r(bytes_at(input, 0)?).as_slice() == output),
        Step::L => Some(transform_l(bytes_at(input, 0)?).as_slice() == output),
        Step::InverseL => Some(inverse_l(bytes_at(input, 0)?).as_slice() == output),
        Step::X => Some(add_key(bytes_at(input, 16)?, bytes_at(input, 0)?).as_slice() == output),
        Step::Lsx => Some(lsx(bytes_at(input, 16)?, bytes_at(input, 0)?).as_slice() == output),
        Step::InverseLsx => {
            let sum = add_key(bytes_at(input, 16)?, bytes_at(input, 0)?);
            Some(inverse_s(inverse_l(sum)).as_slice() == output)
        }
        Step::IterationConstant => Some(iteration_constant(*input.first()?).as_slice() == output),
        Step::FeistelRound => feistel_agrees(input, output),
        Step::RoundKey => {
            let (key, i) = key_and_number(input)?;
            Some(key_schedule(&key).get(i)?.as_slice() == output)
        }
        Step::T => Some(substitute(word_at(input, 0)?) == word_at(output, 0)?),
        Step::G => Some(
            round_function(word_at(input, 0)?, word_at(input, 4)?) == word_at(output, 0)?,
        ),
        Step::MagmaRoundKey => {
            let (key, i) = key_and_number(input)?;
            Some(round_key_of(&key, i)? == word_at(output, 0)?)
        }
        Step::InnerRound => round_agrees(round, input, output),
        Step::LastRound => round_agrees(last_round, input, output),
    }
}

pub fn agrees(step: Step, input: &[u8], output: &[u8]) -> bool
    ensures { result ≡ true → Makes step input.now output.now }
{
    makes(step, input, output) == Some(true)
}
