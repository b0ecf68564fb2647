// The lines of the table.
ghost use Rattle.std.specs.Prelude.{◌≡◌, IfSome};
ghost use Rattle.annex_tests.specs.Entries.{Reads, ValueIn, name_of};

use test_tables::{NoCase, is_comment};

// A transformation of the standard: of Kuznyechik as far as its round keys, then of Magma.
#[derive(Clone, Copy)]
pub enum Step {
    S,
    InverseS,
    R,
    L,
    InverseL,
    X,
    Lsx,
    InverseLsx,
    IterationConstant,
    FeistelRound,
    RoundKey,
    T,
    G,
    MagmaRoundKey,
    InnerRound,
    LastRound,
}

// What the standard's example has for a transformation, in hexadecimal digits.
#[derive(Clone, Copy)]
pub struct Value<'a> {
    pub step: Step,
    pub input: &'a str,
    pub output: &'a str,
}

fn read_step(name: &str) -> Option<Step>
    ensures { IfSome result (λ s. name.now ≡ name_of s) }
{
    match name {
        "kuz-S" => Some(Step::S),
        "kuz-inverse-S" => Some(Step::InverseS),
        "kuz-R" => Some(Step::R),
        "kuz-L" => Some(Step::L),
        "kuz-inverse-L" => Some(Step::InverseL),
        "kuz-X" => Some(Step::X),
        "kuz-lsx" => Some(Step::Lsx),
        "kuz-inverse-lsx" => Some(Step::InverseLsx),
        "kuz-C" => Some(Step::IterationConstant),
        "kuz-F" => Some(Step::FeistelRound),
        "kuz-K" => Some(Step::RoundKey),
        "magma-t" => Some(Step::T),
        "magma-g" => Some(Step::G),
        "magma-K" => Some(Step::MagmaRoundKey),
        "magma-round" => Some(Step::InnerRound),
        "magma-last" => Some(Step::LastRound),
        _ => None,
    }
}

// Three words.
#[tactic(auto, using(std::proofs::lemmas::Str::Pattern::split_text_parts))]
fn read_value<'a>(line: &'a str) -> Option<Value<'a>>
    ensures { IfSome result (ValueIn line.now) }
{
    let (name, words) = line.split_once(" ")?;
    let step = read_step(name)?;
    let (input, output) = words.split_once(" ")?;
    Some(Value {
        step,
        input,
        output,
    })
}

// The value that stands in a line, if it is no comment.
pub fn read_entry<'a>(line: &'a str) -> Result<Option<Value<'a>>, NoCase>
    ensures { Reads line.now result }
{
    if is_comment(line) {
        return Ok(None);
    }
    match read_value(line) {
        Some(value) => Ok(Some(value)),
        None => Err(NoCase),
    }
}
