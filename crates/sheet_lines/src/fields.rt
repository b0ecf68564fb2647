// The fields of a line: words, START, LENGTH and NAME.
ghost use Rattle.std.specs.Prelude.{◌≡◌, ℕ, ◌≤◌, eqb, length, position};
ghost use Rattle.sheet_format.specs.Digits.{decimal_from, decimal_of};
ghost use Rattle.sheet_format.specs.Lines.{cipher_of, cut_of, is_start, mode_of};
ghost use Rattle.sheet_lines.specs.Models.{pair_model};

use sheet_format::{CipherKind, Decimal, Mode};

// The place of the first `at`.
fn place_of(text: &[u8], at: u8) -> Option<usize>
    ensures { result ≡ position (λ b. eqb b at) text.now }
{
    text.iter().position(|b| *b == at)
}

// What stands before the first `at`, and what stands after it.
pub fn cut<'a>(text: &'a [u8], at: u8) -> Option<(&'a [u8], &'a [u8])>
    ensures { pair_model result ≡ cut_of at text.now }
{
    let i = place_of(text, at)?;
    Some((&text[..i], &text[i + 1..]))
}

pub fn read_mode(word: &[u8]) -> Option<Mode>
    ensures { result ≡ mode_of word.now }
{
    match word {
        b"ctr" => Some(Mode::Ctr),
        b"cbc" => Some(Mode::Cbc),
        _ => None,
    }
}

// The cipher that follows a cipher line's letter.
pub fn read_cipher(tail: &[u8]) -> Option<CipherKind>
    ensures { result ≡ cipher_of tail.now }
{
    // no `match` as in `read_mode`: the check finds no proof at a pattern of six bytes
    if tail == b" kuz".as_slice() {
        Some(CipherKind::Kuznyechik)
    } else if tail == b" magma".as_slice() {
        Some(CipherKind::Magma)
    } else {
        None
    }
}

// One hexadecimal digit or more.
pub fn is_start(text: &[u8]) -> bool
    ensures { result ≡ is_start text.now }
{
    !text.is_empty() && hex_digits::all_hex_digits(text)
}

// The number that digits mean, `None` where a byte is no digit.
fn decimal_value(digits: &[u8]) -> Option<u32>
    requires { length digits.now ≤ 7 }
    ensures { result ≡ decimal_from 0 digits.now }
{
    let mut value: u32 = 0;
    for b in digits {
        if !b.is_ascii_digit() {
            return None;
        }
        value = value * 10 + u32::from(*b - b'0');
    }
    Some(value)
}

// One to seven decimal digits.
pub fn read_decimal(digits: &[u8]) -> Option<Decimal>
    ensures { result ≡ decimal_of digits.now }
{
    let [first, rest @ ..] = digits else {
        return None;
    };
    if digits.len() > 7 {
        return None;
    }
    let value = decimal_value(digits)?;
    let padded = *first == b'0' && !rest.is_empty();
    Some(Decimal { value, padded })
}
