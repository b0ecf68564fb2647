// The escapes of the table: `\n` is byte 10, `\xHH` the byte with those digits, `\\` a backslash.
ghost use Rattle.std.specs.Prelude.{◌≡◌, ℕ, ◌<◌, length, IfSome, IfOk};
ghost use Rattle.sheet_tests.specs.Escapes.{Means, byte_model, escaped_byte, first_byte, hex_byte, pair_value};

use anyhow::Context;
use std::alloc::Global;

// The byte of two hexadecimal digits, A to F too, which are no digits of a sheet.
fn hex_byte(high: u8, low: u8) -> Option<u8>
    ensures { result ≡ pair_value high low }
{
    let high = char::from(high).to_digit(16)?;
    let low = char::from(low).to_digit(16)?;
    Some((16 * high + low) as u8)
}

// What `\x` and two digits mean, from the digits on, and what stands behind them.
fn hex_escape<'a>(text: &'a [u8]) -> Option<(u8, &'a [u8])>
    ensures value { byte_model result ≡ hex_byte text.now }
    ensures shorter { IfSome result (λ p. length p.1.now < length text.now) }
{
    let [high, low, rest @ ..] = text else {
        return None;
    };
    let b = hex_byte(*high, *low)?;
    Some((b, rest))
}

// What an escape means, from the byte behind its backslash on, and what stands behind it.
fn escaped_byte<'a>(text: &'a [u8]) -> Option<(u8, &'a [u8])>
    ensures value { byte_model result ≡ escaped_byte text.now }
    ensures shorter { IfSome result (λ p. length p.1.now < length text.now) }
{
    match text {
        [b'n', rest @ ..] => Some((10, rest)),
        [b'\\', rest @ ..] => Some((b'\\', rest)),
        [b'x', rest @ ..] => hex_escape(rest),
        _ => None,
    }
}

// The first byte that a text means, and what stands behind it.
fn first_byte<'a>(text: &'a [u8]) -> Option<(u8, &'a [u8])>
    ensures value { byte_model result ≡ first_byte text.now }
    ensures shorter { IfSome result (λ p. length p.1.now < length text.now) }
{
    match text {
        [] => None,
        [b'\\', rest @ ..] => escaped_byte(rest),
        [b, rest @ ..] => Some((*b, rest)),
    }
}

pub fn unescape(heap: Global, text: &[u8]) -> anyhow::Result<Vec<u8>>
    ensures { IfOk result (λ v. Means text.now v.items) }
{
    let mut bytes = Vec::new(heap);
    let mut rest = text;
    while !rest.is_empty() {
        let (b, tail) = first_byte(rest).context("a backslash with no escape")?;
        bytes.push(b)?;
        rest = tail;
    }
    Ok(bytes)
}
