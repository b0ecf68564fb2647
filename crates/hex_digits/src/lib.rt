// Hexadecimal digits.
#![tactic(auto)]

ghost use Rattle.std.specs.Prelude.{◌≡◌, ℕ, ◌<◌, length, IfSome};
ghost use Rattle.hex_digits.specs.Hex.{all_hex_digits, hex_pair, hex_value, read_answer, read_out};

// The value of a digit 0-9 a-f.
pub fn hex_digit(b: u8) -> Option<u8>
    ensures value { result ≡ hex_value b }
    ensures small { IfSome result (λ d. d < 16) }
{
    match b {
        b'0'..=b'9' => Some(b - b'0'),
        b'a'..=b'f' => Some(b - b'a' + 10),
        _ => None,
    }
}

// The byte that two digits mean, the high half first.
pub fn hex_byte(high: u8, low: u8) -> Option<u8>
    ensures { result ≡ hex_pair high low }
{
    Some(16 * hex_digit(high)? + hex_digit(low)?)
}

// Whether every byte is a digit.
pub fn all_hex_digits(text: &[u8]) -> bool
    ensures { result ≡ all_hex_digits text.now }
{
    text.iter().all(|b| hex_digit(*b).is_some())
}

// A text that is not two digits for each byte.
#[derive(Clone, Copy, PartialEq, Eq, Debug)]
pub struct NotHex;

// Writes the bytes that pairs of digits mean over as many bytes. A refused call leaves them as they were.
pub fn read_hex(text: &[u8], out: &mut [u8]) -> Result<(), NotHex>
    ensures answer { result ≡ read_answer (length out.old) text.now }
    ensures out { out.new ≡ read_out out.old text.now }
{
    if text.len() % 2 == 1 || text.len() / 2 != out.len() || !all_hex_digits(text) {
        return Err(NotHex);
    }
    let mut rest = text;
    for b in out.iter_mut() {
        if let [high, low, tail @ ..] = rest {
            *b = 16 * hex_digit(*high).unwrap_or(0) + hex_digit(*low).unwrap_or(0);
            rest = tail;
        }
    }
    Ok(())
}
