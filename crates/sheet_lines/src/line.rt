// One line of a sheet, and the kinds that there are.
ghost use Rattle.std.specs.Prelude.{◌≡◌, ℕ};
ghost use Rattle.std.specs.Option.{option_map};
ghost use Rattle.sheet_format.specs.Lines.{body_of, fields_of, form_of};
ghost use Rattle.sheet_lines.specs.Models.{body_model, form_model};

use super::fields::{cut, is_start, read_cipher, read_decimal, read_mode};
use sheet_format::{CipherKind, Decimal, Mode, is_name};

// A body line. START and NAME are parts of the sheet.
#[derive(Clone, Copy)]
pub struct BodyLine<'a> {
    pub mode: Mode,
    pub start: &'a [u8],
    pub length: Decimal,
    pub name: &'a [u8],
}

// What a line says.
#[derive(Clone, Copy)]
pub enum LineKind<'a> {
    Blank,
    Comment,
    Cipher(CipherKind),
    Body(BodyLine<'a>),
}

// A line that has a form, with its number from 1.
#[derive(Clone, Copy)]
pub struct Line<'a> {
    pub number: usize,
    pub kind: LineKind<'a>,
}

// What follows a body line's letter and space: MODE START LENGTH NAME.
fn read_fields<'a>(text: &'a [u8]) -> Option<BodyLine<'a>>
    ensures { option_map body_model result ≡ fields_of text.now }
{
    let (word, rest) = cut(text, b' ')?;
    let mode = read_mode(word)?;
    let (start, rest) = cut(rest, b' ')?;
    if !is_start(start) {
        return None;
    }
    let (digits, name) = cut(rest, b' ')?;
    let length = read_decimal(digits)?;
    if !is_name(name) {
        return None;
    }
    Some(BodyLine {
        mode,
        start,
        length,
        name,
    })
}

// What follows a body line's letter.
fn read_body<'a>(tail: &'a [u8]) -> Option<BodyLine<'a>>
    ensures { option_map body_model result ≡ body_of tail.now }
{
    match tail {
        [b' ', text @ ..] => read_fields(text),
        _ => None,
    }
}

// What a line says, by its first letter; `None` where it has no form.
pub fn read_line<'a>(text: &'a [u8]) -> Option<LineKind<'a>>
    ensures { option_map form_model result ≡ form_of text.now }
{
    let [first, tail @ ..] = text else {
        return Some(LineKind::Blank);
    };
    let letter = char::from(*first);
    match letter {
        '#' => Some(LineKind::Comment),
        'c' => {
            let cipher = read_cipher(tail)?;
            Some(LineKind::Cipher(cipher))
        }
        'b' => {
            let body = read_body(tail)?;
            Some(LineKind::Body(body))
        }
        _ => None,
    }
}
