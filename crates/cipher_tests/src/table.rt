// The lines of the table.
ghost use Rattle.std.specs.Prelude.{IfSome};
ghost use Rattle.cipher_tests.specs.Entries.{Reads, VectorIn};

use sheet_format::CipherKind;
use test_tables::{NoCase, is_comment, read_cipher};

// A cipher, and a key, a block and its E in hexadecimal digits.
#[derive(Clone, Copy)]
pub struct Vector<'a> {
    pub cipher: CipherKind,
    pub key: &'a str,
    pub plain: &'a str,
    pub ciphertext: &'a str,
}

// Four words.
#[tactic(auto, using(std::proofs::lemmas::Str::Pattern::split_text_parts))]
fn read_vector<'a>(line: &'a str) -> Option<Vector<'a>>
    ensures { IfSome result (VectorIn line.now) }
{
    let (name, words) = line.split_once(" ")?;
    let cipher = read_cipher(name)?;
    let (key, blocks) = words.split_once(" ")?;
    let (plain, ciphertext) = blocks.split_once(" ")?;
    Some(Vector {
        cipher,
        key,
        plain,
        ciphertext,
    })
}

// The vector that stands in a line, if it is no comment.
pub fn read_entry<'a>(line: &'a str) -> Result<Option<Vector<'a>>, NoCase>
    ensures { Reads line.now result }
{
    if is_comment(line) {
        return Ok(None);
    }
    match read_vector(line) {
        Some(vector) => Ok(Some(vector)),
        None => Err(NoCase),
    }
}
