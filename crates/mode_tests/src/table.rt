// The lines of the table.
ghost use Rattle.std.specs.Prelude.{◌≡◌, ℕ, List, IfSome, MatchOption};
ghost use Rattle.mode_tests.specs.Entries.{MacIn, Reads, SealedIn, VectorIn, ◌␣◌};

use sheet_format::{CipherKind, Mode};
use test_tables::{NoCase, is_comment, read_cipher};

// A text of a body and what becomes of it under a key and START, with the tag of that under another key: in hexadecimal digits.
// The cuttings say in which pieces the text is fed.
#[derive(Clone, Copy)]
pub struct SealedVector<'a> {
    pub mode: Mode,
    pub cipher: CipherKind,
    pub key: &'a str,
    pub start: &'a str,
    pub cutting: &'a str,
    pub other_cutting: &'a str,
    pub text: &'a str,
    pub sealed: &'a str,
    pub tag_key: &'a str,
    pub tag: &'a str,
}

// A text and its MAC.
#[derive(Clone, Copy)]
pub struct MacVector<'a> {
    pub cipher: CipherKind,
    pub key: &'a str,
    pub cutting: &'a str,
    pub other_cutting: &'a str,
    pub text: &'a str,
    pub mac: &'a str,
}

// What a line orders: a body to seal and open, or a MAC.
#[derive(Clone, Copy)]
pub enum Vector<'a> {
    Sealed(SealedVector<'a>),
    Mac(MacVector<'a>),
}

// The first word, and what stands behind it.
fn first_word<'a>(line: &'a str) -> Option<(&'a str, &'a str)>
    ensures { MatchOption result ((xs ys : List ℕ) → line.now ≡ xs ␣ ys → ⊥) (λ p. line.now ≡ p.0.now ␣ p.1.now) }
{
    line.split_once(" ")
}

// Eight words behind the mode and the cipher.
fn read_sealed<'a>(mode: Mode, cipher: CipherKind, words: &'a str) -> Option<SealedVector<'a>>
    ensures { IfSome result (λ v. (v.mode ≡ mode) × (v.cipher ≡ cipher) × SealedIn words.now v) }
{
    let (key, words) = first_word(words)?;
    let (start, words) = first_word(words)?;
    let (cutting, words) = first_word(words)?;
    let (other_cutting, words) = first_word(words)?;
    let (text, words) = first_word(words)?;
    let (sealed, words) = first_word(words)?;
    let (tag_key, tag) = first_word(words)?;
    Some(SealedVector {
        mode,
        cipher,
        key,
        start,
        cutting,
        other_cutting,
        text,
        sealed,
        tag_key,
        tag,
    })
}

// Five words behind the cipher.
fn read_mac<'a>(cipher: CipherKind, words: &'a str) -> Option<MacVector<'a>>
    ensures { IfSome result (λ v. (v.cipher ≡ cipher) × MacIn words.now v) }
{
    let (key, words) = first_word(words)?;
    let (cutting, words) = first_word(words)?;
    let (other_cutting, words) = first_word(words)?;
    let (text, mac) = first_word(words)?;
    Some(MacVector {
        cipher,
        key,
        cutting,
        other_cutting,
        text,
        mac,
    })
}

// What stands in a line: the mode, the cipher, the words of the vector.
fn read_vector<'a>(line: &'a str) -> Option<Vector<'a>>
    ensures { IfSome result (VectorIn line.now) }
{
    let (mode, words) = first_word(line)?;
    let (name, words) = first_word(words)?;
    let cipher = read_cipher(name)?;
    match mode {
        "ctr" => Some(Vector::Sealed(read_sealed(Mode::Ctr, cipher, words)?)),
        "cbc" => Some(Vector::Sealed(read_sealed(Mode::Cbc, cipher, words)?)),
        "mac" => Some(Vector::Mac(read_mac(cipher, words)?)),
        _ => None,
    }
}

// The vector that stands in a line, if it is no comment.
pub fn read_entry<'a>(line: &'a str) -> Result<Option<Vector<'a>>, NoCase>
    ensures { Reads line.now result }
{
    if is_comment(line) {
        return Ok(None);
    }
    match read_vector(line) {
        Some(vector) => Ok(Some(vector)),
        None => Err(NoCase),
    }
}
