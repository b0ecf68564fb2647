// One case of the table.
ghost use Rattle.std.specs.Prelude.{◌≡◌, ℕ, ◌<◌, ◌≤◌, true, length as list_length, take, IfOk, slice_index, slice_set};
ghost use Rattle.sheet_format.specs.Orders.{map_ok};
ghost use Rattle.contents.specs.Models.{bytes_of, said_by};
ghost use Rattle.contents_format.specs.BlockLengths.{bytes_of as length_of};
ghost use Rattle.contents_format.specs.Reading.{contents_read};
ghost use Rattle.contents_tests.specs.Texts.{mark_of};
ghost use Rattle.contents_tests.specs.Agreement.{Changes, MadeOf, OrderedBy, ReadsAs, Tells};

use super::answer::Answer;
use contents::{Contents, read_contents};
use contents_format::{BlockLength, ContentsFault};
use fault::FaultCode;
use sheet_format::WORK_LENGTH;
use std::alloc::{AllocError, Global};
use test_digits::bytes_of;

// What every byte of an output is before it is written.
const FILL: u8 = 0xAA;

// Whether the bytes stand in front of an output that is as it was behind them.
fn is_written(out: &[u8], length: usize, bytes: &[u8]) -> bool
    requires { length ≤ list_length out.now }
    ensures { result ≡ true → take length out.now ≡ bytes.now }
{
    let (front, rest) = out.split_at(length);
    front == bytes && rest.iter().all(|b| *b == FILL)
}

// Whether an output of 59 bytes, too short for any contents, is refused and untouched.
fn refuses_short(contents: &Contents) -> bool
    ensures { result ≡ true → 59 < list_length (bytes_of contents.now) }
{
    let mut out = [FILL; 59];
    contents.write(&mut out).is_none() && out.iter().all(|b| *b == FILL)
}

// Whether contents are written to an output as these bytes.
fn writes_to(out: &mut [u8], contents: &Contents, bytes: &[u8]) -> bool
    ensures { result ≡ true → bytes_of contents.now ≡ bytes.now }
{
    let Some(length) = contents.write(out) else {
        return false;
    };
    is_written(out, length, bytes)
}

fn writes(contents: &Contents, bytes: &[u8]) -> bool
    ensures { result ≡ true → bytes_of contents.now ≡ bytes.now }
{
    if !refuses_short(contents) {
        return false;
    }
    let mut out = [FILL; 1_800];
    writes_to(&mut out, contents, bytes)
}

// Whether these are the contents of a sheet.
fn made_of(sheet: &[u8], tag_block: BlockLength, bytes: &[u8]) -> bool
    ensures { result ≡ true → OrderedBy sheet.now (length_of tag_block) bytes.now }
{
    let mut work = [FILL; WORK_LENGTH];
    let Ok(contents) = Contents::of_sheet(sheet, &mut work, tag_block) else {
        return false;
    };
    writes(&contents, bytes)
}

// Whether reading the bytes answers this, and what is read is written as it was.
fn reads_as(heap: Global, expected: &str, bytes: &[u8]) -> Result<bool, AllocError>
    ensures { IfOk result (λ t. (t ≡ true → ReadsAs expected.now bytes.now)) }
{
    let answer = Answer(read_contents(bytes));
    let text = format!(in heap; "{answer}")?;
    if text.as_str() != expected {
        return Ok(false);
    }
    match answer.0 {
        Ok(contents) => Ok(writes(&contents, bytes)),
        Err(_) => Ok(true),
    }
}

// How an answer is marked: `.` where contents are accepted, else the last digit of the place.
fn mark(answer: Result<Contents, ContentsFault>) -> u8
    ensures { result ≡ mark_of (map_ok said_by answer) }
{
    match answer {
        Ok(_) => b'.',
        Err(fault) => b'0' + (FaultCode::from(fault).place % 10) as u8,
    }
}

// Whether the bytes with every value for the one at that place are answered as marked.
fn byte_changes_as(marks: &[u8], at: usize, bytes: &[u8], changed: &mut [u8]) -> bool
    requires place { at < list_length bytes.now }
    requires marks { list_length marks.now ≡ 256 }
    requires same { list_length changed.old ≡ list_length bytes.now }
    ensures { result ≡ true → ((v : ℕ) → v < 256 → mark_of (contents_read (slice_set bytes.now at v)) ≡ slice_index marks.now v) }
{
    for (value, expected) in marks.iter().enumerate() {
        changed.copy_from_slice(bytes);
        changed[at] = value as u8;
        if mark(read_contents(changed)) != *expected {
            return false;
        }
    }
    true
}

// Whether the bytes with every value for each of them are answered as marked, 256 marks a byte.
fn changes_as(marks: &[u8], bytes: &[u8], changed: &mut [u8]) -> bool
    requires { list_length changed.old ≡ list_length bytes.now }
    ensures { result ≡ true → Changes marks.now bytes.now }
{
    if marks.len() / 256 != bytes.len() {
        return false;
    }
    // by number: std says nothing of the k-th chunk in a loop over chunks_exact, and the proof of that form did not close
    for at in 0..bytes.len() {
        let first = 256 * at;
        if !byte_changes_as(&marks[first..first + 256], at, bytes, changed) {
            return false;
        }
    }
    true
}

// Whether a case agrees.
pub fn agrees(heap: Global, answer: &str, bytes: &[u8]) -> anyhow::Result<bool>
    ensures { IfOk result (λ t. (t ≡ true → Tells answer.now bytes.now)) }
{
    if let Some(sheet) = answer.strip_prefix("of 8 ") {
        let sheet = bytes_of(heap, sheet)?;
        return Ok(made_of(sheet.as_slice(), BlockLength::Eight, bytes));
    }
    if let Some(sheet) = answer.strip_prefix("of 16 ") {
        let sheet = bytes_of(heap, sheet)?;
        return Ok(made_of(sheet.as_slice(), BlockLength::Sixteen, bytes));
    }
    if let Some(marks) = answer.strip_prefix("each ") {
        let mut changed = Vec::from_slice(heap, bytes)?;
        return Ok(changes_as(marks.as_bytes(), bytes, changed.as_mut_slice()));
    }
    let agrees = reads_as(heap, answer, bytes)?;
    Ok(agrees)
}
