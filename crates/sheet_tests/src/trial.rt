// One sheet in three work areas: of 1,792 bytes, of 8 more, and of one less.
ghost use Rattle.std.specs.Prelude.{◌≡◌, ◌<◌, ◌^◌, Some, false, not, ◌&&◌, is_some, IfOk};
ghost use Rattle.std.specs.Str.{bytes_eq};
ghost use Rattle.sheet_format.specs.Orders.{checked_of};
ghost use Rattle.sheet_tests.specs.Agreement.{Expects};
ghost use Rattle.sheet_tests.specs.Differences.{difference_text};
ghost use Rattle.sheet_tests.specs.Texts.{answer_text};

use super::answer::Answer;
use sheet_format::WORK_LENGTH;
use std::alloc::{AllocError, Global};
use std::fmt;

// What every byte of a work area is before `check`.
const FILL: u8 = 0xAA;

// What `check` did with a sheet: its answer, and whether it left the work area as it should.
#[derive(Clone, Copy)]
struct Trial {
    length: usize,
    answer: Answer,
    work_is_right: bool,
}

// Where `check` did another thing than it should.
#[derive(Clone, Copy)]
pub enum Difference {
    Answer { got: Answer, length: usize },
    Work { length: usize },
}

impl fmt::Display for Difference {
    ghost output = { λ d. Some (difference_text d) };

    fn fmt<W: fmt::Write>(&self, f: &mut fmt::Formatter<W>) -> fmt::Result {
        match *self {
            Difference::Answer { got, length } => write!(f, "{got} with a work area of {length}"),
            Difference::Work { length } => write!(f, "a wrong work area of {length}"),
        }
    }
}

// What `check` does in a work area of N bytes. The part that it uses is zeros afterwards, and what lies behind it, or an area that is
// too short, stays as it was.
fn in_area<const N: usize>(sheet: &[u8]) -> Trial
    requires { N < 2 ^ 63 }
    ensures { result.answer.0 ≡ checked_of N sheet.now }
{
    let mut work = [FILL; N];
    let answer = Answer(sheet::check(sheet, &mut work));
    let used = if N < WORK_LENGTH { 0 } else { WORK_LENGTH };
    let (front, rest) = work.split_at(used);
    Trial {
        length: N,
        answer,
        work_is_right: front.iter().all(|b| *b == 0) && rest.iter().all(|b| *b == FILL),
    }
}

fn judge(heap: Global, trial: Trial, expected: &str) -> Result<Option<Difference>, AllocError>
    ensures { IfOk result (λ d. is_some d ≡ not (bytes_eq (answer_text trial.answer.0) expected.now && trial.work_is_right)) }
{
    let got = trial.answer;
    let length = trial.length;
    let text = format!(in heap; "{got}")?;
    if text.as_str() != expected {
        return Ok(Some(Difference::Answer { got, length }));
    }
    if !trial.work_is_right {
        return Ok(Some(Difference::Work { length }));
    }
    Ok(None)
}

// Where `check` first differs on a sheet from the answer expected.
pub fn first_difference(
    heap: Global,
    expected: &str,
    sheet: &[u8],
) -> Result<Option<Difference>, AllocError>
    ensures { IfOk result (λ d. (is_some d ≡ false → Expects expected.now sheet.now)) }
{
    let exact = judge(heap, in_area::<WORK_LENGTH>(sheet), expected)?;
    let longer = judge(heap, in_area::<1_800>(sheet), expected)?;
    let short = judge(heap, in_area::<1_791>(sheet), "no 2 10 0")?;
    Ok(exact.or(longer).or(short))
}
