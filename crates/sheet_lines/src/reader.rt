// The reader of lines.
ghost use Rattle.std.specs.Prelude.{◌≡◌, ℕ, ◌+◌, ◌^◌, ◌<◌, length};
ghost use Rattle.sheet_format.specs.Lines.{lines_of};
ghost use Rattle.sheet_lines.specs.Models.{TakenLine, next_of, read_model, step_of, tail_of};

use super::fields::cut;
use super::line::{Line, read_line};
use sheet_format::SheetFault;

// The lines of a sheet that are left, and how many were read.
#[derive(Drop)]
pub struct Lines<'a> {
    rest: &'a [u8],
    number: usize,
    ghost countable: { number + length rest.now < 2 ^ 64 },
}

impl<'a> Lines<'a> {
    pub fn new(sheet: &'a [u8]) -> Self
        ensures rest { result.rest.now ≡ sheet.now }
        ensures number { result.number ≡ 0 }
    {
        Lines {
            rest: sheet,
            number: 0,
        }
    }

    // The next line; a fault where it has no form, or no byte 10 at its end; `None` after the last.
    pub fn next_line(&mut self) -> Option<Result<Line<'a>, SheetFault>>
        ensures value { read_model result ≡ next_of self.old.number (lines_of self.old.rest.now) }
        ensures parts { TakenLine self.old.rest.now self.new.rest.now result }
        ensures rest { lines_of self.new.rest.now ≡ tail_of (lines_of self.old.rest.now) }
        ensures number { self.new.number ≡ step_of self.old.number (lines_of self.old.rest.now) }
    {
        let all = self.rest;
        if all.is_empty() {
            return None;
        }
        let number = self.number + 1;
        self.number = number;
        let Some((text, rest)) = cut(all, b'\n') else {
            self.rest = &all[all.len()..];
            return Some(Err(SheetFault::NoForm { line: number }));
        };
        self.rest = rest;
        match read_line(text) {
            Some(kind) => Some(Ok(Line { number, kind })),
            None => Some(Err(SheetFault::NoForm { line: number })),
        }
    }
}

impl<'a> Iterator for Lines<'a> {
    ghost use Rattle.sheet_lines.specs.Next.{GivesLine, bytes_left};

    type Item = Result<Line<'a>, SheetFault>;

    ghost next_gives = { GivesLine };

    ghost remaining = { bytes_left };

    fn next(&mut self) -> Option<Result<Line<'a>, SheetFault>> {
        self.next_line()
    }
}
