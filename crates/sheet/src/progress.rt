// How far a sheet is checked, and what the next line does to it.
ghost use Rattle.std.specs.Prelude.{◌≡◌, ℕ, ◌+◌, ◌<◌, ◌≤◌, true, List, [], length, is_some, IfOk, OnOk};
ghost use Rattle.sheet_format.specs.Lines.{body as body_line, cipher as cipher_line, Line as FormatLine};
ghost use Rattle.sheet_format.specs.Orders.{bodies_in, ciphers_in, map_ok, order_at_end, summary};
ghost use Rattle.sheet.specs.Kept.{Keeps};
ghost use Rattle.sheet.specs.Progress.{Advanced, Fits, Reached, Stands, admitted};
ghost use Rattle.sheet.specs.Slots.{ctr_start};
ghost use Rattle.sheet_lines.specs.Models.{body_model, form_model};

use super::kept::Kept;
use sheet_format::{Checked, CipherKind, MAX_BLOCKS, MAX_BODIES, MAX_LENGTH, Mode, SheetFault};
use sheet_lines::line::{BodyLine, Line, LineKind};

// What the lines so far have said: the cipher, how many blocks, and the bodies.
#[derive(Drop)]
pub struct Progress<'a> {
    cipher: Option<CipherKind>,
    blocks: u64,
    kept: Kept<'a>,
}

impl<'a> Progress<'a> {
    pub fn new(kept: Kept<'a>) -> Self
        requires { Keeps kept [] }
        ensures { Stands result [] }
    {
        Progress {
            cipher: None,
            blocks: 0,
            kept,
        }
    }

    // The blocks of all bodies together with this one, or the fault for which its line is refused.
    fn admit(&self, body: BodyLine<'_>, line: usize) -> Result<u64, SheetFault>
        requires blocks { self.now.blocks ≤ 1000000 }
        requires start { 1 ≤ length body.start.now }
        ensures value { (earlier : List FormatLine) → Stands self.now earlier → result ≡ admitted line earlier (body_model body.entry) }
        ensures room { OnOk result (self.now.kept.count < 32) }
        ensures start { OnOk result (length (ctr_start (body_model body.entry)) ≤ 16) }
        ensures limit { IfOk result (λ total. total ≤ 1000000) }
        ensures cipher { OnOk result (is_some self.now.cipher ≡ true) }
    {
        let cipher = self.cipher.ok_or(SheetFault::MisplacedCipher { line })?;
        if self.kept.count >= MAX_BODIES {
            return Err(SheetFault::BodyCount { line });
        }
        if body.length.value > MAX_LENGTH || body.length.padded {
            return Err(SheetFault::BadLength { line });
        }
        if body.start.len() != body.mode.start_digits(cipher) {
            return Err(SheetFault::StartDigits { line });
        }
        if self.kept.name_taken(body.name) {
            return Err(SheetFault::RepeatedName { line });
        }
        if body.mode == Mode::Ctr && self.kept.start_taken(body.start) {
            return Err(SheetFault::RepeatedStart { line });
        }
        let blocks = body.mode.blocks(cipher, body.length.value);
        if blocks > MAX_BLOCKS - self.blocks {
            return Err(SheetFault::TooManyBlocks { line });
        }
        Ok(self.blocks + blocks)
    }

    fn take_cipher(&mut self, cipher: CipherKind, line: usize) -> Result<(), SheetFault>
        ensures { Advanced self.old self.new line (cipher_line cipher) result }
    {
        if self.cipher.is_some() {
            return Err(SheetFault::MisplacedCipher { line });
        }
        self.cipher = Some(cipher);
        Ok(())
    }

    fn take_body(&mut self, body: BodyLine<'_>, line: usize) -> Result<(), SheetFault>
        requires reached { Reached self.old }
        requires fits { Fits (body_line (body_model body)) }
        ensures { Advanced self.old self.new line (body_line (body_model body.entry)) result }
    {
        let blocks = self.admit(body, line)?;
        self.kept.keep(body);
        self.blocks = blocks;
        Ok(())
    }

    // Goes through one line more.
    pub fn take_line(&mut self, line: Line<'_>) -> Result<(), SheetFault>
        requires reached { Reached self.old }
        requires fits { Fits (form_model line.kind) }
        ensures { Advanced self.old self.new line.entry.number (form_model line.entry.kind) result }
    {
        match line.kind {
            LineKind::Blank | LineKind::Comment => Ok(()),
            LineKind::Cipher(cipher) => self.take_cipher(cipher, line.number),
            LineKind::Body(body) => self.take_body(body, line.number),
        }
    }

    // The answer at the end of a sheet, whose last line has that number.
    pub fn finish(&self, last: usize) -> Result<Checked, SheetFault>
        requires { last ≤ 4096 }
        ensures { (earlier : List FormatLine) → Stands self.now earlier → result ≡ map_ok summary (order_at_end (last + 1) (ciphers_in earlier) (bodies_in earlier)) }
    {
        let cipher = self
            .cipher
            .ok_or(SheetFault::MisplacedCipher { line: last + 1 })?;
        if self.kept.count == 0 {
            return Err(SheetFault::BodyCount { line: last + 1 });
        }
        Ok(Checked {
            block_length: cipher.block_length(),
            bodies: self.kept.count,
            blocks: self.blocks,
        })
    }
}
