// `check`: whether a sheet passes.
ghost use Rattle.std.specs.Prelude.{◌≡◌, ℕ, ◌≤◌, length, replicate, OnOk};
ghost use Rattle.sheet_format.specs.Orders.{checked_of, map_ok, order_of, summary};
ghost use Rattle.sheet_laws.specs.CheckLaw.{CheckLaw};
ghost use Rattle.sheet.specs.Checking.{after_check, allowed_or_fault};

use super::kept::Kept;
use super::progress::Progress;
use sheet_format::{Checked, MAX_SHEET, SheetFault, WORK_LENGTH};
use sheet_lines::reader::Lines;

// Clears the front of the work area when it ends. The guard of key texts does the same; one for both would be a crate of its own.
struct ClearFront<'a>(&'a mut [u8]);

impl Drop for ClearFront<'_> {
    fn drop(self)
        ensures { self.exit.0.now ≡ replicate (length self.entry.0.now) 0 }
    {
        self.0.fill(0);
        let ClearFront(_) = self;
    }
}

// The first byte that a sheet may not have, and a sheet that is too long.
fn check_bytes(sheet: &[u8]) -> Result<(), SheetFault>
    ensures value { result ≡ allowed_or_fault sheet.now }
    ensures short { OnOk result (length sheet.now ≤ 4096) }
{
    if sheet.len() > MAX_SHEET {
        return Err(SheetFault::TooLong);
    }
    let mut line = 1;
    for b in sheet {
        match *b {
            b'\n' => line += 1,
            32..=126 => {}
            _ => return Err(SheetFault::BadByte { line }),
        }
    }
    Ok(())
}

// Length and bytes first, then line by line from the top.
fn check_in(sheet: &[u8], area: &mut [u8]) -> Result<Checked, SheetFault>
    requires { length area.old ≡ 1792 }
    ensures { result ≡ map_ok summary (order_of sheet.now) }
{
    check_bytes(sheet)?;
    let mut progress = Progress::new(Kept::new(area));
    let mut last = 0;
    for item in Lines::new(sheet) {
        let line = item?;
        last = line.number;
        progress.take_line(line)?;
    }
    progress.finish(last)
}

// Whether a sheet passes: n, the number of bodies and the sum of their blocks, or the one fault for which it is refused.
// The first 1,792 bytes of the work area are zeros afterwards, unless it is shorter.
pub fn check(sheet: &[u8], work: &mut [u8]) -> Result<Checked, SheetFault>
    ensures answer { result ≡ checked_of (length work.old) sheet.now }
    ensures law { 1792 ≤ length work.old → CheckLaw sheet.now result }
    ensures work { work.new ≡ after_check work.old }
{
    if work.len() < WORK_LENGTH {
        return Err(SheetFault::ShortWorkArea);
    }
    // no array of 1,792 bytes by `first_chunk_mut`: a proof then knows nothing of the work area afterwards
    let (front, _) = work.split_at_mut(WORK_LENGTH);
    let guard = ClearFront(front);
    check_in(sheet, &mut *guard.0)
}
