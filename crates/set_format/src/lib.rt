// What a set speaks of: the faults for which its calls are refused, and in specs what a set is.
#![tactic(auto)]

ghost use Rattle.std.specs.Prelude.{◌≡◌};
ghost use Rattle.set_format.specs.Faults.{code_of};
ghost use Rattle.set_format.specs.declared.SetFault.TheVariants.{Sheet};

use fault::FaultCode;
use sheet_format::SheetFault;

// Why a call of a set is refused. A body is named by its number, from 1.
#[derive(Clone, Copy, PartialEq, Eq, Debug)]
pub enum SetFault {
    // the sheet is refused, or the work area
    Sheet(SheetFault),
    // the body cipher's block length is not that of the sheet's cipher
    BlockLength,
    // the output of `begin` is too short for the contents
    ShortContents,
    // no body is left
    NoBody,
    // the piece is longer than what the body lacks
    TooLong { body: usize },
    // the body lacks bytes
    Unfinished { body: usize },
    // the output is too short for what the call has to write
    ShortOutput { body: usize },
}

// A sheet's fault is handed on whole.
impl From<SheetFault> for SetFault {
    ghost from_gives = { λ f r. r ≡ Sheet f };

    fn from(fault: SheetFault) -> SetFault {
        SetFault::Sheet(fault)
    }
}

// Layer, number and place.
impl From<SetFault> for FaultCode {
    ghost from_gives = { λ f r. r ≡ code_of f };

    fn from(fault: SetFault) -> FaultCode {
        let (number, place) = match fault {
            SetFault::Sheet(sheet) => return sheet.into(),
            SetFault::BlockLength => (17, 0),
            SetFault::ShortContents => (10, 1),
            SetFault::NoBody => (12, 0),
            SetFault::TooLong { body } => (11, body),
            SetFault::Unfinished { body } => (13, body),
            SetFault::ShortOutput { body } => (10, body),
        };
        FaultCode {
            layer: 3,
            number,
            place,
        }
    }
}
