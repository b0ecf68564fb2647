// What `check` answered, as the table writes it.
ghost use Rattle.std.specs.Prelude.{Some};
ghost use Rattle.sheet_tests.specs.Texts.{answer_text};

use fault::FaultCode;
use sheet_format::{Checked, SheetFault};
use std::fmt;

#[derive(Clone, Copy)]
pub struct Answer(pub Result<Checked, SheetFault>);

impl fmt::Display for Answer {
    ghost output = { λ a. Some (answer_text a.0) };

    fn fmt<W: fmt::Write>(&self, f: &mut fmt::Formatter<W>) -> fmt::Result {
        match self.0 {
            Ok(checked) => {
                let (n, bodies, blocks) = (checked.block_length, checked.bodies, checked.blocks);
                write!(f, "ok {n} {bodies} {blocks}")
            }
            Err(fault) => {
                let code = FaultCode::from(fault);
                write!(f, "no {code}")
            }
        }
    }
}
