// What reading contents answered, as the table writes it.
ghost use Rattle.std.specs.Prelude.{Some};
ghost use Rattle.sheet_format.specs.Orders.{map_ok};
ghost use Rattle.contents.specs.Models.{said_by};
ghost use Rattle.contents_tests.specs.Texts.{answer_text};

use contents::Contents;
use contents_format::ContentsFault;
use fault::FaultCode;
use std::fmt;

#[derive(Clone, Copy)]
pub struct Answer(pub Result<Contents, ContentsFault>);

impl fmt::Display for Answer {
    ghost output = { λ a. Some (answer_text (map_ok said_by a.0)) };

    fn fmt<W: fmt::Write>(&self, f: &mut fmt::Formatter<W>) -> fmt::Result {
        match self.0 {
            Ok(contents) => {
                let n = contents.cipher().block_length();
                let bodies = contents.bodies();
                let m = contents.tag_block().bytes();
                write!(f, "ok {n} {bodies} {m}")
            }
            Err(fault) => {
                let code = FaultCode::from(fault);
                write!(f, "no {code}")
            }
        }
    }
}
