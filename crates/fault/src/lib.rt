// A fault as a user meets it.
#![tactic(auto)]

ghost use Rattle.std.specs.Prelude.{Some};
ghost use Rattle.fault.specs.Texts.{fault_text};

use std::fmt;

// The layers are 1 blocks and keys, 2 sheet, 3 set, 4 opener. The place is a line, a body, or 0.
// They stay numbers here, since they are what a user is told; each layer has an enum of its faults before them.
#[derive(Clone, Copy, PartialEq, Eq, Debug)]
pub struct FaultCode {
    pub layer: u8,
    pub number: u8,
    pub place: usize,
}

// `LAYER NUMBER PLACE`.
impl fmt::Display for FaultCode {
    ghost output = { λ c. Some (fault_text c) };

    fn fmt<W: fmt::Write>(&self, f: &mut fmt::Formatter<W>) -> fmt::Result {
        let FaultCode {
            layer,
            number,
            place,
        } = *self;
        write!(f, "{layer} {number} {place}")
    }
}
