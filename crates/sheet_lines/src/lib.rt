// The reader of lines of an order sheet.
#![tactic(auto)]

mod fields;
pub mod line;
pub mod reader;
