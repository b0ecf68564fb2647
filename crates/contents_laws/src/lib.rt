// The law of contents, carried by the contract of a function that does nothing else.
#![tactic(auto)]

ghost use Rattle.contents_laws.specs.Belonging.{ReadingKeepsLaw};

// Contents are accepted exactly where a sheet that passes has them, and refused at the first entry that shows that none has.
pub fn reading_keeps_the_law()
    ensures { ReadingKeepsLaw }
{}
