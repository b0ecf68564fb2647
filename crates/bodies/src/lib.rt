// One body of a set, enciphered and tagged piece by piece.
#![tactic(auto)]

pub mod body;
pub mod opening;
pub mod sealing;
