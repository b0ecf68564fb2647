// `check`: whether an order sheet passes.
#![tactic(auto)]

mod checking;
mod kept;
mod progress;

pub use checking::check;
