// The modes ctr and cbc and the MAC over any block cipher. Each takes its input in pieces of any length.
#![tactic(auto)]

mod blocks;
mod bytes;
pub mod cbc;
mod chain;
pub mod ctr;
pub mod mac;
pub mod opening;
