// What the writers share: numbers, copies and zeros written over a part of a lent output.
#![tactic(auto)]

pub mod bytes;
pub mod number;
