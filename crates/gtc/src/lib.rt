// GTC: judging and lookup, of a file in lent bytes.
#![tactic(auto)]

pub mod entry;
pub mod item;
pub mod judge;
pub mod lookup;
pub mod table;
