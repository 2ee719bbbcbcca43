// SFF files over lent bytes: judging, the header, and reads by number, one or many.
#![tactic(auto)]

pub mod flow;
pub mod header;
pub mod judge;
pub mod lookup;
pub(crate) mod read;
pub mod reads;
pub(crate) mod walk;
