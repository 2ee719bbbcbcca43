// ABIF: a file written from lent item records and their data.
#![tactic(auto)]

pub(crate) mod entry;
pub(crate) mod file;
pub mod item;
pub(crate) mod item_contents;
pub mod write;
