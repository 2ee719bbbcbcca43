// ABIF: the raw entries of the directory, one by one and into a lent list of records; and the opened file, which carries its bytes with its
// directory's place and count.
#![tactic(auto)]

pub mod entry;
pub mod file;
pub mod list;
