// The fields of SFF files, by value: the checks of the headers, the lengths, the clips, and the parts of a read. No function is lent a file.
#![tactic(auto)]

pub mod clips;
pub mod header;
pub mod padding;
pub mod parts;
pub mod position;
pub mod read;
pub mod read_contents;
pub mod record;
