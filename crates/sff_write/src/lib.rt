// Writing SFF files into a lent output: a header for a stated number of reads, each read in turn, finishing.
#![tactic(auto)]

pub(crate) mod header;
pub mod read;
pub mod write;
