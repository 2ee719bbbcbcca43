// The library for C programs: each function is one call of the library, its answer a struct of numbers. include/jintarueng.h declares them.
#![tactic(auto)]

pub mod answers;
pub mod jt_abif;
pub mod jt_abif_list;
pub mod jt_abif_opened;
pub mod jt_abif_write;
pub mod jt_gtc;
pub mod jt_sff;
pub mod jt_sff_write;
