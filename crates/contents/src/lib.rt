// Rules of contents that readers and writers share. They are lent bytes of an item or of a read, and no file.
#![tactic(auto)]

pub mod date;
pub mod steps;
pub mod text;
pub mod time;
