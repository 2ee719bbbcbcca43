// ABIF: the check of a file's tags against the tables that document 000 prints for each instrument and software.
#![tactic(auto)]

pub mod check;
mod finding;
mod order;
mod profile;
mod report;
mod table;
