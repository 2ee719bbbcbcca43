// What the formats share: numbers, floats and parts of lent bytes, the checks of a reading call, those of entries in order, and bulk calls.
#![tactic(auto)]

pub mod bulk;
pub mod check;
pub mod float;
pub mod item;
pub mod number;
pub mod part;
pub mod refusal;
pub mod verdict;
