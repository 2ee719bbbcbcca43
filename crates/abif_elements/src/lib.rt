// ABIF: the elements, the whole numbers and the text of an item in lent bytes.
#![tactic(auto)]

pub mod element;
pub mod numbers;
pub mod text;
