// The fields of a line, and the words that stand in them; `values` reads fields whose kinds are told by one letter for each.
#![tactic(auto)]

pub mod fields;
pub mod values;
pub mod words;
