// Lines of text from a reader: their words and numbers.

#![tactic(auto)]

pub mod line;
pub mod number;
