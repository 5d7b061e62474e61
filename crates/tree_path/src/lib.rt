// The path to one leaf, towards a row.

#![tactic(auto)]

pub mod path;
