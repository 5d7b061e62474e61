// The types of the row page index, and in specs/ the meaning of every call.

#![tactic(auto)]

pub mod answer;
pub mod cursor;
pub mod id;
pub mod node;
pub mod path;
