// The walk over a tree in reading order, and its turns.

#![tactic(auto)]

pub mod turn;
pub mod walk;
