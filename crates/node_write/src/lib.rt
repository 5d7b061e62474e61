// Writing a store: a word, a node's header, an empty node.

#![tactic(auto)]

pub mod write;
