// Reading a store: where its words lie, its header, and its words lent for reading and for writing.

#![tactic(auto)]

pub mod header;
pub mod layout;
pub mod store;
