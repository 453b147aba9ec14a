// Open and fixed records written over their own part of the book. What is written is not tested: the
// commands, which have tested it, are to call it.
#![tactic(auto)]

pub mod store;
