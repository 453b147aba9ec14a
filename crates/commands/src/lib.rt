// An entry of any bytes, read as a command and given to a book. Whoever holds a book and entries may
// call it.
#![tactic(auto)]

pub mod apply;
pub mod command;
pub mod kind;
