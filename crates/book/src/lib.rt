// A look at a series: its own bytes of the book; and the refusals of commands. Whoever holds a book
// may call it; it writes nothing.
#![tactic(auto)]

pub mod look;
pub mod refusal;
