// The line of text of an answer. Any crate may call `line::write_line`, with an out of any length.
#![tactic(auto)]

pub mod line;
mod text;
