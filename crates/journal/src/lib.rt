// A journal's bytes split into commands, and given to a book with the line of each answer. Any crate
// may call `first_width`, `feed` and `write_sheet`, with bytes of any length.
#![tactic(auto)]

pub mod feed;
pub mod sheet;
pub mod split;
