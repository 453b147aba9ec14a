// The codecs of a record: what stands in its bytes, acceptable or not. Any crate may call it.
#![tactic(auto)]

pub mod contents;
pub mod outcome;
pub mod tag;
