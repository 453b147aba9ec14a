// What the programs share that replay recorded samples: how a sample is read, and how its answers
// are counted.
#![tactic(auto)]

pub mod compared;
pub mod fault;
pub mod replay;
