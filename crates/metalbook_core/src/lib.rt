// The settlement core: a port of metalbook-core, with its names and its file layout, over the layers
// core_terms to core_decide. Each call checks what it takes; any crate may call it.
#![tactic(auto)]

pub mod error;
pub mod settlement;
pub mod units;
