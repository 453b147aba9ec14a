// The core's taking of a print. Each call checks terms, state and print first; any crate may call it.
#![tactic(auto)]

pub mod take;
