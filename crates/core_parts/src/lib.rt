// The core's state as it is stored, and `restore`'s test of it. Every call is total; any crate may
// call it.
#![tactic(auto)]

pub mod state;
