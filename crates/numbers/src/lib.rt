// Signed times that do not overflow. Every function is total: any crate may call it.
#![tactic(auto)]

pub mod time;
