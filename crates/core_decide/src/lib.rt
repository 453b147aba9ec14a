// The core's decision. It checks terms and state first; any crate may call it.
#![tactic(auto)]

pub mod decide;
