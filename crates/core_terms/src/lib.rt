// The core's first layer: refusals, units and the terms. Every call is total; any crate may call it.
#![tactic(auto)]

pub mod error;
pub mod params;
pub mod units;
