// The uses of a print by its times: slot, link, fallback. Arithmetic, whatever the terms and the
// print are; any crate may call it.
#![tactic(auto)]

pub mod uses;
