// The fields of a record, and the price of one slot, written over its own part of the book. What is
// written is not tested: `record_store` is to call it.
#![tactic(auto)]

pub mod price;
mod put;
pub mod record;
