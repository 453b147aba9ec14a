// The core's prints, with their acceptance, and the mean of prices. Each call checks what it takes;
// any crate may call it.
#![tactic(auto)]

pub mod mean;
pub mod print;
