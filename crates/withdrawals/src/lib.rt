// The command withdraw, on a lent book. Whoever holds a book may call it; `commands::apply` does.
#![tactic(auto)]

mod freed;
mod store;
pub mod withdraw;
