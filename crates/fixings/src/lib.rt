// The commands ask and fix, on a lent book. Whoever holds a book may call them; `commands::apply` does.
#![tactic(auto)]

pub mod ask;
pub mod fix;
mod store;
