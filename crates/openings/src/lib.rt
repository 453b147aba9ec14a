// The commands open and offer, on a lent book. Whoever holds a book may call them; `commands::apply`
// does.
#![tactic(auto)]

pub mod offer;
pub mod open;
mod store;
