// What a record of the book is found to be, and the core's decision on it. Whoever holds a book may
// call it; it writes nothing.
#![tactic(auto)]

pub mod decide;
pub mod status;
