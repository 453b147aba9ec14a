// The test of a record's slot prices, where they stand in its bytes. Whoever holds a record may call
// it; it writes nothing.
#![tactic(auto)]

pub mod prices;
