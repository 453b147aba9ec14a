// The test of what prints leave in a record (#111), where it stands in its bytes. Whoever holds a
// record may call it; it writes nothing.
#![tactic(auto)]

pub mod holdings;
