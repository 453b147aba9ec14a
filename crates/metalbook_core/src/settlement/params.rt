// The oracle terms.
pub use core_terms::params::{MAX_EXPO, MAX_NEXT_PRINTS, MAX_SLOTS, MIN_EXPO, OracleParams};
