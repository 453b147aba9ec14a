// Quantities.
pub use core_terms::units::{StrikeUsd, UnixTimestamp};
