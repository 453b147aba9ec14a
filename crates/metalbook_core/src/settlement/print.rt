// Prints, and their acceptance.
pub use core_prices::print::{Print, Quote, accept_print};
