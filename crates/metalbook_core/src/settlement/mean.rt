// The mean of prices.
pub use core_prices::mean::to_atoms;
