// Why a call was refused.
pub use core_terms::error::CoreError;
