// Why a call was refused: the source's errors that are in use, with their numbers.
ghost use Rattle.std.specs.Prelude.{◌≡◌};
ghost use Rattle.core_terms.specs.Errors.{number_of};

#[derive(Debug, Clone, Copy, PartialEq, Eq)]
pub enum CoreError {
    Overflow = 0,
    InvalidDiscriminant = 1,
    InvariantViolated = 11,
    InvalidOracleParams = 12,
    InvalidPrint = 13,
    PrintNotUsable = 14,
    ExponentMismatch = 16,
    ConfidenceTooWide = 17,
}

impl CoreError {
    pub fn number(self) -> u8
        ensures { result ≡ number_of self }
    {
        self as u8
    }
}
