// The refusals of commands, with their numbers.
ghost use Rattle.std.specs.Prelude.{◌≡◌};
ghost use Rattle.book.specs.Refusals.{refusal_number, IsInBook};

use core_terms::error::CoreError;

#[derive(Debug, Clone, Copy, PartialEq, Eq)]
pub enum Refusal {
    Overflow = 0,
    InvalidDiscriminant = 1,
    InvariantViolated = 11,
    InvalidOracleParams = 12,
    InvalidPrint = 13,
    PrintNotUsable = 14,
    ExponentMismatch = 16,
    ConfidenceTooWide = 17,
    UnknownCommand = 32,
    WrongWidth = 33,
    NoSuchSeries = 34,
    WrongBook = 35,
    SeriesUsed = 36,
    SeriesEmpty = 37,
    SeriesFixed = 38,
    StillWaiting = 39,
    NoSuchSlot = 40,
    SlotEmpty = 41,
}

impl Refusal {
    pub fn number(self) -> u8
        ensures { result ≡ refusal_number self }
    {
        self as u8
    }
}

// The book's refusal for one of the core on a record: terms out of range make a record that is not
// acceptable.
impl From<CoreError> for Refusal {
    ghost from_gives = { IsInBook };

    fn from(e: CoreError) -> Refusal {
        match e {
            CoreError::Overflow => Refusal::Overflow,
            CoreError::InvalidDiscriminant => Refusal::InvalidDiscriminant,
            CoreError::InvariantViolated => Refusal::InvariantViolated,
            CoreError::InvalidOracleParams => Refusal::InvariantViolated,
            CoreError::InvalidPrint => Refusal::InvalidPrint,
            CoreError::PrintNotUsable => Refusal::PrintNotUsable,
            CoreError::ExponentMismatch => Refusal::ExponentMismatch,
            CoreError::ConfidenceTooWide => Refusal::ConfidenceTooWide,
        }
    }
}
