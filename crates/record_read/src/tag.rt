// The tag of a record, its first byte.
ghost use Rattle.std.specs.Prelude.{◌≡◌};
ghost use Rattle.record_read.specs.Tags.{tag_number, IsTag};

use core_terms::error::CoreError;

// A fixed record says by which order it was decided: the old one, or the voted (#109).
#[derive(Debug, Clone, Copy, PartialEq, Eq)]
pub enum Tag {
    Empty = 0,
    Open = 1,
    FixedOld = 2,
    Fixed = 3,
}

impl TryFrom<u8> for Tag {
    type Error = CoreError;

    ghost try_from_gives = { IsTag };

    fn try_from(byte: u8) -> Result<Self, CoreError> {
        match byte {
            0 => Ok(Tag::Empty),
            1 => Ok(Tag::Open),
            2 => Ok(Tag::FixedOld),
            3 => Ok(Tag::Fixed),
            _ => Err(CoreError::InvariantViolated),
        }
    }
}

impl Tag {
    pub fn number(self) -> u8
        ensures { result ≡ tag_number self }
    {
        self as u8
    }
}
