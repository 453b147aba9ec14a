// The kinds of commands. The first byte of an entry says which one it is.
ghost use Rattle.std.specs.Prelude.{◌≡◌};
ghost use Rattle.rules.specs.Entries as E;
ghost use Rattle.commands.specs.Kinds.{byte_of, IsKind};

use book::refusal::Refusal;

#[derive(Debug, Clone, Copy, PartialEq, Eq)]
pub enum Kind {
    Open,
    Offer,
    Ask,
    Fix,
    Withdraw,
}

impl TryFrom<u8> for Kind {
    type Error = Refusal;

    ghost try_from_gives = { IsKind };

    #[inline(always)]
    fn try_from(byte: u8) -> Result<Self, Refusal> {
        match byte {
            0x01 => Ok(Kind::Open),
            0x02 => Ok(Kind::Offer),
            0x03 => Ok(Kind::Ask),
            0x04 => Ok(Kind::Fix),
            0x06 => Ok(Kind::Withdraw),
            _ => Err(Refusal::UnknownCommand),
        }
    }
}

impl Kind {
    // How many bytes an entry of this kind has.
    #[inline(always)]
    pub fn width(self) -> usize
        ensures { result ≡ E.width (byte_of self) }
    {
        match self {
            Kind::Open => 38,
            Kind::Offer => 46,
            Kind::Ask | Kind::Fix => 10,
            Kind::Withdraw => 11,
        }
    }
}
