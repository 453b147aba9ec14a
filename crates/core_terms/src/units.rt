// Quantities, each with its own type, so that a time can't pass for a price.
ghost use Rattle.std.specs.Prelude.{◌≡◌};

// A price in USDC atoms per troy ounce.
#[derive(Debug, Clone, Copy, PartialEq, Eq)]
pub struct StrikeUsd(u64);

impl StrikeUsd {
    pub fn new(atoms_per_ounce: u64) -> StrikeUsd
        ensures { result.0 ≡ atoms_per_ounce }
    {
        StrikeUsd(atoms_per_ounce)
    }

    pub fn get(self) -> u64
        ensures { result ≡ self.0 }
    {
        self.0
    }
}

// Seconds since the Unix epoch.
#[derive(Debug, Clone, Copy, PartialEq, Eq)]
pub struct UnixTimestamp(i64);

impl UnixTimestamp {
    pub fn new(seconds: i64) -> UnixTimestamp
        ensures { result.0 ≡ seconds }
    {
        UnixTimestamp(seconds)
    }

    pub fn get(self) -> i64
        ensures { result ≡ self.0 }
    {
        self.0
    }
}
