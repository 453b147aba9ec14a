// The mean of prices: a product by a power of ten in 128 bits, and a long division with two digits
// of 32 bits, since a division of 128 bits takes longer.
ghost use Rattle.std.specs.Prelude.{◌≡◌, ◌+◌, ◌*◌, ◌/◌, ◌^◌, ◌≤◌, ◌<◌};
ghost use Rattle.rules.specs.Mean.{rounded, mean};
ghost use Rattle.core_prices.specs.Prices.{price_of, priced};

use core_terms::error::CoreError;
use core_terms::params::{MAX_EXPO, MIN_EXPO};
use core_terms::units::StrikeUsd;

// The quotient of h * 2^64 + l by d, for h < d.
fn narrow(h: u64, l: u64, d: u64) -> u64
    requires { (h < d) × (d ≤ 2 ^ 32) }
    ensures { result ≡ (h * 2 ^ 64 + l) / d }
{
    let top = h * 0x1_0000_0000 + l / 0x1_0000_0000;
    let rest = (top % d) * 0x1_0000_0000 + l % 0x1_0000_0000;
    (top / d) * 0x1_0000_0000 + rest / d
}

// sum * up / (count * down), to nearest.
fn ratio(sum: u128, count: u32, up: u64, down: u64) -> Result<StrikeUsd, CoreError>
    requires { (0 < count) × (0 < down) × (0 < up) × (up ≤ 1000000) × (down ≤ 1000000) × (down * up ≤ 1000000) }
    ensures { price_of result ≡ priced (rounded (sum * up) (count * down)) }
{
    let n = count as u64;
    let den = n * down;
    let hi = (sum >> 64) as u64;
    if den <= hi {
        return Err(CoreError::Overflow);
    }
    let scaled = sum * (up as u128) + (den / 2) as u128;
    let high = (scaled >> 64) as u64;
    if den <= high {
        return Err(CoreError::Overflow);
    }
    let low = (scaled % 0x1_0000_0000_0000_0000) as u64;
    let inner = narrow(high % down, low, down);
    Ok(StrikeUsd::new(narrow(high / down, inner, n)))
}

// 10^n. A table: `10u64.pow` takes about 4 ns more for each mean.
fn power(n: u8) -> u64
    requires { n ≤ 6 }
    ensures { (result ≡ 10 ^ n) × (0 < result) × (result ≤ 1000000) }
{
    match n {
        0 => 1,
        1 => 10,
        2 => 100,
        3 => 1000,
        4 => 10000,
        5 => 100000,
        _ => 1000000,
    }
}

// The mean of count prices with this sum, at the exponent expo.
pub fn to_atoms(sum: u128, count: u32, expo: i8) -> Result<StrikeUsd, CoreError>
    ensures { price_of result ≡ mean sum count expo }
{
    if expo < MIN_EXPO {
        return Err(CoreError::InvalidOracleParams);
    }
    if MAX_EXPO < expo {
        return Err(CoreError::InvalidOracleParams);
    }
    if count == 0 {
        return Err(CoreError::Overflow);
    }
    if expo < -6 {
        return ratio(sum, count, 1, power((-6 - expo) as u8));
    }
    ratio(sum, count, power((expo + 6) as u8), 1)
}
