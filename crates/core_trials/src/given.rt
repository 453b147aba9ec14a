// The terms and the states of a record, by the offsets that trials/README.md lists.
ghost use Rattle.std.specs.Prelude.{◌≤◌};

use endian::LittleEndian;
use metalbook_core::error::CoreError;
use metalbook_core::settlement::params::OracleParams;
use metalbook_core::settlement::state::SettlementParts;

// The terms, which every record that has some starts with.
pub(crate) fn terms(b: &[u8]) -> Result<OracleParams, CoreError> {
    OracleParams::try_new(
        u32::read(b, 0),
        u32::read(b, 4),
        u16::read(b, 8),
        u16::read(b, 10),
        u8::read(b, 12),
        u32::read(b, 13),
        u32::read(b, 17),
        u32::read(b, 21),
        i8::read(b, 25),
    )
}

// The five numbers that stand side by side from an offset on. Not by `map`: it asks that five of T fit
// into memory, which is not known of every T.
fn links<T: LittleEndian<8>>(b: &[u8], at: usize) -> [T; 5]
    requires { at ≤ 60 }
{
    [
        T::read(b, at),
        T::read(b, at + 8),
        T::read(b, at + 16),
        T::read(b, at + 24),
        T::read(b, at + 32),
    ]
}

// The state that b starts with.
pub(crate) fn parts(b: &[u8]) -> SettlementParts {
    SettlementParts {
        sample_sum: u128::read(b, 0),
        filled_slots: u32::read(b, 16),
        next_times: links(b, 20),
        next_prices: links(b, 60),
        next_len: u8::read(b, 100),
        fallback_time: i64::read(b, 101),
        fallback_price: u64::read(b, 109),
        window_changed: i64::read(b, 117),
        next_print_changed: i64::read(b, 125),
        fallback_changed: i64::read(b, 133),
    }
}
