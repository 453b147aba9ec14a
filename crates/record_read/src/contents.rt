// The fields of a record beside its outcome, read at their offsets.
ghost use Rattle.std.specs.Prelude.{◌≡◌};
ghost use Rattle.rules.specs.Record.{opening_in, parts_in};
ghost use Rattle.core_terms.specs.Params.{terms_of};
ghost use Rattle.core_parts.specs.States.{stored_of};
ghost use Rattle.record_read.specs.Records.{contents_of, no_contents, contents_from};

use book::look::RECORD_SIZE;
use core_parts::state::SettlementParts;
use core_terms::params::OracleParams;
use core_terms::units::UnixTimestamp;
use endian::LittleEndian;

// What a series is opened with.
#[derive(Debug, Clone, Copy, PartialEq, Eq)]
pub struct Opening {
    pub params: OracleParams,
    pub max_conf_bps: u16,
    pub expiry: UnixTimestamp,
}

// What a record holds beside its outcome.
#[derive(Debug, Clone, Copy, PartialEq, Eq)]
pub struct Contents {
    pub opening: Opening,
    pub state: SettlementParts,
}

// The terms, which lie in another order here than in an entry: one function for both would need each
// offset as a parameter.
fn read_params(bytes: &[u8]) -> OracleParams
    ensures { terms_of result ≡ (opening_in bytes.now).terms }
{
    OracleParams {
        window_s: u32::read(bytes, 12),
        slot_s: u32::read(bytes, 16),
        slot_tolerance_s: u16::read(bytes, 4),
        min_samples: u16::read(bytes, 6),
        k_next_print: u8::read(bytes, 1),
        challenge_delay_s: u32::read(bytes, 20),
        fallback_lookback_s: u32::read(bytes, 24),
        hard_deadline_s: u32::read(bytes, 28),
        expo: i8::read(bytes, 2),
    }
}

// The candidates.
fn read_state(bytes: &[u8]) -> SettlementParts
    ensures { stored_of result ≡ parts_in bytes.now }
{
    SettlementParts {
        sample_sum: u128::read(bytes, 48),
        filled_slots: u32::read(bytes, 32),
        next_times: [64, 72, 80, 88, 96].map(|at| i64::read(bytes, at)),
        next_prices: [104, 112, 120, 128, 136].map(|at| u64::read(bytes, at)),
        next_len: u8::read(bytes, 3),
        fallback_time: i64::read(bytes, 144),
        fallback_price: u64::read(bytes, 152),
        window_changed: i64::read(bytes, 160),
        next_print_changed: i64::read(bytes, 168),
        fallback_changed: i64::read(bytes, 176),
    }
}

// Zeros, which are no terms in range: who reads a record needs no case of its own for bytes of another
// length.
fn no_contents() -> Contents
    ensures { contents_of result ≡ no_contents }
{
    let params = OracleParams {
        window_s: 0,
        slot_s: 0,
        slot_tolerance_s: 0,
        min_samples: 0,
        k_next_print: 0,
        challenge_delay_s: 0,
        fallback_lookback_s: 0,
        hard_deadline_s: 0,
        expo: 0,
    };
    let opening = Opening {
        params,
        max_conf_bps: 0,
        expiry: UnixTimestamp::new(0),
    };
    Contents {
        opening,
        state: SettlementParts::empty(),
    }
}

// The fields as they stand, acceptable or not; bytes of another length hold none. The length is
// tested first, and the compiler then leaves out the tests of the readers.
pub fn read_contents(bytes: &[u8]) -> Contents
    ensures { contents_of result ≡ contents_from bytes.now }
{
    if bytes.len() != RECORD_SIZE {
        return no_contents();
    }
    let opening = Opening {
        params: read_params(bytes),
        max_conf_bps: u16::read(bytes, 8),
        expiry: UnixTimestamp::new(i64::read(bytes, 40)),
    };
    Contents {
        opening,
        state: read_state(bytes),
    }
}
