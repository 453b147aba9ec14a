// Entries: a command in bytes, or none.
ghost use Rattle.std.specs.Prelude.{◌≡◌};
ghost use Rattle.rules.specs.Series as C;
ghost use Rattle.rules.specs.Entries as E;
ghost use Rattle.rules.specs.Entries.{opening_at, quote_at, width, of_width};
ghost use Rattle.core_terms.specs.Params.{terms_of};
ghost use Rattle.core_prices.specs.Prints.{quote_of};
ghost use Rattle.record_read.specs.Records.{opening_of};
ghost use Rattle.commands.specs.Kinds.{byte_of, command_at};
ghost use Rattle.commands.specs.Entries.{entry_of, series_result_of};

use crate::kind::Kind;
use book::look::SERIES_COUNT;
use book::refusal::Refusal;
use core_prices::print::Quote;
use core_terms::params::OracleParams;
use core_terms::units::UnixTimestamp;
use endian::LittleEndian;
use record_read::contents::Opening;

// A command of a series.
#[derive(Debug, Clone, Copy, PartialEq, Eq)]
pub enum Command {
    Open { series: u8, opening: Opening },
    Offer { series: u8, quote: Quote, now: i64 },
    Ask { series: u8, now: i64 },
    Fix { series: u8, now: i64 },
    Withdraw { series: u8, now: i64, slot: u8 },
}

// The series of an entry of this kind, or 33 or 34.
#[inline(always)]
fn series_of(bytes: &[u8], kind: Kind) -> Result<u8, Refusal>
    ensures { (c : C.Command) → series_result_of result c ≡ of_width (width (byte_of kind)) bytes.now c }
{
    if bytes.len() != kind.width() {
        return Err(Refusal::WrongWidth);
    }
    let series = u8::read(bytes, 1);
    if series >= SERIES_COUNT {
        return Err(Refusal::NoSuchSeries);
    }
    Ok(series)
}

// The terms of an open. They lie in another order in a record, which `record_read` reads.
#[inline(always)]
fn read_params(bytes: &[u8]) -> OracleParams
    ensures { terms_of result ≡ (opening_at bytes.now).terms }
{
    OracleParams {
        window_s: u32::read(bytes, 2),
        slot_s: u32::read(bytes, 6),
        slot_tolerance_s: u16::read(bytes, 10),
        min_samples: u16::read(bytes, 12),
        k_next_print: u8::read(bytes, 14),
        challenge_delay_s: u32::read(bytes, 15),
        fallback_lookback_s: u32::read(bytes, 19),
        hard_deadline_s: u32::read(bytes, 23),
        expo: i8::read(bytes, 27),
    }
}

// What an open opens with.
#[inline(always)]
fn read_opening(bytes: &[u8]) -> Opening
    ensures { opening_of result ≡ opening_at bytes.now }
{
    Opening {
        params: read_params(bytes),
        max_conf_bps: u16::read(bytes, 28),
        expiry: UnixTimestamp::new(i64::read(bytes, 30)),
    }
}

// The quote of an offer.
#[inline(always)]
fn read_quote(bytes: &[u8]) -> Quote
    ensures { quote_of result ≡ quote_at bytes.now }
{
    Quote {
        price: i64::read(bytes, 10),
        conf: u64::read(bytes, 18),
        exponent: i32::read(bytes, 26),
        publish_time: i64::read(bytes, 30),
        prev_publish_time: i64::read(bytes, 38),
    }
}

// The command of this kind, or 33 or 34. Each arm asks for the series itself: so the compiler knows
// the width there, and leaves out the tests of the readers.
#[inline(always)]
fn read_command(bytes: &[u8], kind: Kind) -> Result<Command, Refusal>
    ensures { entry_of result ≡ of_width (width (byte_of kind)) bytes.now (command_at kind bytes.now) }
{
    Ok(match kind {
        Kind::Open => Command::Open {
            series: series_of(bytes, kind)?,
            opening: read_opening(bytes),
        },
        Kind::Offer => Command::Offer {
            series: series_of(bytes, kind)?,
            quote: read_quote(bytes),
            now: i64::read(bytes, 2),
        },
        Kind::Ask => Command::Ask {
            series: series_of(bytes, kind)?,
            now: i64::read(bytes, 2),
        },
        Kind::Fix => Command::Fix {
            series: series_of(bytes, kind)?,
            now: i64::read(bytes, 2),
        },
        Kind::Withdraw => Command::Withdraw {
            series: series_of(bytes, kind)?,
            now: i64::read(bytes, 2),
            slot: u8::read(bytes, 10),
        },
    })
}

// The command that any bytes are, or 33, 32, 33, 34.
#[inline(always)]
pub fn read_entry(bytes: &[u8]) -> Result<Command, Refusal>
    ensures { entry_of result ≡ E.entry bytes.now }
{
    let [first, ..] = bytes else {
        return Err(Refusal::WrongWidth);
    };
    read_command(bytes, Kind::try_from(*first)?)
}
