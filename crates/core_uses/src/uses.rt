// What a print is used for, found by its times.
ghost use Rattle.std.specs.Prelude.{◌≡◌, ◌||◌};
ghost use Rattle.rules.specs.Log.{is_some};
ghost use Rattle.rules.specs.Taking.{bit};
ghost use Rattle.core_terms.specs.Errors.{result_of};
ghost use Rattle.core_uses.specs.Uses.{slot_at, slot_in, first_link, later_link, fallback_in};

use core_prices::print::Print;
use core_terms::error::CoreError;
use core_terms::params::OracleParams;
use numbers::time::{before, span};

// ---- the slot

// Whether slot i is filled: none above 31 is.
pub fn is_filled(bits: u32, i: u8) -> bool
    ensures { result ≡ bit i bits }
{
    i < 32 && (bits >> (i as u32)) % 2 == 1
}

// The slot of a print that lies `offset` seconds after the window's start and `back` after the print
// before it. It lies `late` after the slot's boundary: so prev < boundary is late < back.
fn slot_at(slot: u32, tolerance: u16, bits: u32, offset: u32, back: u64) -> Option<u8>
    ensures { result ≡ slot_at slot tolerance bits offset back }
{
    if slot == 0 {
        return None;
    }
    let index = offset / slot;
    if 32 <= index {
        return None;
    }
    let late = offset % slot;
    if (tolerance as u32) < late {
        return None;
    }
    if back <= (late as u64) {
        return None;
    }
    let i = index as u8;
    if is_filled(bits, i) {
        return None;
    }
    Some(i)
}

// The slot that a print fills, of a window that ends at the expiry. Where the slots fill the window,
// index < slots is offset < window, which needs no division.
pub fn slot_in(p: OracleParams, expiry: i64, bits: u32, x: Print) -> Result<Option<u8>, CoreError>
    ensures { result_of result ≡ slot_in expiry p.window_s p.slot_s p.slot_tolerance_s bits x.publish_time x.prev_publish_time }
{
    let Some(start) = before(expiry, p.window_s) else {
        return Err(CoreError::Overflow);
    };
    let Some(offset) = span(start, x.publish_time) else {
        return Ok(None);
    };
    if (p.window_s as u64) <= offset {
        return Ok(None);
    }
    let Some(back) = span(x.prev_publish_time, x.publish_time) else {
        return Ok(None);
    };
    Ok(slot_at(p.slot_s, p.slot_tolerance_s, bits, offset as u32, back))
}

// ---- the link

// The first link is the print that strictly advances past the expiry.
pub fn first_link(expiry: i64, x: Print) -> Option<u8>
    ensures { result ≡ first_link expiry x.publish_time x.prev_publish_time }
{
    if expiry < x.prev_publish_time {
        return None;
    }
    if x.publish_time <= expiry {
        return None;
    }
    Some(0)
}

// A later one, in place n, is chained on the last and strictly advances.
pub fn later_link(n: u8, last: i64, x: Print) -> Option<u8>
    ensures { result ≡ later_link n last x.publish_time x.prev_publish_time }
{
    if x.prev_publish_time != last {
        return None;
    }
    if x.publish_time <= last {
        return None;
    }
    Some(n)
}

// ---- the fallback

// Whether the print replaces the fallback, which was published at `stored` (0: there is none): a
// later first-of-its-second print of the lookback.
pub fn fallback_in(p: OracleParams, expiry: i64, stored: i64, x: Print) -> Result<bool, CoreError>
    ensures { result_of result ≡ fallback_in expiry p.fallback_lookback_s stored x.publish_time x.prev_publish_time }
{
    let Some(earliest) = before(expiry, p.fallback_lookback_s) else {
        return Err(CoreError::Overflow);
    };
    if x.publish_time < earliest {
        return Ok(false);
    }
    if expiry < x.publish_time {
        return Ok(false);
    }
    if x.publish_time <= x.prev_publish_time {
        return Ok(false);
    }
    Ok(stored < x.publish_time)
}

// ---- all of them

// What a print is used for; `core_take` finds the uses one by one.
#[derive(Debug, Clone, Copy, PartialEq, Eq)]
pub struct PrintUse {
    pub slot: Option<u8>,
    pub next_print: Option<u8>,
    pub fallback: bool,
}

impl PrintUse {
    // Whether the print has a use at all.
    pub fn is_used(self) -> bool
        ensures { result ≡ is_some self.slot || is_some self.next_print || self.fallback }
    {
        self.slot.is_some() || self.next_print.is_some() || self.fallback
    }
}
