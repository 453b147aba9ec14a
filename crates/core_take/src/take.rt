// Taking a print: the slot, the link and the fallback that it is used for.
ghost use Rattle.std.specs.Prelude.{◌≡◌, true, if◌then◌else◌};
ghost use Rattle.rules.specs.Answers.{is_used};
ghost use Rattle.rules.specs.Terms.{good_terms};
ghost use Rattle.rules.specs.Taking.{print_answer, place};
ghost use Rattle.rules.specs.State.{candidates_of, parts_of, good_state, add_print_call, add_print_state, offer_call, offer_state};
ghost use Rattle.core_terms.specs.Errors.{result_of};
ghost use Rattle.core_terms.specs.Params.{terms_of};
ghost use Rattle.core_prices.specs.Prints.{print_of, quote_of};
ghost use Rattle.core_parts.specs.States.{stored_of};
ghost use Rattle.core_take.specs.Uses.{used_of, IsUse};
ghost use Rattle.core_take.specs.Placing.{slot_use, link_use, fallback_use, total_after, fillable, with_slot, linkable, with_link, with_fallback};

use core_parts::state::SettlementParts;
use core_prices::print::{Print, Quote, accept_print};
use core_terms::error::CoreError;
use core_terms::params::OracleParams;
use core_terms::units::UnixTimestamp;
pub use core_uses::uses::PrintUse;
use core_uses::uses::{fallback_in, first_link, later_link, slot_in};

// The answer, and beside it the state, as 01 has it: a refusal gives it back as it was.
#[derive(Debug, Clone, Copy, PartialEq, Eq)]
pub struct Added<S> {
    pub result: Result<PrintUse, CoreError>,
    pub state: S,
}

// A print at a series whose terms are in range.
#[derive(Clone, Copy)]
struct Posted {
    params: OracleParams,
    expiry: i64,
    print: Print,
    ghost terms_in_range: { good_terms (terms_of params) ≡ true },
}

// Canonical slot of the print, if it is one and the slot is empty.
fn try_slot(x: Posted, s: SettlementParts) -> Result<Option<u8>, CoreError>
    ensures { result_of result ≡ slot_use (terms_of x.params) x.expiry (candidates_of (stored_of s)) (print_of x.print) }
{
    slot_in(x.params, x.expiry, s.filled_slots, x.print)
}

// Next link of the canonical chain, if the print is it.
fn try_next_print(x: Posted, s: SettlementParts) -> Option<u8>
    ensures { result ≡ link_use (terms_of x.params) x.expiry (candidates_of (stored_of s)) (print_of x.print) }
{
    let len = s.next_len;
    if x.params.k_next_print <= len {
        return None;
    }
    if len == 0 {
        return first_link(x.expiry, x.print);
    }
    let end = (len - 1) as usize;
    later_link(len, s.next_times[end], x.print)
}

// Whether the print replaces the fallback.
fn try_fallback(x: Posted, s: SettlementParts) -> Result<bool, CoreError>
    ensures { result_of result ≡ fallback_use (terms_of x.params) x.expiry (candidates_of (stored_of s)) (print_of x.print) }
{
    fallback_in(x.params, x.expiry, s.fallback_time, x.print)
}

// The sum of the slots' prices, with the price of the slot that is filled, where it fits.
fn sum_after(s: SettlementParts, slot: Option<u8>, price: u64) -> Option<u128>
    ensures { result ≡ total_after (stored_of s).sum slot price }
{
    match slot {
        Some(_) => s.sample_sum.checked_add(price as u128),
        None => Some(s.sample_sum),
    }
}

// The state with the slot filled.
fn with_slot(s: SettlementParts, slot: Option<u8>, sum: u128, now: i64) -> SettlementParts
    requires { fillable s.filled_slots slot ≡ true }
    ensures { stored_of result ≡ with_slot slot sum now (stored_of s) }
{
    let Some(i) = slot else {
        return s;
    };
    SettlementParts {
        filled_slots: s.filled_slots + (1u32 << (i as u32)),
        sample_sum: sum,
        window_changed: now,
        ..s
    }
}

// The state with the print as a link.
#[tactic(auto, unfolding(core_parts::specs::States::stored_of, core_prices::specs::Prints::print_of))]
fn with_next_print(
    s: SettlementParts,
    next_print: Option<u8>,
    x: Print,
    now: i64,
) -> SettlementParts
    requires { linkable next_print ≡ true }
    ensures { stored_of result ≡ with_link next_print (print_of x) now (stored_of s) }
{
    let Some(i) = next_print else {
        return s;
    };
    let mut times = s.next_times;
    let mut prices = s.next_prices;
    times[i as usize] = x.publish_time;
    prices[i as usize] = x.price;
    SettlementParts {
        next_times: times,
        next_prices: prices,
        next_len: i + 1,
        next_print_changed: now,
        ..s
    }
}

// The state with the print as the fallback.
#[tactic(auto, unfolding(core_parts::specs::States::stored_of, core_prices::specs::Prints::print_of))]
fn with_fallback(s: SettlementParts, fallback: bool, x: Print, now: i64) -> SettlementParts
    ensures { stored_of result ≡ with_fallback fallback (print_of x) now (stored_of s) }
{
    if !fallback {
        return s;
    }
    SettlementParts {
        fallback_time: x.publish_time,
        fallback_price: x.price,
        fallback_changed: now,
        ..s
    }
}

// The state with each use of the print made.
fn placed(s: SettlementParts, u: PrintUse, sum: u128, x: Print, now: i64) -> SettlementParts
    requires slot_value { fillable s.filled_slots u.slot ≡ true }
    requires next_print_value { linkable u.next_print ≡ true }
    ensures { stored_of result ≡ with_fallback u.fallback (print_of x) now (with_link u.next_print (print_of x) now (with_slot u.slot sum now (stored_of s))) }
{
    let slotted = with_slot(s, u.slot, sum, now);
    let linked = with_next_print(slotted, u.next_print, x, now);
    with_fallback(linked, u.fallback, x, now)
}

// What the print is used for, and the sum of the slots' prices with it: 0, 14.
fn use_of(x: Posted, s: SettlementParts) -> Result<(PrintUse, u128), CoreError>
    ensures { IsUse (terms_of x.params) x.expiry (stored_of s) (print_of x.print) result }
{
    let slot = try_slot(x, s)?;
    let fallback = try_fallback(x, s)?;
    let Some(sum) = sum_after(s, slot, x.print.price) else {
        return Err(CoreError::Overflow);
    };
    let next_print = try_next_print(x, s);
    let found = PrintUse {
        slot,
        next_print,
        fallback,
    };
    if !found.is_used() {
        return Err(CoreError::PrintNotUsable);
    }
    Ok((found, sum))
}

// Stores the print as every candidate that it qualifies for; a refused one changes nothing.
fn add(x: Posted, s: SettlementParts, now: i64) -> Added<SettlementParts>
    requires { good_state (terms_of x.params) (stored_of s) ≡ true }
    ensures { (used_of result.result ≡ print_answer (terms_of x.params) x.expiry (candidates_of (stored_of s)) (print_of x.print)) × (stored_of result.state ≡ (if is_used (print_answer (terms_of x.params) x.expiry (candidates_of (stored_of s)) (print_of x.print)) then parts_of (place (terms_of x.params) x.expiry (candidates_of (stored_of s)) (print_of x.print) now) else stored_of s)) }
{
    match use_of(x, s) {
        Ok((found, sum)) => Added {
            result: Ok(found),
            state: placed(s, found, sum, x.print, now),
        },
        Err(e) => Added {
            result: Err(e),
            state: s,
        },
    }
}

// Takes a print: 12 for the terms, 11 for the state, 13 for the print, and then the core's
// answer. A refusal gives back the state that was given.
pub fn add_print(
    state: SettlementParts,
    params: OracleParams,
    expiry: UnixTimestamp,
    print: Print,
    now: i64,
) -> Added<SettlementParts>
    ensures { (used_of result.result ≡ add_print_call (terms_of params) expiry.0 (stored_of state) (print_of print)) × (stored_of result.state ≡ add_print_state (terms_of params) expiry.0 (stored_of state) (print_of print) now) }
{
    if let Err(e) = state.check(params) {
        return Added {
            result: Err(e),
            state,
        };
    }
    if !print.in_range() {
        return Added {
            result: Err(CoreError::InvalidPrint),
            state,
        };
    }
    let posted = Posted {
        params,
        expiry: expiry.get(),
        print,
    };
    add(posted, state, now)
}

// An offered print: 12 for the terms, 11 for the state, then its acceptance and the core's
// answer. A refusal gives back the state that was given.
pub fn offer(
    state: SettlementParts,
    params: OracleParams,
    expiry: UnixTimestamp,
    max_conf_bps: u16,
    quote: Quote,
    now: i64,
) -> Added<SettlementParts>
    ensures { (used_of result.result ≡ offer_call (terms_of params) max_conf_bps expiry.0 (stored_of state) (quote_of quote)) × (stored_of result.state ≡ offer_state (terms_of params) max_conf_bps expiry.0 (stored_of state) (quote_of quote) now) }
{
    if let Err(e) = state.check(params) {
        return Added {
            result: Err(e),
            state,
        };
    }
    let accepted = accept_print(
        quote.price,
        quote.conf,
        quote.exponent,
        quote.publish_time,
        quote.prev_publish_time,
        params.expo,
        max_conf_bps,
    );
    let Ok(print) = accepted else {
        // `let .. else` is 01's form for acceptance. What is kept is the refusal, under another type.
        let result = accepted.and(Err(CoreError::InvalidPrint));
        return Added { result, state };
    };
    let posted = Posted {
        params,
        expiry: expiry.get(),
        print,
    };
    add(posted, state, now)
}
