// The settlement candidates of one series.
ghost use Rattle.std.specs.Prelude.{◌≡◌, ◌^◌, ◌<◌, ltb, eqb, pos};
ghost use Rattle.std.specs.Bool.{beq};
ghost use Rattle.rules.specs.Terms.{Terms, slots};
ghost use Rattle.rules.specs.Prints.{eq_z};
ghost use Rattle.rules.specs.State.{good_state, parts_of, restore};
ghost use Rattle.rules.specs.Series.{no_candidates};
ghost use Rattle.core_terms.specs.Params.{terms_of};
ghost use Rattle.core_parts.specs.States.{stored_of, checked_of, link_place, all_places};

use core_terms::error::CoreError;
use core_terms::params::{MAX_NEXT_PRINTS, MAX_SLOTS, OracleParams};

// The candidates of one series in their stored form, untrusted until `in_range` is asked: the links'
// times and prices are two rows, and where there is no link or no fallback there are zeros.
#[derive(Debug, Clone, Copy, PartialEq, Eq)]
pub struct SettlementParts {
    pub sample_sum: u128,
    pub filled_slots: u32,
    pub next_times: [i64; 5],
    pub next_prices: [u64; 5],
    pub next_len: u8,
    pub fallback_time: i64,
    pub fallback_price: u64,
    pub window_changed: i64,
    pub next_print_changed: i64,
    pub fallback_changed: i64,
}

// No bit at or above the number of slots.
fn bits_ok(bits: u32, slots: u32) -> bool
    ensures { result ≡ ltb bits (2 ^ slots) }
{
    if MAX_SLOTS <= slots {
        return true;
    }
    let above = bits >> slots;
    above == 0
}

// The sum is zero exactly when the bits are.
fn sum_ok(bits: u32, sum: u128) -> bool
    ensures { result ≡ beq (eqb bits 0) (eqb sum 0) }
{
    (bits == 0) == (sum == 0)
}

// Whether place i of the links is as it should be: a price and a later time, or zeros.
fn place_ok(times: [i64; 5], prices: [u64; 5], len: u8, i: usize) -> bool
    requires { i < 5 }
    ensures { result ≡ link_place times prices len i }
{
    let price = prices[i];
    let time = times[i];
    if i < (len as usize) {
        if price == 0 {
            return false;
        }
        if i == 0 {
            return true;
        }
        let before = i - 1;
        let last = times[before];
        return last < time;
    }
    if time != 0 {
        return false;
    }
    price == 0
}

// Whether all five places are.
fn places_ok(times: [i64; 5], prices: [u64; 5], len: u8) -> bool
    ensures { result ≡ all_places (link_place times prices len) 5 }
{
    (0..5).all(|i| place_ok(times, prices, len, i))
}

// The fallback's time is zero exactly when its price is. With `sum_ok` it has a line in common, of
// other types: one function for both would be longer.
fn fallback_ok(time: i64, price: u64) -> bool
    ensures { result ≡ beq (eq_z time (pos 0)) (eqb price 0) }
{
    (time == 0) == (price == 0)
}

impl SettlementParts {
    // No candidates.
    pub fn empty() -> SettlementParts
        ensures { stored_of result ≡ parts_of no_candidates }
    {
        SettlementParts {
            sample_sum: 0,
            filled_slots: 0,
            next_times: [0; 5],
            next_prices: [0; 5],
            next_len: 0,
            fallback_time: 0,
            fallback_price: 0,
            window_changed: 0,
            next_print_changed: 0,
            fallback_changed: 0,
        }
    }

    // `restore`'s test by the number of slots and k, which is all that it asks of the terms. Inlined
    // always, as are the two after it: else each caller copies the state for them, 30 to 130
    // instructions a command.
    #[inline(always)]
    pub fn fits(self, slot_count: u32, k_next_print: u8) -> bool
        ensures { (t : Terms) → slots t ≡ slot_count → t.k ≡ k_next_print → result ≡ good_state t (stored_of self) }
    {
        let bits = self.filled_slots;
        if !bits_ok(bits, slot_count) {
            return false;
        }
        if !sum_ok(bits, self.sample_sum) {
            return false;
        }
        let len = self.next_len;
        if k_next_print < len {
            return false;
        }
        if MAX_NEXT_PRINTS < len {
            return false;
        }
        // Before the links, whose ten numbers the compiler holds at once.
        if !fallback_ok(self.fallback_time, self.fallback_price) {
            return false;
        }
        places_ok(self.next_times, self.next_prices, len)
    }

    // `restore`'s test, of terms that are in range.
    #[inline(always)]
    pub fn in_range(self, params: OracleParams) -> bool
        ensures { result ≡ good_state (terms_of params) (stored_of self) }
    {
        self.fits(params.slots(), params.k_next_print)
    }

    // What each core call on terms and a state asks first: 12 for the terms, 11 for the state.
    #[inline(always)]
    #[tactic(auto, unfolding(rules::specs::State::restore))]
    pub fn check(self, params: OracleParams) -> Result<(), CoreError>
        ensures { checked_of (stored_of self) result ≡ restore (terms_of params) (stored_of self) }
    {
        if !params.in_range() {
            return Err(CoreError::InvalidOracleParams);
        }
        if !self.in_range(params) {
            return Err(CoreError::InvariantViolated);
        }
        Ok(())
    }
}
