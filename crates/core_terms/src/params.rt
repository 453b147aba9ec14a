// The oracle terms that a series copies at its opening.
ghost use Rattle.std.specs.Prelude.{◌≡◌, ◌/◌, ◌<◌, take, drop};
ghost use Rattle.rules.specs.Log.{every};
ghost use Rattle.rules.specs.Terms.{terms_tests, good_terms, new_terms, slots};
ghost use Rattle.core_terms.specs.Params.{terms_of, given, params_of};

use crate::error::CoreError;

// Largest number of window slots: the slot bitmap is a u32.
pub const MAX_SLOTS: u32 = 32;

// Capacity of the next-print chain.
pub const MAX_NEXT_PRINTS: u8 = 5;

// Smallest and largest accepted exponent.
pub const MIN_EXPO: i8 = -12;

pub const MAX_EXPO: i8 = 0;

#[derive(Debug, Clone, Copy, PartialEq, Eq)]
pub struct OracleParams {
    pub window_s: u32,
    pub slot_s: u32,
    pub slot_tolerance_s: u16,
    pub min_samples: u16,
    pub k_next_print: u8,
    pub challenge_delay_s: u32,
    pub fallback_lookback_s: u32,
    pub hard_deadline_s: u32,
    pub expo: i8,
}

// The window's slots.
fn good_window(p: OracleParams) -> bool
    ensures { result ≡ every (take 5 (terms_tests (terms_of p))) }
{
    let window = p.window_s;
    let slot = p.slot_s;
    if slot == 0 {
        return false;
    }
    if window % slot != 0 {
        return false;
    }
    let slots = window / slot;
    if slots < 1 {
        return false;
    }
    if MAX_SLOTS < slots {
        return false;
    }
    (p.slot_tolerance_s as u32) < slot
}

// The samples and links that are wanted.
fn good_counts(p: OracleParams) -> bool
    requires { 0 < p.slot_s }
    ensures { result ≡ every (take 4 (drop 5 (terms_tests (terms_of p)))) }
{
    let minimum = p.min_samples;
    if minimum < 1 {
        return false;
    }
    if p.window_s / p.slot_s < (minimum as u32) {
        return false;
    }
    let k = p.k_next_print;
    if k < 1 {
        return false;
    }
    k <= MAX_NEXT_PRINTS
}

// The delays, and the exponent.
fn good_delays(p: OracleParams) -> bool
    ensures { result ≡ every (drop 9 (terms_tests (terms_of p))) }
{
    if p.challenge_delay_s == 0 {
        return false;
    }
    if p.fallback_lookback_s == 0 {
        return false;
    }
    if p.hard_deadline_s <= p.window_s {
        return false;
    }
    let e = p.expo;
    if e < MIN_EXPO {
        return false;
    }
    e <= MAX_EXPO
}

impl OracleParams {
    // Whether the terms are in range: what opening, restoring, taking a print and deciding ask first.
    pub fn in_range(self) -> bool
        ensures { result ≡ good_terms (terms_of self) }
    {
        if !good_window(self) {
            return false;
        }
        if !good_counts(self) {
            return false;
        }
        good_delays(self)
    }

    // The source's constructor: it takes the fields one by one.
    pub fn try_new(
        window_s: u32,
        slot_s: u32,
        slot_tolerance_s: u16,
        min_samples: u16,
        k_next_print: u8,
        challenge_delay_s: u32,
        fallback_lookback_s: u32,
        hard_deadline_s: u32,
        expo: i8,
    ) -> Result<OracleParams, CoreError>
        ensures { params_of result ≡ new_terms (given window_s slot_s slot_tolerance_s min_samples k_next_print challenge_delay_s fallback_lookback_s hard_deadline_s expo) }
    {
        let p = OracleParams {
            window_s,
            slot_s,
            slot_tolerance_s,
            min_samples,
            k_next_print,
            challenge_delay_s,
            fallback_lookback_s,
            hard_deadline_s,
            expo,
        };
        if !p.in_range() {
            return Err(CoreError::InvalidOracleParams);
        }
        Ok(p)
    }

    pub fn window_s(self) -> u32
        ensures { result ≡ self.window_s }
    {
        self.window_s
    }

    pub fn slot_s(self) -> u32
        ensures { result ≡ self.slot_s }
    {
        self.slot_s
    }

    pub fn slot_tolerance_s(self) -> u16
        ensures { result ≡ self.slot_tolerance_s }
    {
        self.slot_tolerance_s
    }

    pub fn min_samples(self) -> u16
        ensures { result ≡ self.min_samples }
    {
        self.min_samples
    }

    pub fn k_next_print(self) -> u8
        ensures { result ≡ self.k_next_print }
    {
        self.k_next_print
    }

    pub fn challenge_delay_s(self) -> u32
        ensures { result ≡ self.challenge_delay_s }
    {
        self.challenge_delay_s
    }

    pub fn fallback_lookback_s(self) -> u32
        ensures { result ≡ self.fallback_lookback_s }
    {
        self.fallback_lookback_s
    }

    pub fn hard_deadline_s(self) -> u32
        ensures { result ≡ self.hard_deadline_s }
    {
        self.hard_deadline_s
    }

    pub fn expo(self) -> i8
        ensures { result ≡ self.expo }
    {
        self.expo
    }

    // The number of window slots; 0 where the slot is 0.
    pub fn slots(self) -> u32
        ensures { result ≡ slots (terms_of self) }
    {
        let slot = self.slot_s;
        if slot == 0 {
            return 0;
        }
        self.window_s / slot
    }
}
