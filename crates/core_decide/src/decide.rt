// The settlement cascade: what a series' candidates settle at, and from when.
ghost use Rattle.std.specs.Prelude.{◌≡◌, ◌+◌, ◌*◌, ◌^◌, ◌≤◌, ℤ, pos, ◌+ℤ◌, Result};
ghost use Rattle.rules.specs.Log.{front, total};
ghost use Rattle.rules.specs.Answers.{Answer, number, final};
ghost use Rattle.rules.specs.Decision.{ones, settle, from, voted, decide_by};
ghost use Rattle.rules.specs.State.{candidates_of, decide_call};
ghost use Rattle.core_terms.specs.Params.{terms_of};
ghost use Rattle.core_terms.specs.declared.error.CoreError.{CoreError};
ghost use Rattle.core_parts.specs.States.{stored_of};
ghost use Rattle.core_decide.specs.Decisions.{method_of, IsMethod, answer_of, decision_of, order_of, chain_first, decide_from};
ghost use Rattle.core_decide.specs.declared.decide.Decision.{Decision};

use core_parts::state::SettlementParts;
use core_prices::mean::to_atoms;
use core_terms::error::CoreError;
use core_terms::params::OracleParams;
use core_terms::units::{StrikeUsd, UnixTimestamp};
use numbers::time::{after, later};

#[derive(Debug, Clone, Copy, PartialEq, Eq)]
pub enum SettleMethod {
    Window = 0,
    NextPrint = 1,
    PartialNextPrint = 2,
    PartialWindow = 3,
    Fallback = 4,
    Void = 5,
}

impl TryFrom<u8> for SettleMethod {
    type Error = CoreError;

    ghost try_from_gives = { IsMethod };

    #[tactic(auto, unfolding(rules::specs::Answers::method))]
    fn try_from(value: u8) -> Result<Self, CoreError> {
        match value {
            0 => Ok(SettleMethod::Window),
            1 => Ok(SettleMethod::NextPrint),
            2 => Ok(SettleMethod::PartialNextPrint),
            3 => Ok(SettleMethod::PartialWindow),
            4 => Ok(SettleMethod::Fallback),
            5 => Ok(SettleMethod::Void),
            _ => Err(CoreError::InvalidDiscriminant),
        }
    }
}

impl SettleMethod {
    pub fn number(self) -> u8
        ensures { result ≡ number (method_of self) }
    {
        self as u8
    }
}

#[derive(Debug, Clone, Copy, PartialEq, Eq)]
pub enum Decision {
    Settle {
        method: SettleMethod,
        price: StrikeUsd,
        samples: u16,
    },
    Void,
    Wait {
        until: i64,
    },
}

impl Decision {
    // Settle or Void.
    pub fn is_final(self) -> bool
        ensures { result ≡ final (answer_of self) }
    {
        !matches!(self, Decision::Wait { .. })
    }
}

// Which of the two partial steps comes first: of old the chain's, by the members' vote the window's
// where it has more prints, else the chain's (#109).
#[derive(Debug, Clone, Copy, PartialEq, Eq)]
pub enum Order {
    Old,
    Voted,
}

// What `then` gives once t + d has come, and until then a Wait for it.
fn from_then<F: FnOnce() -> Result<Decision, CoreError>>(
    t: i64,
    d: u32,
    now: i64,
    then: F,
) -> Result<Decision, CoreError>
    requires { F.pre then }
    ensures { (a : Answer) → ((r : Result Decision CoreError) → F.post then r → decision_of r ≡ a) → decision_of result ≡ from now (t +ℤ pos d) a }
{
    let Some(until) = after(t, d) else {
        return Err(CoreError::Overflow);
    };
    if now < until {
        return Ok(Decision::Wait { until });
    }
    then()
}

// By the mean of count prices with this sum.
fn settle(method: SettleMethod, sum: u128, count: u16, expo: i8) -> Result<Decision, CoreError>
    ensures { decision_of result ≡ settle expo (method_of method) sum count }
{
    Ok(Decision::Settle {
        method,
        price: to_atoms(sum, count as u32, expo)?,
        samples: count,
    })
}

// The same, from the terms' delay after t on.
fn settle_from(
    p: OracleParams,
    t: i64,
    now: i64,
    method: SettleMethod,
    sum: u128,
    count: u16,
) -> Result<Decision, CoreError>
    ensures { decision_of result ≡ from now (t +ℤ pos p.challenge_delay_s) (settle p.expo (method_of method) sum count) }
{
    from_then(
        t,
        p.challenge_delay_s,
        now,
        || settle(method, sum, count, p.expo),
    )
}

// A sum of at most five prices, high * 2^64 + low (#108).
#[derive(Clone, Copy)]
struct Narrow {
    high: u8,
    low: u64,
}

// The first len prices added. All five places are gone through, so that the loop's length is known
// when it is compiled.
fn add_prices(prices: [u64; 5], len: u8) -> Narrow
    ensures { (result.high * 2 ^ 64 + result.low ≡ total (front 0 len prices)) × (result.high ≤ 4) }
{
    let mut high: u8 = 0;
    let mut low: u64 = 0;
    for i in 0..5 {
        if i < (len as usize) {
            let price = prices[i];
            let room = 0xffff_ffff_ffff_ffff - price;
            if low <= room {
                low += price;
            } else {
                low = low - room - 1;
                high += 1;
            }
        }
    }
    Narrow { high, low }
}

// The sum of the first len prices.
fn chain_sum(prices: [u64; 5], len: u8) -> u128
    ensures { result ≡ total (front 0 len prices) }
{
    let Narrow { high, low } = add_prices(prices, len);
    (high as u128) * 0x1_0000_0000_0000_0000 + (low as u128)
}

// By the mean of the chain's prices, from the terms' delay after t on. The sum is taken only then.
fn chain_from(
    p: OracleParams,
    s: SettlementParts,
    t: i64,
    now: i64,
    method: SettleMethod,
) -> Result<Decision, CoreError>
    ensures { decision_of result ≡ from now (t +ℤ pos p.challenge_delay_s) (settle p.expo (method_of method) (total (front 0 s.next_len s.next_prices)) s.next_len) }
{
    from_then(t, p.challenge_delay_s, now, || {
        let sum = chain_sum(s.next_prices, s.next_len);
        settle(method, sum, s.next_len as u16, p.expo)
    })
}

// No price, from the terms' delay after t on.
fn void_from(p: OracleParams, t: i64, now: i64) -> Result<Decision, CoreError>
    ensures { decision_of result ≡ from now (t +ℤ pos p.challenge_delay_s) Answer.Void }
{
    from_then(t, p.challenge_delay_s, now, || Ok(Decision::Void))
}

// Whether the chain has its turn, with n slots filled: there is a link, and the window is not ahead.
fn chain_first(links: u8, n: u16, order: Order) -> bool
    ensures { result ≡ chain_first (order_of order) n links }
{
    if links == 0 {
        return false;
    }
    if n <= (links as u16) {
        return true;
    }
    order == Order::Old
}

// The steps from the hard deadline on, with n slots filled.
fn partial(
    p: OracleParams,
    s: SettlementParts,
    n: u16,
    hard: i64,
    now: i64,
    order: Order,
) -> Result<Decision, CoreError>
    ensures { (E : ℤ) → hard ≡ E +ℤ pos p.hard_deadline_s → n ≡ ones s.filled_slots → decision_of result ≡ decide_from 5 (terms_of p) E (candidates_of (stored_of s)) now (order_of order) }
{
    if now < hard {
        return Ok(Decision::Wait { until: hard });
    }
    if chain_first(s.next_len, n, order) {
        let t = later(hard, s.next_print_changed);
        return chain_from(p, s, t, now, SettleMethod::PartialNextPrint);
    }
    if 0 < n {
        let t = later(hard, s.window_changed);
        return settle_from(p, t, now, SettleMethod::PartialWindow, s.sample_sum, n);
    }
    if 0 < s.fallback_price {
        let t = later(hard, s.fallback_changed);
        return settle_from(
            p,
            t,
            now,
            SettleMethod::Fallback,
            s.fallback_price as u128,
            1,
        );
    }
    void_from(p, hard, now)
}

// The decision at the time now on a series with the terms p that expires at expiry. Terms, state and
// times are handed on one by one, as the source has them.
fn cascade(
    p: OracleParams,
    s: SettlementParts,
    expiry: i64,
    now: i64,
    order: Order,
) -> Result<Decision, CoreError>
    ensures { decision_of result ≡ decide_by (terms_of p) expiry (candidates_of (stored_of s)) now (order_of order) }
{
    if now < expiry {
        return Ok(Decision::Wait { until: expiry });
    }
    let Some(hard) = after(expiry, p.hard_deadline_s) else {
        return Err(CoreError::Overflow);
    };
    let n = u32::count_ones(s.filled_slots) as u16;
    if p.slots() <= (n as u32) {
        return settle(SettleMethod::Window, s.sample_sum, n, p.expo);
    }
    if p.min_samples <= n {
        let t = later(expiry, s.window_changed);
        return settle_from(p, t, now, SettleMethod::Window, s.sample_sum, n);
    }
    if p.k_next_print <= s.next_len {
        return chain_from(p, s, expiry, now, SettleMethod::NextPrint);
    }
    partial(p, s, n, hard, now, order)
}

// The decision at the time now by an order: 12 for the terms, 11 for the state, and then the
// cascade's. By the old order it is the Rust's.
#[tactic(auto, unfolding(rules::specs::State::decide_call))]
pub fn decide_by(
    state: SettlementParts,
    params: OracleParams,
    expiry: UnixTimestamp,
    now: i64,
    order: Order,
) -> Result<Decision, CoreError>
    ensures { decision_of result ≡ decide_call (order_of order) (terms_of params) expiry.0 (stored_of state) now }
{
    state.check(params)?;
    cascade(params, state, expiry.get(), now, order)
}

// The decision at the time now, by the vote.
pub fn decide(
    state: SettlementParts,
    params: OracleParams,
    expiry: UnixTimestamp,
    now: i64,
) -> Result<Decision, CoreError>
    ensures { decision_of result ≡ decide_call voted (terms_of params) expiry.0 (stored_of state) now }
{
    decide_by(state, params, expiry, now, Order::Voted)
}
