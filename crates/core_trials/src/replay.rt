// One call of the core on what a record gives, compared with every value that the record answers.
// Each takes its record whole, the bytes behind the number of the call: trials/README.md lists how
// many they are.
ghost use Rattle.std.specs.Prelude.{◌≤◌, length};

use crate::given::{parts, terms};
use endian::LittleEndian;
use metalbook_core::error::CoreError;
use metalbook_core::settlement::decide::{Decision, Order, SettleMethod};
use metalbook_core::settlement::mean::to_atoms;
use metalbook_core::settlement::params::OracleParams;
use metalbook_core::settlement::print::{Print, accept_print};
use metalbook_core::settlement::state::SettlementState;
use metalbook_core::settlement::take::PrintUse;
use metalbook_core::units::UnixTimestamp;

// ---- mean and acceptance

pub(crate) fn mean(b: &[u8; 30]) -> bool {
    let answer = match to_atoms(u128::read(b, 0), u32::read(b, 16), i8::read(b, 20)) {
        Ok(price) => (255, price.get()),
        Err(e) => (e.number(), 0),
    };
    (u8::read(b, 21), u64::read(b, 22)) == answer
}

fn is_accepted(b: &[u8], r: Result<Print, CoreError>) -> bool {
    let answer = match r {
        Ok(p) => (255, p.price(), p.publish_time(), p.prev_publish_time()),
        Err(e) => (e.number(), 0, 0, 0),
    };
    (
        u8::read(b, 39),
        u64::read(b, 40),
        i64::read(b, 48),
        i64::read(b, 56),
    ) == answer
}

pub(crate) fn accept(b: &[u8; 64]) -> bool {
    let answer = accept_print(
        i64::read(b, 0),
        u64::read(b, 8),
        i32::read(b, 16),
        i64::read(b, 20),
        i64::read(b, 28),
        i8::read(b, 36),
        u16::read(b, 37),
    );
    is_accepted(b, answer)
}

// ---- states

// A refusal's number, or 255.
fn code<T: Drop>(r: Result<T, CoreError>) -> u8 {
    r.err().map_or(255, |e| e.number())
}

pub(crate) fn restore(b: &[u8; 309]) -> bool {
    let Ok(p) = terms(b) else {
        return false;
    };
    let r = SettlementState::restore(p, parts(&b[26..]));
    u8::read(b, 167) == code(r.result) && r.state.parts() == parts(&b[168..])
}

// The terms and the state that a record starts with, if the state can be restored.
fn state(b: &[u8]) -> Option<(OracleParams, SettlementState)>
    requires { 26 ≤ length b.now }
{
    let p = terms(b).ok()?;
    let r = SettlementState::restore(p, parts(&b[26..]));
    r.result.is_ok().then_some((p, r.state))
}

// ---- a print taken

// Whether b is the answer. Behind the number of a refusal there are three zeros.
fn is_answered(b: &[u8], r: Result<PrintUse, CoreError>) -> bool {
    let answer = match r {
        Ok(u) => {
            [
                255,
                u.slot.unwrap_or(255),
                u.next_print.unwrap_or(255),
                u.fallback as u8,
            ]
        }
        Err(e) => [e.number(), 0, 0, 0],
    };
    b == answer.as_slice()
}

pub(crate) fn add_print(b: &[u8; 352]) -> bool {
    let Some((p, s)) = state(b) else {
        return false;
    };
    let Ok(x) = Print::try_new(u64::read(b, 175), i64::read(b, 183), i64::read(b, 191)) else {
        return false;
    };
    let r = s.add_print(
        p,
        UnixTimestamp::new(i64::read(b, 167)),
        x,
        i64::read(b, 199),
    );
    is_answered(&b[207..211], r.result) && r.state.parts() == parts(&b[211..])
}

// ---- the decision

// The numbers of an answer.
#[derive(Clone, Copy, Default, PartialEq)]
struct Outcome {
    code: u8,
    number: u8,
    price: u64,
    samples: u16,
    until: i64,
}

// A Wait has no method. A sample has a 6 in the place of its number.
const WAIT: u8 = 6;

impl From<Decision> for Outcome {
    fn from(d: Decision) -> Outcome {
        match d {
            Decision::Settle {
                method,
                price,
                samples,
            } => Outcome {
                code: 255,
                number: method.number(),
                price: price.get(),
                samples,
                ..Outcome::default()
            },
            Decision::Void => Outcome {
                code: 255,
                number: SettleMethod::Void.number(),
                ..Outcome::default()
            },
            Decision::Wait { until } => Outcome {
                code: 255,
                number: WAIT,
                until,
                ..Outcome::default()
            },
        }
    }
}

// The answer that b starts with.
fn recorded(b: &[u8]) -> Outcome {
    Outcome {
        code: u8::read(b, 0),
        number: u8::read(b, 1),
        price: u64::read(b, 2),
        samples: u16::read(b, 10),
        until: i64::read(b, 12),
    }
}

fn is_decided(b: &[u8], r: Result<Decision, CoreError>) -> bool {
    let outcome = match r {
        Ok(d) => d.into(),
        Err(e) => Outcome {
            code: e.number(),
            ..Outcome::default()
        },
    };
    recorded(b) == outcome
}

// By the old order as the Rust decides, and by the vote (#109).
pub(crate) fn decide(b: &[u8; 223]) -> bool {
    let Some((p, s)) = state(b) else {
        return false;
    };
    let expiry = UnixTimestamp::new(i64::read(b, 167));
    let now = i64::read(b, 175);
    is_decided(&b[183..], s.decide_by(p, expiry, now, Order::Old))
        && is_decided(&b[203..], s.decide(p, expiry, now))
}

// ---- constructors

pub(crate) fn params(b: &[u8; 27]) -> bool {
    u8::read(b, 26) == code(terms(b))
}

pub(crate) fn print(b: &[u8; 25]) -> bool {
    let price = u64::read(b, 0);
    let publish = i64::read(b, 8);
    let prev = i64::read(b, 16);
    let code = u8::read(b, 24);
    match Print::try_new(price, publish, prev) {
        Ok(p) => {
            (code, p.price(), p.publish_time(), p.prev_publish_time())
                == (255, price, publish, prev)
        }
        Err(e) => code == e.number(),
    }
}

pub(crate) fn method(b: &[u8; 3]) -> bool {
    let [value, code, number] = *b;
    let answer = match SettleMethod::try_from(value) {
        Ok(m) => (255, m.number()),
        Err(e) => (e.number(), 0),
    };
    (code, number) == answer
}
