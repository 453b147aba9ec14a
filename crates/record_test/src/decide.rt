// The core's decision on a record.
ghost use Rattle.std.specs.Prelude.{◌≡◌};
ghost use Rattle.rules.specs.Record.{order_in};
ghost use Rattle.core_decide.specs.Decisions.{decision_of, order_of};
ghost use Rattle.record_test.specs.Statuses.{decision_in};

use book::look::RECORD_SIZE;
use core_decide::decide::{Decision, Order, decide_by};
use core_terms::error::CoreError;
use endian::LittleEndian;
use record_read::contents::{Contents, read_contents};
use record_read::tag::Tag;

// The order that a record is decided by (#109).
fn order_in(bytes: &[u8]) -> Order
    ensures { order_of result ≡ order_in bytes.now }
{
    match Tag::try_from(u8::read(bytes, 0)) {
        Ok(Tag::FixedOld) => Order::Old,
        _ => Order::Voted,
    }
}

// The core's decision on the fields, by the record's order; bytes of another length are refused with
// 11. The fields are read here and not handed in: a state that is passed on twice is copied.
pub fn decide_in(bytes: &[u8], now: i64) -> Result<Decision, CoreError>
    ensures { decision_of result ≡ decision_in bytes.now now }
{
    if bytes.len() != RECORD_SIZE {
        return Err(CoreError::InvariantViolated);
    }
    let Contents { opening, state } = read_contents(bytes);
    decide_by(state, opening.params, opening.expiry, now, order_in(bytes))
}
