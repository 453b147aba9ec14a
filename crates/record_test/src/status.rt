// Records as they are found in the book.
ghost use Rattle.std.specs.Prelude.{◌≡◌, ◌&&◌, eqb};
ghost use Rattle.rules.specs.Log.{every};
ghost use Rattle.rules.specs.Bytes.{all_zero, unsigned_at};
ghost use Rattle.rules.specs.Record.{open_tests, fixed_tests, outcome_tests, standing};
ghost use Rattle.rules.specs.Book.{look};
ghost use Rattle.core_decide.specs.Decisions.{answer_of};
ghost use Rattle.book.specs.Refusals.{found_of};
ghost use Rattle.record_test.specs.Statuses.{good_body, good_holdings, status_of, status_in};

use crate::decide::decide_in;
use book::look::{RECORD_SIZE, look, look_result};
use book::refusal::Refusal;
use core_decide::decide::Decision;
use endian::LittleEndian;
use record_holdings::holdings::holdings_stand;
use record_read::outcome::StoredOutcome;
use record_read::tag::Tag;

// What a record is found to be. An untested one has an open record's form: its terms are still to be
// tested, and its candidates by `restore`'s test. The core's calls do that, and their 12 or 11 is the
// book's 11.
#[derive(Debug, Clone, Copy, PartialEq, Eq)]
pub enum Status {
    Empty,
    Untested,
    Fixed,
}

// ---- the tests

// Whether every byte is zero: eight at a time, then those that are left, by the same `read`, which puts
// zeros behind the end. No word ends the loop, so that the compiler takes several at once.
fn all_zero(bytes: &[u8]) -> bool
    ensures { result ≡ all_zero bytes.now }
{
    let n = bytes.len() / 8;
    let mut seen: u64 = 0;
    for i in 0..n {
        seen |= u64::read(bytes, 8 * i);
    }
    (seen | u64::read(bytes, 8 * n)) == 0
}

// Whether bytes 37 to 39 are zero: they stand above the method in one number.
fn is_padded(bytes: &[u8]) -> bool
    ensures { result ≡ eqb (unsigned_at bytes.now 37 3) 0 }
{
    u32::read(bytes, 36) < 256
}

// No outcome: samples, method, fixing time and price zero.
fn no_outcome(bytes: &[u8]) -> bool
    ensures { result ≡ every (open_tests bytes.now) }
{
    u16::read(bytes, 10) == 0
        && u8::read(bytes, 36) == 0
        && u64::read(bytes, 184) == 0
        && u64::read(bytes, 192) == 0
}

// Whether this is the outcome that stands in the record.
fn has_outcome(bytes: &[u8], o: StoredOutcome) -> bool
    ensures { result ≡ every (outcome_tests bytes.now o.samples o.method o.price) }
{
    u16::read(bytes, 10) == o.samples
        && u8::read(bytes, 36) == o.method
        && u64::read(bytes, 192) == o.price
}

// Whether the decision is final and is what stands in the record.
fn has_decision(bytes: &[u8], d: Decision) -> bool
    ensures { result ≡ every (standing bytes.now (answer_of d)) }
{
    d.is_final() && has_outcome(bytes, StoredOutcome::from(d))
}

// ---- the record as a whole

// Whether the terms and the candidates are good, and the outcome is the decision at the fixing time,
// which is made again.
fn is_fixed(bytes: &[u8; RECORD_SIZE]) -> bool
    ensures { result ≡ good_body bytes.now && every (fixed_tests bytes.now) }
{
    let Ok(d) = decide_in(bytes, i64::read(bytes, 184)) else {
        return false;
    };
    has_decision(bytes, d)
}

// Whether it could be a record in use: its padding is zero, and it holds what prints leave.
fn is_left(bytes: &[u8; RECORD_SIZE]) -> bool
    ensures { result ≡ eqb (unsigned_at bytes.now 37 3) 0 && good_holdings bytes.now }
{
    is_padded(bytes) && holdings_stand(bytes)
}

// What the record is, by its tag.
fn status_of(bytes: &[u8; RECORD_SIZE]) -> Result<Status, Refusal>
    ensures { found_of result ≡ status_of bytes.now }
{
    match Tag::try_from(u8::read(bytes, 0)) {
        Ok(Tag::Empty) if all_zero(bytes) => Ok(Status::Empty),
        Ok(Tag::Open) if is_left(bytes) && no_outcome(bytes) => Ok(Status::Untested),
        Ok(Tag::FixedOld | Tag::Fixed) if is_left(bytes) && is_fixed(bytes) => Ok(Status::Fixed),
        _ => Err(Refusal::InvariantViolated),
    }
}

// What the record of a series is: 35, 34, and 11 where that can be told.
pub fn status_at(book: &[u8], series: u8) -> Result<Status, Refusal>
    ensures { found_of result ≡ status_in (look book.now series) }
{
    look_result(book, series)?;
    status_of(look(book, series).as_array().unwrap())
}
