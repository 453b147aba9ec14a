// Open and fixed records written.
ghost use Rattle.std.specs.Prelude.{◌≡◌};
ghost use Rattle.rules.specs.Decision.{voted};
ghost use Rattle.rules.specs.Record.{prices_in, open_record, fixed_record};
ghost use Rattle.core_parts.specs.States.{stored_of};
ghost use Rattle.core_decide.specs.Decisions.{answer_of};
ghost use Rattle.record_read.specs.Records.{opening_of};
ghost use Rattle.record_write.specs.Stores.{record_over};
ghost use Rattle.record_store.specs.Outcomes.{outcome_of};
ghost use Rattle.record_store.specs.Prices.{with_price};

use core_decide::decide::Decision;
use core_parts::state::SettlementParts;
use record_read::contents::Opening;
use record_read::outcome::StoredOutcome;
use record_read::tag::Tag;
use record_write::price::write_slot_price;
use record_write::record::{Outcome, write_record};

// Writes an open record over a record's bytes, with a price for one slot; the other slot prices stay.
// Bytes of another length stay too. Slot and price are two parameters: as one `Option` of both, each
// caller would put together what it has apart. Inlined always: else a field that stays is written all
// the same, and an offer takes 110 instructions more, a withdraw 170.
#[inline(always)]
#[tactic(auto, using(crate::proofs::Priced::priced_open), unfolding(core_parts::specs::States::stored_of))]
pub fn write_open(
    part: &mut [u8],
    opening: Opening,
    state: SettlementParts,
    slot: Option<u8>,
    price: u64,
)
    ensures { part.new ≡ record_over part.old (open_record (opening_of opening) (stored_of state) (with_price (prices_in part.old) slot price)) }
{
    let none = Outcome {
        tag: Tag::Open.number(),
        samples: 0,
        method: 0,
        fixing_time: 0,
        price: 0,
    };
    write_record(part, opening, state, none);
    if let Some(i) = slot {
        write_slot_price(part, i, price);
    }
}

// The outcome that a decision is at a time, under the vote's tag: none is written with the old order's
// (#109).
fn outcome_of(d: Decision, fixing_time: i64) -> Outcome
    ensures { result ≡ outcome_of (answer_of d) fixing_time }
{
    let StoredOutcome {
        samples,
        method,
        price,
    } = StoredOutcome::from(d);
    Outcome {
        tag: Tag::Fixed.number(),
        samples,
        method,
        fixing_time,
        price,
    }
}

// Writes a record that is fixed by the vote over a record's bytes, with its outcome; the slot prices
// stay. Bytes of another length stay too.
pub fn write_fixed(
    part: &mut [u8],
    opening: Opening,
    state: SettlementParts,
    outcome: Decision,
    fixing_time: i64,
)
    ensures { part.new ≡ record_over part.old (fixed_record voted (opening_of opening) (stored_of state) (prices_in part.old) (answer_of outcome) fixing_time) }
{
    let o = outcome_of(outcome, fixing_time);
    write_record(part, opening, state, o);
}
