// Withdrawing the print that fills a slot.
ghost use Rattle.std.specs.Prelude.{◌≡◌};
ghost use Rattle.rules.specs.Series.{Withdraw};
ghost use Rattle.answers.specs.Answers.{answer_of};
ghost use Rattle.answers.specs.Commands.{Untested, answer_at, after_at};

use crate::store::store_freed;
use answers::answer::{Answer, in_use};
use book::look::look;
use book::refusal::Refusal;
use core_uses::uses::is_filled;
use record_read::contents::read_contents;

// A withdraw from an open series, whose terms and state are still to be tested: 11, 40, 41.
fn withdraw_open(book: &mut [u8], series: u8, now: i64, slot: u8) -> Answer
    requires { Untested book.old series }
    ensures { (answer_of result ≡ answer_at book.old series (Withdraw now slot)) × (book.new ≡ after_at book.old series (Withdraw now slot)) }
{
    let c = read_contents(look(&book[..], series));
    if let Err(e) = c.state.check(c.opening.params) {
        return Answer::Refused(Refusal::from(e));
    }
    if c.opening.params.slots() <= slot as u32 {
        return Answer::Refused(Refusal::NoSuchSlot);
    }
    if !is_filled(c.state.filled_slots, slot) {
        return Answer::Refused(Refusal::SlotEmpty);
    }
    store_freed(book, series, c, slot, now);
    Answer::Done
}

// Frees a slot: 35, 34, 11, then 37, 38, 40, 41.
#[tactic(auto, using(crate::proofs::Withdraws::unused_told, crate::proofs::Withdraws::unused_left))]
pub fn withdraw(book: &mut [u8], series: u8, now: i64, slot: u8) -> Answer
    ensures { (answer_of result ≡ answer_at book.old series (Withdraw now slot)) × (book.new ≡ after_at book.old series (Withdraw now slot)) }
{
    match in_use(&book[..], series) {
        Ok(()) => withdraw_open(book, series, now, slot),
        Err(r) => Answer::Refused(r),
    }
}
