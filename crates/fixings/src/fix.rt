// Fixing a series.
ghost use Rattle.std.specs.Prelude.{◌≡◌};
ghost use Rattle.rules.specs.Series.{Fix};
ghost use Rattle.answers.specs.Answers.{answer_of};
ghost use Rattle.answers.specs.Commands.{Untested, answer_at, after_at};

use crate::store::store_fixed;
use answers::answer::{Answer, in_use};
use book::look::look;
use book::refusal::Refusal;
use record_test::decide::decide_in;

// A fix of an open series, whose terms and state the core tests: 11, 0, 39. The decision is made
// before it is refused as a Wait.
#[tactic(auto, using(answers::proofs::Commands::may_look))]
fn fix_open(book: &mut [u8], series: u8, now: i64) -> Answer
    requires { Untested book.old series }
    ensures { (answer_of result ≡ answer_at book.old series (Fix now)) × (book.new ≡ after_at book.old series (Fix now)) }
{
    match decide_in(look(&book[..], series), now) {
        Ok(d) if d.is_final() => {
            store_fixed(book, series, d, now);
            Answer::from(d)
        }
        Ok(_) => Answer::Refused(Refusal::StillWaiting),
        Err(e) => Answer::Refused(Refusal::from(e)),
    }
}

// Fixes a series, with its outcome stored: 35, 34, 11, then 37, 38, 0, 39.
#[tactic(auto, using(crate::proofs::Fixes::unused_told, crate::proofs::Fixes::unused_left))]
pub fn fix(book: &mut [u8], series: u8, now: i64) -> Answer
    ensures { (answer_of result ≡ answer_at book.old series (Fix now)) × (book.new ≡ after_at book.old series (Fix now)) }
{
    match in_use(&book[..], series) {
        Ok(()) => fix_open(book, series, now),
        Err(r) => Answer::Refused(r),
    }
}
