// Asking for the decision on a series.
ghost use Rattle.std.specs.Prelude.{◌≡◌};
ghost use Rattle.rules.specs.Series.{Ask};
ghost use Rattle.answers.specs.Answers.{answer_of};
ghost use Rattle.answers.specs.Commands.{answer_at};

use answers::answer::Answer;
use book::look::look;
use book::refusal::Refusal;
use record_read::outcome::read_outcome;
use record_test::decide::decide_in;
use record_test::status::{Status, status_at};

// The decision on a series: 35, 34, 11, then 37, 0. The core tests the terms and the state of an open
// one: 11 too. On a fixed series it is the stored outcome.
#[inline(always)]
#[tactic(auto, using(crate::proofs::Fixes::ask_told, crate::proofs::Fixes::fixed_told, crate::proofs::Fixes::ask_empty, crate::proofs::Fixes::ask_refused))]
pub fn ask(book: &[u8], series: u8, now: i64) -> Answer
    ensures { answer_of result ≡ answer_at book.now series (Ask now) }
{
    match status_at(book, series) {
        Ok(Status::Empty) => Answer::Refused(Refusal::SeriesEmpty),
        Ok(Status::Untested) => Answer::from(decide_in(look(book, series), now)),
        Ok(Status::Fixed) => Answer::from(read_outcome(look(book, series))),
        Err(r) => Answer::Refused(r),
    }
}
