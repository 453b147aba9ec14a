// What a command answers.
ghost use Rattle.std.specs.Prelude.{◌≡◌};
ghost use Rattle.rules.specs.Book.{look};
ghost use Rattle.book.specs.Refusals.{found_of};
ghost use Rattle.record_test.specs.Statuses.{status_in};
ghost use Rattle.answers.specs.Answers.{IsAnswer};
ghost use Rattle.answers.specs.Commands.{IsBookAnswer, use_of};

use book::refusal::Refusal;
use core_decide::decide::{Decision, SettleMethod};
use core_take::take::PrintUse;
use core_terms::error::CoreError;
use core_terms::units::StrikeUsd;
use record_test::status::{Status, status_at};

// The list of 01 as it stands, refusals among it. An answer within a result would say the same and is
// slower to hand on. A refusal is made an answer by its variant, which says more than `From`.
#[derive(Debug, Clone, Copy, PartialEq, Eq)]
pub enum Answer {
    Opened,
    Used(PrintUse),
    Wait {
        until: i64,
    },
    Settle {
        method: SettleMethod,
        price: StrikeUsd,
        samples: u16,
    },
    Void,
    Done,
    Refused(Refusal),
}

impl From<Decision> for Answer {
    ghost from_gives = { IsAnswer };

    fn from(d: Decision) -> Answer {
        match d {
            Decision::Settle {
                method,
                price,
                samples,
            } => Answer::Settle {
                method,
                price,
                samples,
            },
            Decision::Void => Answer::Void,
            Decision::Wait { until } => Answer::Wait { until },
        }
    }
}

// A core call's result on a record's terms and state.
impl From<Result<Decision, CoreError>> for Answer {
    ghost from_gives = { IsBookAnswer };

    fn from(r: Result<Decision, CoreError>) -> Answer {
        match r {
            Ok(d) => Answer::from(d),
            Err(e) => Answer::Refused(Refusal::from(e)),
        }
    }
}

// Whether a series is in use and still open, its terms and state yet to be tested: 35, 34, 11, then
// 37, 38. What an offer, a fix and a withdraw ask first. What they then know of the book, `Untested`,
// as an open of a used series does, is in clauses and in no type: it speaks of lent bytes, and they
// write them.
pub fn in_use(book: &[u8], series: u8) -> Result<(), Refusal>
    ensures { found_of result ≡ use_of (status_in (look book.now series)) }
{
    match status_at(book, series)? {
        Status::Empty => Err(Refusal::SeriesEmpty),
        Status::Untested => Ok(()),
        Status::Fixed => Err(Refusal::SeriesFixed),
    }
}
