// Opening a series.
ghost use Rattle.std.specs.Prelude.{◌≡◌};
ghost use Rattle.rules.specs.Answers.{Refused};
ghost use Rattle.rules.specs.Series.{Open};
ghost use Rattle.rules.specs.Series as S;
ghost use Rattle.book.specs.Refusals.{refusal_number};
ghost use Rattle.record_read.specs.Records.{opening_of};
ghost use Rattle.answers.specs.Answers.{answer_of};
ghost use Rattle.answers.specs.Commands.{Untested, answer_at, after_at};

use crate::store::store_open;
use answers::answer::Answer;
use book::look::look;
use book::refusal::Refusal;
use core_parts::state::SettlementParts;
use record_read::contents::{Contents, Opening, read_contents};
use record_test::status::{Status, status_at};

// The refusal on an open series, whose terms and state are still to be tested: 11, then 36.
#[tactic(auto, using(answers::proofs::Commands::may_look, crate::proofs::Opens::used_whole, crate::proofs::Opens::check_ways, crate::proofs::Opens::good_told, crate::proofs::Opens::bad_told, crate::proofs::Opens::used_left))]
fn used(book: &[u8], series: u8) -> Refusal
    requires { Untested book.now series }
    ensures { ((o : S.Opening) → Refused (refusal_number result) ≡ answer_at book.now series (Open o)) × ((o : S.Opening) → book.now ≡ after_at book.now series (Open o)) }
{
    let Contents { opening, state } = read_contents(look(book, series));
    match state.check(opening.params) {
        Ok(()) => Refusal::SeriesUsed,
        Err(e) => Refusal::from(e),
    }
}

// Opens a series: 35, 34, 11, then 36, 12.
pub fn open(book: &mut [u8], series: u8, opening: Opening) -> Answer
    ensures { (answer_of result ≡ answer_at book.old series (Open (opening_of opening))) × (book.new ≡ after_at book.old series (Open (opening_of opening))) }
{
    match status_at(&book[..], series) {
        Ok(Status::Empty) => {
            if !opening.params.in_range() {
                return Answer::Refused(Refusal::InvalidOracleParams);
            }
            store_open(book, series, opening, SettlementParts::empty(), None, 0);
            Answer::Opened
        }
        Ok(Status::Untested) => Answer::Refused(used(&book[..], series)),
        Ok(Status::Fixed) => Answer::Refused(Refusal::SeriesUsed),
        Err(r) => Answer::Refused(r),
    }
}
