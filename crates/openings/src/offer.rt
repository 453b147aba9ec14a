// Offering a print to a series.
ghost use Rattle.std.specs.Prelude.{◌≡◌};
ghost use Rattle.rules.specs.Series.{Offer};
ghost use Rattle.core_prices.specs.Prints.{quote_of};
ghost use Rattle.answers.specs.Answers.{answer_of};
ghost use Rattle.answers.specs.Commands.{Untested, answer_at, after_at};

use crate::store::store_open;
use answers::answer::{Answer, in_use};
use book::look::look;
use book::refusal::Refusal;
use core_prices::print::Quote;
use record_read::contents::{Contents, read_contents};

// An offer to an open series, whose terms and state the core tests.
fn offer_open(book: &mut [u8], series: u8, quote: Quote, now: i64) -> Answer
    requires { Untested book.old series }
    ensures { (answer_of result ≡ answer_at book.old series (Offer (quote_of quote) now)) × (book.new ≡ after_at book.old series (Offer (quote_of quote) now)) }
{
    let Contents { opening, state } = read_contents(look(&book[..], series));
    let added = core_take::take::offer(
        state,
        opening.params,
        opening.expiry,
        opening.max_conf_bps,
        quote,
        now,
    );
    match added.result {
        Ok(u) => {
            let price = quote.price.cast_unsigned();
            store_open(book, series, opening, added.state, u.slot, price);
            Answer::Used(u)
        }
        Err(e) => Answer::Refused(Refusal::from(e)),
    }
}

// Offers a print to a series: 35, 34, 11, then 37, 38, acceptance, 0, 14.
#[tactic(auto, using(crate::proofs::Offers::unused_told, crate::proofs::Offers::unused_left))]
pub fn offer(book: &mut [u8], series: u8, quote: Quote, now: i64) -> Answer
    ensures { (answer_of result ≡ answer_at book.old series (Offer (quote_of quote) now)) × (book.new ≡ after_at book.old series (Offer (quote_of quote) now)) }
{
    match in_use(&book[..], series) {
        Ok(()) => offer_open(book, series, quote, now),
        Err(r) => Answer::Refused(r),
    }
}
