// An entry of any bytes given to a book.
ghost use Rattle.std.specs.Prelude.{◌≡◌};
ghost use Rattle.rules.specs.Book.{answer_to, book_after};
ghost use Rattle.answers.specs.Answers.{answer_of};

use crate::command::{Command, read_entry};
use answers::answer::Answer;
use book::look::BOOK_SIZE;
use book::refusal::Refusal;
use fixings::ask::ask;
use fixings::fix::fix;
use openings::offer::offer;
use openings::open::open;
use withdrawals::withdraw::withdraw;

// Gives an entry to the book: 35, 33 if empty, 32, 33, 34, then the command's own.
#[inline(always)]
pub fn apply(book: &mut [u8], entry: &[u8]) -> Answer
    ensures { (answer_of result ≡ answer_to book.old entry.now) × (book.new ≡ book_after book.old entry.now) }
{
    if book.len() != BOOK_SIZE {
        return Answer::Refused(Refusal::WrongBook);
    }
    match read_entry(entry) {
        Ok(Command::Open { series, opening }) => open(book, series, opening),
        Ok(Command::Offer { series, quote, now }) => offer(book, series, quote, now),
        Ok(Command::Ask { series, now }) => ask(&book[..], series, now),
        Ok(Command::Fix { series, now }) => fix(book, series, now),
        Ok(Command::Withdraw { series, now, slot }) => withdraw(book, series, now, slot),
        Err(r) => Answer::Refused(r),
    }
}
