// A whole list of entries, given to one zeroed book.
#![tactic(auto)]

ghost use Rattle.std.specs.Prelude.{◌≡◌, eqb, length, if◌then◌else◌};
ghost use Rattle.std.specs.Option.{option_map};
ghost use Rattle.rules.specs.Answers.{Refused};
ghost use Rattle.rules.specs.Record.{book_size};
ghost use Rattle.rules.specs.Book.{answer_to, book_after, run};
ghost use Rattle.claims.specs.Demand3.{Demand3};
ghost use Rattle.answers.specs.Answers.{answer_of};
ghost use Rattle.replay.specs.Entries.{cut, entries_of, last_answer};

use answers::answer::Answer;
use book::look::BOOK_SIZE;
use book::refusal::Refusal;
use commands::apply::apply;

// One entry: the bytes from one end to the next, which may be any numbers.
fn give(book: &mut [u8], bytes: &[u8], from: usize, to: usize) -> Answer
    ensures { (answer_of result ≡ answer_to book.old (cut from to bytes.now)) × (book.new ≡ book_after book.old (cut from to bytes.now)) }
{
    let end = to.min(bytes.len());
    let start = from.min(end);
    apply(book, &bytes[start..end])
}

// Zeroes the book and gives it every entry in turn. 35 for a book of another length, which stays.
// Demand 3 holds of the same list. An empty list has no answer. The entries are one buffer with their
// ends beside it, and no slices, since then whoever calls would need room for as many slices.
pub fn replay(book: &mut [u8], bytes: &[u8], ends: &[usize]) -> Option<Answer>
    ensures { (option_map answer_of result ≡ (if eqb (length book.old) book_size then last_answer (entries_of bytes.now ends.now) else Some (Refused 35)))
        × (book.new ≡ (if eqb (length book.old) book_size then run (entries_of bytes.now ends.now) else book.old))
        × Demand3 (entries_of bytes.now ends.now) }
{
    if book.len() != BOOK_SIZE {
        return Some(Answer::Refused(Refusal::WrongBook));
    }
    book.fill(0);
    let mut last = None;
    let mut from: usize = 0;
    for &to in ends {
        last = Some(give(book, bytes, from, to));
        from = to;
    }
    last
}
