// A look at a series: the record's own bytes, as a part of the book.
ghost use Rattle.std.specs.Prelude.{◌≡◌, []};
ghost use Rattle.rules.specs.Book.{look, record_at};
ghost use Rattle.core_parts.specs.States.{value_or};
ghost use Rattle.book.specs.Looks.{allowed_as};

use crate::refusal::Refusal;

// The bytes of a record.
pub const RECORD_SIZE: usize = 456;

// Where the slot prices of a record begin.
pub const SLOT_PRICES_AT: usize = 200;

// How many slot prices a record has.
pub const SLOT_PLACES: u8 = 32;

// How many series a book has.
pub const SERIES_COUNT: u8 = 64;

// The bytes of a book.
pub const BOOK_SIZE: usize = 29_184;

// Whether the look is allowed, or its refusal. It stands apart from `look`, which gives back the bytes
// themselves: so 01 asks.
pub fn look_result(book: &[u8], series: u8) -> Result<(), Refusal>
    ensures { allowed_as (record_at series book.now) result ≡ look book.now series }
{
    if book.len() != BOOK_SIZE {
        return Err(Refusal::WrongBook);
    }
    if series >= SERIES_COUNT {
        return Err(Refusal::NoSuchSeries);
    }
    Ok(())
}

// The record's bytes; the empty part where the look is refused, since every reader of a record takes
// bytes of any length.
pub fn look(book: &[u8], series: u8) -> &[u8]
    ensures { result.now ≡ value_or [] (look book.now series) }
{
    let Ok(()) = look_result(book, series) else {
        return &book[0..0];
    };
    let at = series as usize * RECORD_SIZE;
    let end = at + RECORD_SIZE;
    &book[at..end]
}
