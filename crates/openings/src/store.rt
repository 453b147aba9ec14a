// Storing an open series.
ghost use Rattle.std.specs.Prelude.{◌≡◌};
ghost use Rattle.rules.specs.Record.{prices_in, open_record};
ghost use Rattle.rules.specs.Book.{record_at, replaced};
ghost use Rattle.core_parts.specs.States.{stored_of};
ghost use Rattle.book.specs.Looks.{Allowed};
ghost use Rattle.record_read.specs.Records.{opening_of};
ghost use Rattle.record_store.specs.Prices.{with_price};

use book::look::RECORD_SIZE;
use core_parts::state::SettlementParts;
use record_read::contents::Opening;
use record_store::store::write_open;

// The fields, and a price for one slot; the other slot prices stay. The record is handed
// on as a part of the book that starts in its middle, a form of 01.
pub(crate) fn store_open(
    book: &mut [u8],
    series: u8,
    opening: Opening,
    state: SettlementParts,
    slot: Option<u8>,
    price: u64,
)
    requires { Allowed book.old series }
    ensures { book.new ≡ replaced series (open_record (opening_of opening) (stored_of state) (with_price (prices_in (record_at series book.old)) slot price)) book.old }
{
    let at = series as usize * RECORD_SIZE;
    write_open(&mut book[at..at + RECORD_SIZE], opening, state, slot, price);
}
