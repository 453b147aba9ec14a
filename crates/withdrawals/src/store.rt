// Storing an open series without the print of a slot.
ghost use Rattle.std.specs.Prelude.{◌≡◌, get_or, set};
ghost use Rattle.rules.specs.Record.{opening_in, parts_in, prices_in, open_record};
ghost use Rattle.rules.specs.Book.{record_at, replaced};
ghost use Rattle.record_read.specs.Records.{contents_of, contents_in};
ghost use Rattle.withdrawals.specs.Freed.{CanFree, freed_parts};

use crate::freed::freed;
use book::look::{RECORD_SIZE, SLOT_PRICES_AT, look};
use endian::LittleEndian;
use record_read::contents::Contents;
use record_store::store::write_open;

// The slot's price is zero, and the state is without it. The record is handed
// on as a part of the book that starts in its middle, a form of 01.
pub(crate) fn store_freed(book: &mut [u8], series: u8, c: Contents, slot: u8, now: i64)
    requires contents { contents_of c ≡ contents_in (record_at series book.old) }
    requires can_free { CanFree book.old series slot }
    ensures { book.new ≡ replaced series (open_record (opening_in (record_at series book.old)) (freed_parts (parts_in (record_at series book.old)) slot (get_or (prices_in (record_at series book.old)) slot 0) now) (set (prices_in (record_at series book.old)) slot 0)) book.old }
{
    let record = look(&book[..], series);
    let price = u64::read(record, SLOT_PRICES_AT + 8 * slot as usize);
    let next = freed(c.state, slot, price, now);
    let at = series as usize * RECORD_SIZE;
    write_open(
        &mut book[at..at + RECORD_SIZE],
        c.opening,
        next,
        Some(slot),
        0,
    );
}
