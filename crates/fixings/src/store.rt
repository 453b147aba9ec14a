// Storing a fixed series.
ghost use Rattle.std.specs.Prelude.{◌≡◌};
ghost use Rattle.rules.specs.Decision.{voted};
ghost use Rattle.rules.specs.Record.{opening_in, parts_in, prices_in, fixed_record};
ghost use Rattle.rules.specs.Book.{record_at, replaced};
ghost use Rattle.core_decide.specs.Decisions.{answer_of};
ghost use Rattle.book.specs.Looks.{Allowed};

use book::look::{RECORD_SIZE, look};
use core_decide::decide::Decision;
use record_read::contents::{Contents, read_contents};
use record_store::store::write_fixed;

// The fields of the record stay, and the outcome is added. The record is handed
// on as a part of the book that starts in its middle, a form of 01.
pub(crate) fn store_fixed(book: &mut [u8], series: u8, outcome: Decision, fixing_time: i64)
    requires { Allowed book.old series }
    ensures { book.new ≡ replaced series (fixed_record voted (opening_in (record_at series book.old)) (parts_in (record_at series book.old)) (prices_in (record_at series book.old)) (answer_of outcome) fixing_time) book.old }
{
    let Contents { opening, state } = read_contents(look(&book[..], series));
    let at = series as usize * RECORD_SIZE;
    write_fixed(
        &mut book[at..at + RECORD_SIZE],
        opening,
        state,
        outcome,
        fixing_time,
    );
}
