// The sheet of a whole journal.
ghost use Rattle.std.specs.Prelude.{◌≤◌, ◌≡◌, Some, None, length, if◌then◌else◌, IfSome};
ghost use Rattle.std.proofs.lemmas.List.Edits.{sets};
ghost use Rattle.rules.specs.Journal.{journal_entries, sheet};
ghost use Rattle.claims.specs.Demand3.{Demand3};
ghost use Rattle.journal.specs.Whole.{has_room};

use crate::feed::feed;
use book::look::BOOK_SIZE;
use lines::line::LINE_MAX;

// Gives the commands of a journal to a zeroed book, and writes their lines to the front of out.
// Answers how many bytes these are. An out without room for as many lines as such a journal could
// have gets none, and stays: a command has ten bytes at least. Demand 3 holds of the same commands.
pub fn write_sheet(journal: &[u8], out: &mut [u8]) -> Option<usize>
    ensures value { (result ≡ (if has_room journal.now (length out.old) then Some (length (sheet (journal_entries journal.now))) else None))
        × (out.new ≡ (if has_room journal.now (length out.old) then sets out.old 0 (sheet (journal_entries journal.now)) else out.old))
        × Demand3 (journal_entries journal.now) }
    ensures upper_bound { IfSome result (λ n. n ≤ length out.old) }
{
    let lines = journal.len() / 10 + 2;
    if out.len() / LINE_MAX < lines {
        return None;
    }
    let mut book = [0u8; BOOK_SIZE];
    let fed = feed(&mut book, journal, true, out);
    Some(fed.written)
}
