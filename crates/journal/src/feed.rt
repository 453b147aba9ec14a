// A journal, whole or in parts, given to a book.
ghost use Rattle.std.specs.Prelude.{◌≤◌, ◌≡◌, true, length};
ghost use Rattle.std.proofs.lemmas.List.Edits.{sets};
ghost use Rattle.rules.specs.Book.{book_after};
ghost use Rattle.rules.specs.Journal.{line_to};
ghost use Rattle.lines.specs.Lines.{line_max};
ghost use Rattle.journal.specs.Feed.{book_from, lines_from, short, given, fed_by};

use crate::split::first_width;
use commands::apply::apply;
use endian::LittleEndian;
use lines::line::{LINE_MAX, Line, write_line};

// How many bytes of the part were taken and how many of lines written, and whether an entry of one
// byte was given, after which the journal has no other.
#[derive(Debug, Clone, Copy, PartialEq, Eq)]
pub struct Fed {
    pub taken: usize,
    pub written: usize,
    pub ended: bool,
}

// Gives an entry to the book, and writes its line to the front of out. Answers how long it is.
fn give(book: &mut [u8], entry: &[u8], out: &mut [u8]) -> usize
    requires { line_max ≤ length out.old }
    ensures { (result ≡ length (line_to book.old entry.now))
        × (book.new ≡ book_after book.old entry.now)
        × (out.new ≡ sets out.old 0 (line_to book.old entry.now))
        × (length (line_to book.old entry.now) ≤ line_max) }
{
    let answer = apply(book, entry);
    let series = u8::read(entry, 1);
    write_line(out, series, Line::Answer(answer)).unwrap()
}

// Gives the entries of a journal's part to the book, as far as there is room for their lines, which
// are written to the front of out. What is left of the part comes first in the next.
pub fn feed(book: &mut [u8], part: &[u8], last: bool, out: &mut [u8]) -> Fed
    ensures { let es = given (length out.old) book.old last part.now in (result ≡ fed_by book.old es)
        × (book.new ≡ book_from book.old es)
        × (out.new ≡ sets out.old 0 (lines_from book.old es))
        × (short book.old es ≡ true) }
{
    let mut fed = Fed {
        taken: 0,
        written: 0,
        ended: false,
    };
    // No `for`: how far a turn goes is the width of its entry.
    while !fed.ended && LINE_MAX <= out.len() - fed.written {
        let Some(width) = first_width(&part[fed.taken..], last) else {
            break;
        };
        let end = fed.taken + width;
        fed.written += give(book, &part[fed.taken..end], &mut out[fed.written..]);
        fed.taken = end;
        // No command has one byte.
        fed.ended = width == 1;
    }
    fed
}
