// How many answers and books were compared and how many differ, and what is printed of it.
use samples::compared::Compared;
use std::io;
use std::io::Write;

// The kinds of answers that are no refusals, by their codes from 255 down.
const KINDS: [&str; 6] = ["opened", "used", "wait", "settle", "void", "done"];

// A journal and a command of it, by their numbers from 1. Without a command it is the book that the
// journal leaves, printed as command 0.
#[derive(Clone, Copy)]
pub(crate) struct Place {
    pub(crate) journal: u32,
    pub(crate) command: Option<u16>,
}

#[derive(Drop)]
pub(crate) struct Tally {
    pub(crate) answers: Compared,
    by_code: [u64; 256],
    different_books: u64,
    // Where the first difference is.
    first: Option<Place>,
}

impl Tally {
    pub(crate) fn new() -> Tally {
        Tally {
            answers: Compared::default(),
            by_code: [0; 256],
            different_books: 0,
            first: None,
        }
    }

    // Counts one more answer, by the code that was recorded.
    pub(crate) fn answer(&mut self, place: Place, code: u8, is_same: bool) {
        let n = self.by_code[code as usize];
        self.by_code[code as usize] = n.saturating_add(1);
        if !self.answers.count(is_same) {
            self.first = self.first.or(Some(place));
        }
    }

    pub(crate) fn different_book(&mut self, journal: u32) {
        self.different_books = self.different_books.saturating_add(1);
        self.first = self.first.or(Some(Place {
            journal,
            command: None,
        }));
    }

    // What differs stands first: of what a run prints, a failing check shows the beginning.
    pub(crate) fn print<W: Write>(&self, out: &mut W, journals: u32) -> io::Result<()> {
        if let Some(Place { journal, command }) = self.first {
            let command = command.unwrap_or(0);
            writeln!(
                out,
                "the first difference is in journal {journal} command {command}"
            )?;
        }
        writeln!(out, "journals {journals}")?;
        writeln!(out, "commands {}", self.answers.answers)?;
        writeln!(out, "different answers {}", self.answers.different)?;
        writeln!(out, "different books {}", self.different_books)?;
        self.print_kinds(out)?;
        self.print_refused(out)
    }

    fn print_kinds<W: Write>(&self, out: &mut W) -> io::Result<()> {
        for (kind, n) in KINDS.iter().zip(self.by_code[250..].iter().rev()) {
            writeln!(out, "{kind} {n}")?;
        }
        Ok(())
    }

    // The refusals, by their numbers.
    fn print_refused<W: Write>(&self, out: &mut W) -> io::Result<()> {
        for (number, n) in self.by_code[..250].iter().enumerate() {
            if *n != 0 {
                writeln!(out, "refused {number}: {n}")?;
            }
        }
        Ok(())
    }
}
