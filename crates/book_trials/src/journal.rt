// One journal: a book, the commands given to it, and the book that they must leave. What cannot be
// is no journal.
use crate::recorded;
use crate::recorded::ANSWER;
use crate::tally::{Place, Tally};
use book::look::{BOOK_SIZE, RECORD_SIZE};
use commands::apply::apply;
use samples::replay::bytes;
use std::io;
use std::io::{ErrorKind, Read};

// The most bytes of a book, commands of a journal and bytes of an entry that a sample has.
const LONGEST: usize = 58_368;

const MOST_COMMANDS: u16 = 64;

const LONGEST_ENTRY: usize = 60;

// Puts a record at the place of its series. Only a book of the right length has places.
fn record<R: Read>(reader: &mut R, book: &mut [u8]) -> io::Result<()> {
    let [series] = bytes::<1, R>(reader)?;
    if book.len() != BOOK_SIZE {
        return Err(ErrorKind::InvalidData.into());
    }
    let Some(place) = book.chunks_exact_mut(RECORD_SIZE).nth(series as usize) else {
        return Err(ErrorKind::InvalidData.into());
    };
    reader.read_exact(place)
}

// Puts the records that come next into the book.
fn records<R: Read>(reader: &mut R, book: &mut [u8]) -> io::Result<()> {
    let [n] = bytes::<1, R>(reader)?;
    for _ in 0..n {
        record(reader, book)?;
    }
    Ok(())
}

// Gives the command that comes next to the book, and compares the answer with the one behind it.
// Both are read first.
fn command<R: Read>(
    reader: &mut R,
    book: &mut [u8],
    place: Place,
    t: &mut Tally,
) -> io::Result<()> {
    let [n] = bytes::<1, R>(reader)?;
    if LONGEST_ENTRY < n as usize {
        return Err(ErrorKind::InvalidData.into());
    }
    let mut b = [0u8; LONGEST_ENTRY];
    let entry = &mut b[..n as usize];
    reader.read_exact(entry)?;
    let answer: [u8; ANSWER] = bytes(reader)?;
    let a = apply(book, entry);
    t.answer(place, answer[0], recorded::is_answer(&answer, a));
    Ok(())
}

// Gives the commands that come next to the book.
fn commands<R: Read>(
    reader: &mut R,
    book: &mut [u8],
    journal: u32,
    t: &mut Tally,
) -> io::Result<()> {
    let n = u16::from_le_bytes(bytes(reader)?);
    if MOST_COMMANDS < n {
        return Err(ErrorKind::InvalidData.into());
    }
    for i in 1..=n {
        let place = Place {
            journal,
            command: Some(i),
        };
        command(reader, book, place, t)?;
    }
    Ok(())
}

// Replays the journal that comes next.
pub(crate) fn replay<R: Read>(reader: &mut R, journal: u32, t: &mut Tally) -> io::Result<()> {
    let n = u32::from_le_bytes(bytes(reader)?) as usize;
    if LONGEST < n {
        return Err(ErrorKind::InvalidData.into());
    }
    let mut book = [0u8; LONGEST];
    let mut end = [0u8; LONGEST];
    let book = &mut book[..n];
    let end = &mut end[..n];
    records(reader, book)?;
    commands(reader, book, journal, t)?;
    records(reader, end)?;
    if &*book != &*end {
        t.different_book(journal);
    }
    Ok(())
}
