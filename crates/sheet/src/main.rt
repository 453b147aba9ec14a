// Reads a journal from standard input, gives its commands to a zeroed book, and writes the line of
// each answer to standard output.
#![tactic(auto)]

ghost use Rattle.std.specs.Prelude.{◌==◌, IfSome, OnOk, ◌+◌, ◌≤◌, ◌<◌, ◌≡◌, false, length, take, drop};
ghost use Rattle.std.specs.Io.{ReadsAtMost};
ghost use Rattle.std.specs.Io.KnownBytes.{Appends, ReadConsumes};
ghost use Rattle.rules.specs.Bytes.{zeros};
ghost use Rattle.rules.specs.Book.{run};
ghost use Rattle.rules.specs.Journal.{journal_entries, sheet};
ghost use Rattle.rules.specs.Record.{book_size};
ghost use Rattle.journal.specs.Parts.{on, reads};
ghost use Rattle.sheet.specs.Holds.{Holds};
ghost use Rattle.sheet.specs.Told.{GoesOn, HandsOn, Turns};

use book::look::BOOK_SIZE;
use journal::feed::feed;
use std::io::{Read, Write};
use std::{fmt, io};

// The most that is read at once.
const PART: usize = 65536;

// Room for the lines of such a part of the journal: a command has ten bytes at least, and its line
// 96 at most.
const LINES: usize = 655360;

// What a part of the journal leaves: the bytes of its lines, the bytes at its front that wait for
// the rest of their command, and whether the journal has ended.
#[derive(Debug, Clone, Copy, PartialEq, Eq)]
struct Left {
    written: usize,
    held: usize,
    ended: bool,
}

// Gives a journal to a book, part by part: `held` bytes of an unfinished command stand at the front
// of part, and `read` bytes of the journal were read. The lines of a part are made in out. That
// fewer than 46 bytes are held was tried as a ghost field: with one `give` was not proved.
#[derive(Drop)]
struct Feeder {
    book: [u8; BOOK_SIZE],
    part: [u8; PART],
    out: [u8; LINES],
    held: usize,
    read: u64,
}

// What failed, and after which byte of the journal; or the journal has more parts than can be counted.
#[derive(Debug, Clone, Copy, PartialEq, Eq)]
enum Failure {
    Read(u64),
    Write(u64),
    Endless,
}

impl fmt::Display for Failure {
    fn fmt<W: fmt::Write>(&self, f: &mut fmt::Formatter<W>) -> fmt::Result {
        match self {
            Failure::Read(at) => write!(
                f,
                "cannot read standard input after byte {at} of the journal"
            ),
            Failure::Write(at) => write!(
                f,
                "cannot write standard output after byte {at} of the journal"
            ),
            Failure::Endless => write!(f, "the journal has no end"),
        }
    }
}

// Says what failed. Where that cannot be said either, there is nobody left to tell.
fn tell(err: &mut impl Write, failure: Failure) {
    let _ = writeln!(err, "sheet: {failure}");
}

// Writes the lines out, when so many bytes of the journal were read.
fn write<W: Write>(to: &mut W, lines: &[u8], read: u64) -> Result<(), Failure>
    ensures { OnOk result (Appends (W.contents to.old) (W.contents to.new) lines.now) }
{
    to.write_all(lines).map_err(|_| Failure::Write(read))?;
    to.flush().map_err(|_| Failure::Write(read))
}

// Reads once, behind the bytes that are held. Not in `turn`: of a field that is an array it is not
// known what it holds once a part of it was lent.
fn read_behind<R: Read>(from: &mut R, part: &mut [u8], held: usize) -> io::Result<usize>
    requires { held ≤ length part.old }
    ensures kept { take held part.new ≡ take held part.old }
    ensures bound { ReadsAtMost result (drop held part.new) }
    ensures bytes { ReadConsumes (R.remaining from.old) (R.remaining from.new) result (drop held part.new) }
{
    from.read(&mut part[held..])
}

impl Feeder {
    // Gives the bytes of part before the end to the book, and leaves what no command has taken at its
    // front. A slice in place of the end was tried: the call with a part of the field was not proved.
    fn give(&mut self, end: usize, last: bool) -> Left
        requires end_in_bounds { end ≤ length self.old.part }
        ensures holds { Holds result self.new.book self.new.part self.new.out (reads last (on self.old.book) (take end self.old.part)) }
        ensures written_in_bounds { result.written ≤ length self.old.out }
        ensures held_is_short { last ≡ false → result.ended ≡ false → result.held < 46 }
        ensures read { self.new.read ≡ self.old.read }
    {
        let fed = feed(&mut self.book, &self.part[..end], last, &mut self.out);
        self.part.copy_within(fed.taken..end, 0);
        Left {
            written: fed.written,
            held: end - fed.taken,
            ended: fed.ended,
        }
    }

    // Gives the held bytes and the n behind them to the book, and writes their lines. Answers whether
    // the journal has ended.
    fn hand_on<W: Write>(&mut self, to: &mut W, n: usize) -> Result<bool, Failure>
        requires { self.old.held + n ≤ length self.old.part }
        ensures goes_on { GoesOn result self.old self.new }
        ensures hands_on { HandsOn result (n == 0) (take n (drop self.old.held self.old.part)) self.old self.new
            (W.contents to.old) (W.contents to.new) }
    {
        let left = self.give(self.held + n, n == 0);
        self.read = self.read.saturating_add(n as u64);
        write(to, &self.out[..left.written], self.read)?;
        if n == 0 || left.ended {
            return Ok(true);
        }
        self.held = left.held;
        Ok(false)
    }

    // Reads once, and writes the lines of what came. Answers whether the journal has ended.
    fn turn<R: Read, W: Write>(&mut self, from: &mut R, to: &mut W) -> Result<bool, Failure>
        requires { self.old.held < 46 }
        ensures goes_on { GoesOn result self.old self.new }
        ensures turns { Turns result self.old self.new
            (R.remaining from.old) (R.remaining from.new) (W.contents to.old) (W.contents to.new) }
    {
        let n = read_behind(from, &mut self.part, self.held).map_err(|_| Failure::Read(self.read))?;
        self.hand_on(to, n)
    }

    // Gives the whole journal to the book, and writes its sheet.
    fn run<R: Read, W: Write>(&mut self, from: &mut R, to: &mut W) -> Result<(), Failure>
        requires zeroed { self.old.book ≡ zeros book_size }
        requires nothing_held { self.old.held ≡ 0 }
        requires nothing_read { self.old.read ≡ 0 }
        ensures written { OnOk result (IfSome (R.remaining from.old) (λ journal.
            Appends (W.contents to.old) (W.contents to.new) (sheet (journal_entries journal)))) }
        ensures booked { OnOk result (IfSome (R.remaining from.old) (λ journal. self.new.book ≡ run (journal_entries journal))) }
    {
        // A proved loop has to end, and nothing says that an input does.
        for _ in 0..u64::MAX {
            if self.turn(from, to)? {
                return Ok(());
            }
        }
        Err(Failure::Endless)
    }
}

fn main(rt: HostRuntime) {
    let mut feeder = Feeder {
        book: [0; BOOK_SIZE],
        part: [0; PART],
        out: [0; LINES],
        held: 0,
        read: 0,
    };
    let mut from = rt.stdin();
    let mut to = rt.stdout();
    if let Err(failure) = feeder.run(&mut from, &mut to) {
        tell(&mut rt.stderr(), failure);
    }
}
