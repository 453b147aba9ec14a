// Compares the sheet of each example journal with the sheet that stands beside it in data/, and
// prints how many lines are the same.
#![tactic(auto)]

ghost use Rattle.std.specs.Prelude.{ℕ, ◌<◌, List, length, take, IfOk};
ghost use Rattle.std.specs.Io.{ReadsAtMost};
ghost use Rattle.std.specs.Io.KnownBytes.{Consumes, IsAtEnd};

use arrayvec::ArrayString;
use journal::sheet::write_sheet;
use std::io::Read;
use std::rt::Files;
use std::{fs, io};

// More bytes than an example's journal and its sheet have.
const JOURNAL: usize = 4096;

const SHEET: usize = 65536;

// More bytes than the name of a file in data/ has.
const NAME: usize = 64;

const EXAMPLES: [&str; 14] = [
    "paper",
    "window",
    "next_print",
    "partial_next_print",
    "partial_window",
    "fallback",
    "void",
    "hostile_day",
    "before_1970",
    "withdraw",
    "voted",
    "scheduled",
    "posted_in_order",
    "posted_late",
];

// Reads until buf is full or nothing is left, and answers how many bytes it put at the front of
// buf.
fn read_full<R: Read>(reader: &mut R, buf: &mut [u8]) -> io::Result<usize>
    ensures bound { ReadsAtMost result buf.new }
    ensures bytes { IfOk result (λ n. Consumes (R.remaining reader.old) (R.remaining reader.new) (take n buf.new)) }
    ensures end { IfOk result (λ n. n < length buf.new → IsAtEnd (R.remaining reader.new)) }
{
    let mut done = 0;
    // No `for`: how far a turn goes is what the read gave.
    while done < buf.len() {
        let n = reader.read(&mut buf[done..])?;
        if n == 0 {
            return Ok(done);
        }
        done += n;
    }
    Ok(done)
}

// Reads a whole file to the front of buf; none where it cannot be read, is empty or does not fit.
fn load<'a, R: Files>(rt: &R, name: &str, kind: &str, buf: &'a mut [u8]) -> Option<&'a [u8]> {
    let mut path: ArrayString<NAME> = ArrayString::new();
    path.try_push_str(name).ok()?;
    path.try_push_str(kind).ok()?;
    let mut file = fs::open(rt, path.as_str()).ok()?;
    let n = read_full(&mut file, buf).ok()?;
    if n == 0 || n == buf.len() {
        return None;
    }
    Some(&buf[..n])
}

// Writes the sheet of a journal to the front of out; none where out has too little room.
fn sheet_of<'a>(journal: &[u8], out: &'a mut [u8]) -> Option<&'a [u8]> {
    let n = write_sheet(journal, out)?;
    Some(&out[..n])
}

// The first index at which two texts differ, or the length of the shorter.
fn first_difference(a: &[u8], b: &[u8]) -> usize {
    let shorter = a.len().min(b.len());
    a.iter().zip(b).position(|(x, y)| x != y).unwrap_or(shorter)
}

// How many lines end before an index.
fn lines_before(text: &[u8], end: usize) -> usize {
    text.iter().take(end).filter(|x| **x == b'\n').count()
}

// Whether a sheet is the one in data/, and how many lines are the same from the front on.
#[derive(Clone, Copy)]
struct Compared {
    same: bool,
    lines: usize,
}

// None where the journal or the sheet in data/ cannot be read, or is too long.
fn compare<R: Files>(rt: &R, name: &str) -> Option<Compared> {
    let mut journal = [0u8; JOURNAL];
    let journal = load(rt, name, ".journal", &mut journal)?;
    let mut expected = [0u8; SHEET];
    let expected = load(rt, name, ".sheet", &mut expected)?;
    let mut out = [0u8; SHEET];
    let ours = sheet_of(journal, &mut out)?;
    let at = first_difference(ours, expected);
    Some(Compared {
        same: ours == expected,
        lines: lines_before(ours, at),
    })
}

fn example<R: Files + Print>(rt: &R, name: &str) -> io::Result<()> {
    let Some(compared) = compare(rt, name) else {
        return println!(rt; "{name}: its journal or its sheet cannot be read, or is too long");
    };
    let lines = compared.lines;
    if compared.same {
        println!(rt; "{name}: same, lines {lines}")
    } else {
        println!(rt; "{name}: differs after line {lines}")
    }
}

fn main(rt: HostRuntime) -> io::Result<()> {
    for name in EXAMPLES {
        example(&rt, name)?;
    }
    Ok(())
}
