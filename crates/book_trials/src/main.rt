// Replays recorded journals of the Rust book, from standard input (trials/README.md has the
// format), and prints how many answers there are of each kind, and how many of the answers and of
// the books at the end differ from what was recorded.
#![tactic(auto)]

ghost use Rattle.std.specs.Prelude.{codes};

mod journal;
mod recorded;
mod tally;

use samples::fault::Fault;
use samples::replay::Trial;
use std::io;
use std::io::{Read, Write};
use tally::Tally;

#[derive(Drop)]
struct Journals {
    // The number of the journal at hand, from 1.
    number: u32,
    tally: Tally,
}

impl Trial for Journals {
    ghost MARK = { codes "LFBOOK01" };

    const MARK: [u8; 8] = *b"LFBOOK01";

    ghost number = { λ j. j.number };

    fn next<R: Read>(&mut self, reader: &mut R, n: u32) -> io::Result<()> {
        self.number = n;
        journal::replay(reader, n, &mut self.tally)
    }
}

// What is said of a fault is not what `core_trials` says, nor is the rest: a shared main would need a method
// of the trial for each line.
fn main(rt: HostRuntime) -> io::Result<()> {
    let mut journals = Journals {
        number: 0,
        tally: Tally::new(),
    };
    let replayed = samples::replay::replay(&mut journals, &mut rt.reader());
    let Journals { number, tally } = journals;
    let mut out = io::writer(&rt);
    if let Err(Fault::NotASample) = replayed {
        return writeln!(out, "{}", Fault::NotASample);
    }
    tally.print(&mut out, number)?;
    if let Err(fault) = replayed {
        let commands = tally.answers.answers;
        writeln!(
            out,
            "{fault} in journal {number}, after {commands} commands"
        )?;
    }
    Ok(())
}
