// Replays recorded answers of the Rust core, from standard input (trials/README.md has the format),
// and prints for each call how many there are and how many the core answers otherwise.
#![tactic(auto)]

mod given;
mod replay;
mod tally;

use samples::fault::Fault;
use std::io;
use std::io::Write;
use tally::Tally;

// What is said of a fault is not what `book_trials` says, nor is the rest: a shared main would need a method
// of the trial for each line.
fn main(rt: HostRuntime) -> io::Result<()> {
    let mut tally = Tally::default();
    let replayed = samples::replay::replay(&mut tally, &mut rt.reader());
    let mut out = io::writer(&rt);
    if let Err(Fault::NotASample) = replayed {
        return writeln!(out, "{}", Fault::NotASample);
    }
    tally.print(&mut out)?;
    if let Err(fault) = replayed {
        let number = tally.number;
        writeln!(out, "{fault} at record {number}")?;
    }
    Ok(())
}
