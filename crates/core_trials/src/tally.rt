// How many answers of each call were replayed and how many differ, and what is printed of it.
ghost use Rattle.std.specs.Prelude.{codes};

use crate::replay;
use samples::compared::Compared;
use samples::replay::{Trial, bytes};
use std::io;
use std::io::{ErrorKind, Read, Write};

// What a record may be of, by the number of the call from 1.
const CALLS: [&str; 8] = [
    "mean",
    "accept",
    "restore",
    "add_print",
    "decide",
    "params",
    "print",
    "method",
];

#[derive(Debug, Clone, Copy, PartialEq, Eq, Default)]
pub(crate) struct Tally {
    // The answers of each call, by its place in CALLS.
    answers: [Compared; 8],
    // The number of the record at hand, from 1.
    pub(crate) number: u32,
    // The first record that differs.
    first: Option<u32>,
}

impl Trial for Tally {
    ghost MARK = { codes "LFCORE02" };

    const MARK: [u8; 8] = *b"LFCORE02";

    ghost number = { λ t. t.number };

    // A record is the number of a call, what the call was given and what it answered.
    fn next<R: Read>(&mut self, reader: &mut R, n: u32) -> io::Result<()> {
        self.number = n;
        let [call] = bytes::<1, R>(reader)?;
        let is_same = match call {
            1 => replay::mean(&bytes(reader)?),
            2 => replay::accept(&bytes(reader)?),
            3 => replay::restore(&bytes(reader)?),
            4 => replay::add_print(&bytes(reader)?),
            5 => replay::decide(&bytes(reader)?),
            6 => replay::params(&bytes(reader)?),
            7 => replay::print(&bytes(reader)?),
            8 => replay::method(&bytes(reader)?),
            _ => return Err(ErrorKind::InvalidData.into()),
        };
        if !self.answers[call as usize - 1].count(is_same) {
            self.first = self.first.or(Some(n));
        }
        Ok(())
    }
}

impl Tally {
    pub(crate) fn print<W: Write>(&self, out: &mut W) -> io::Result<()> {
        for (call, answers) in CALLS.iter().zip(&self.answers) {
            writeln!(out, "{call} {answers}")?;
        }
        if let Some(first) = self.first {
            writeln!(out, "the first that differs is record {first}")?;
        }
        Ok(())
    }
}
