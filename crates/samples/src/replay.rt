// A sample: a mark of eight bytes, the number of its parts in four, and the parts, one behind the
// other.
ghost use Rattle.std.specs.Prelude.{◌≡◌, ◌<◌, ℕ, List, Option, ◌++◌, IfSome, IfOk, OnOk, IsErrOf};
ghost use Rattle.std.specs.Int.{w32, to_le_bytes};
ghost use Rattle.std.specs.Io.KnownBytes.{Consumes, IsAtEnd};

use crate::fault::Fault;
use std::io;
use std::io::{ErrorKind, Read};

// The bytes that come next.
pub fn bytes<const N: usize, R: Read>(reader: &mut R) -> io::Result<[u8; N]>
    ensures { IfOk result (λ b. Consumes (R.remaining reader.old) (R.remaining reader.new) b) }
{
    let mut b = [0u8; N];
    reader.read_exact(&mut b)?;
    Ok(b)
}

// How many parts the sample with this mark has. One with none is no sample, nor is one whose mark
// and number cannot be read.
fn count<R: Read>(reader: &mut R, mark: [u8; 8]) -> Option<u32>
    ensures some { IfSome result (λ n. 0 < n) }
    ensures header { IfSome result (λ n. Consumes (R.remaining reader.old) (R.remaining reader.new) (mark ++ to_le_bytes w32 n)) }
{
    let first = bytes(reader).ok()?;
    let n = u32::from_le_bytes(bytes(reader).ok()?);
    if first != mark || n == 0 {
        return None;
    }
    Some(n)
}

// No byte is left. A read that fails does not say so.
fn end<R: Read>(reader: &mut R) -> io::Result<()>
    ensures { OnOk result (IsAtEnd (R.remaining reader.new)) }
{
    let mut b = [0u8; 1];
    if reader.read(&mut b)? != 0 {
        return Err(ErrorKind::InvalidData.into());
    }
    Ok(())
}

// What replays the parts of a sample of its kind.
pub trait Trial {
    // What a sample of this kind begins with.
    ghost MARK: { List ℕ };

    const MARK: [u8; 8];

    // The number of the part at hand, from 1.
    ghost number: { Self → ℕ };

    // Replays the part that comes next.
    fn next<R: Read>(&mut self, reader: &mut R, n: u32) -> io::Result<()>
        ensures { number self.new ≡ n };
}

// Replays the parts that the sample says it has.
fn parts<T: Trial, R: Read>(trial: &mut T, reader: &mut R, n: u32) -> io::Result<()>
    requires { 0 < n }
    ensures { OnOk result (T.number trial.new ≡ n) }
{
    for i in 1..=n {
        trial.next(reader, i)?;
    }
    Ok(())
}

// Replays a sample. All its parts are replayed and nothing is behind them, or it is at fault.
pub fn replay<T: Trial, R: Read>(trial: &mut T, reader: &mut R) -> Result<(), Fault>
    ensures parts { OnOk result ((rest : Option (List ℕ)) × Consumes (R.remaining reader.old) rest (T.MARK ++ to_le_bytes w32 (T.number trial.new))) }
    ensures end { OnOk result (IsAtEnd (R.remaining reader.new)) }
    ensures no_sample { IsErrOf result Fault.NotASample → trial.new ≡ trial.old }
{
    let n = count(reader, T::MARK).ok_or(Fault::NotASample)?;
    parts(trial, reader, n)?;
    end(reader)?;
    Ok(())
}
