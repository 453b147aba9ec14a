// A number written at an offset of a record.
ghost use Rattle.std.specs.Prelude.{◌≡◌, ◌+◌, ◌≤◌};
ghost use Rattle.std.proofs.lemmas.List.Edits.{sets};
ghost use Rattle.rules.specs.Bytes.{bytes};
ghost use Rattle.rules.specs.Record.{record_size};

use book::look::RECORD_SIZE;
use endian::LittleEndian;

#[tactic(auto, using(crate::proofs::Stores::number_put))]
pub(crate) fn put<const N: usize, T: LittleEndian<N>>(part: &mut [u8; RECORD_SIZE], at: usize, x: T)
    requires { at + N ≤ record_size }
    ensures { part.new ≡ sets part.old at (bytes N (T.bits x)) }
{
    part[at..at + N].copy_from_slice(&x.to_bytes());
}
