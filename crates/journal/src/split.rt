// A journal's bytes split into entries.
ghost use Rattle.std.specs.Prelude.{◌≡◌};
ghost use Rattle.rules.specs.Entries as E;
ghost use Rattle.journal.specs.Split.{first_width};

use commands::kind::Kind;

// How many bytes an entry has that begins with this byte. One that says no command stands alone: the
// 1 is the rules' own, no command has it.
#[inline(always)]
#[tactic(auto, using(commands::proofs::Entries::unknown_width))]
fn width(byte: u8) -> usize
    ensures { result ≡ E.width byte }
{
    Kind::try_from(byte).map_or(1, |kind| kind.width())
}

// How many bytes the first entry of a journal's part has, if it has one. What is too short for a command
// is an entry in the last part, and waits for the next in any other.
#[tactic(auto, using(crate::proofs::Entries::first_none, crate::proofs::Entries::first_whole, crate::proofs::Entries::first_tail))]
pub fn first_width(part: &[u8], last: bool) -> Option<usize>
    ensures { result ≡ first_width last part.now }
{
    let [first, ..] = part else {
        return None;
    };
    let w = width(*first);
    if w <= part.len() {
        return Some(w);
    }
    last.then_some(part.len())
}
