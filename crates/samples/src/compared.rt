// How many answers were compared, and how many of them differ.
ghost use Rattle.std.specs.Prelude.{◌≡◌, ◌+◌, ◌-◌, ◌^◌, ◌≤◌, min, if◌then◌else◌};

use std::fmt;

#[derive(Debug, Clone, Copy, PartialEq, Eq)]
pub struct Compared {
    pub answers: u64,
    pub different: u64,
    ghost some: { different ≤ answers },
}

// Nothing compared. Not derived, since there is a ghost field.
impl Default for Compared {
    ghost use Rattle.samples.specs.declared.compared.Compared.{Compared};

    ghost is_default = { λ c. (c.answers ≡ 0) × (c.different ≡ 0) };

    fn default() -> Compared {
        Compared {
            answers: 0,
            different: 0,
        }
    }
}

impl Compared {
    // Counts one more answer, and hands on whether it is the same. A count stops at the greatest
    // number.
    pub fn count(&mut self, is_same: bool) -> bool
        ensures same { result ≡ is_same }
        ensures answers { self.new.answers ≡ min (self.old.answers + 1) (2 ^ 64 - 1) }
        ensures different { self.new.different ≡ (if is_same then self.old.different else min (self.old.different + 1) (2 ^ 64 - 1)) }
    {
        self.answers = self.answers.saturating_add(1);
        if !is_same {
            self.different = self.different.saturating_add(1);
        }
        is_same
    }
}

impl fmt::Display for Compared {
    fn fmt<W: fmt::Write>(&self, f: &mut fmt::Formatter<W>) -> fmt::Result {
        let answers = self.answers;
        let different = self.different;
        write!(f, "{answers} different {different}")
    }
}
