// A line as it is put together, from its end to its front, since a number gives its last digit first.
// No `Display`: of what `write!` writes, clauses know the bytes only of a `String`, which needs a heap.
ghost use Rattle.std.specs.Prelude.{◌+◌, ◌≤◌, ◌≡◌, ◌++◌, length};
ghost use Rattle.rules.specs.Lines.{ascii, decimal, signed_decimal, index};
ghost use Rattle.lines.specs.Lines.{line_max};

use crate::line::LINE_MAX;
use itoa::write_digits;
use std::marker::Model;

// The end of a line: the bytes from start on.
#[derive(Drop)]
pub(crate) struct Text {
    bytes: [u8; LINE_MAX],
    start: usize,
}

impl Model for Text {
    ghost use Rattle.std.specs.Prelude.{ℕ, ◌≤◌, List, drop};
    ghost use Rattle.lines.specs.Lines.{line_max};

    ghost Value = { List ℕ };

    ghost view = { λ t. drop t.start t.bytes };

    ghost invariant = { λ t. t.start ≤ line_max };
}

impl Text {
    // A line feed.
    pub(crate) fn new() -> Text
        ensures { result ≡ ascii "\n" }
    {
        Text {
            bytes: [b'\n'; LINE_MAX],
            start: LINE_MAX - 1,
        }
    }

    pub(crate) fn as_slice(&self) -> &[u8]
        ensures value { result.now ≡ self.now }
        ensures upper_bound { length result.now ≤ line_max }
    {
        &self.bytes[self.start..]
    }

    // Puts bytes to the front.
    pub(crate) fn put(&mut self, bytes: &[u8])
        requires { length self.old + length bytes.now ≤ line_max }
        ensures { self.new ≡ bytes.now ++ self.old }
    {
        let start = self.start - bytes.len();
        self.bytes[start..self.start].copy_from_slice(bytes);
        self.start = start;
    }

    #[tactic(auto, using(crate::proofs::Decimals::decimal_same, crate::proofs::Decimals::digits_most))]
    fn digits(&mut self, n: u64)
        requires { length self.old + 20 ≤ line_max }
        ensures value { self.new ≡ decimal n ++ self.old }
        ensures upper_bound { length self.new ≤ length self.old + 20 }
    {
        self.start = write_digits(n, &mut self.bytes, self.start);
    }

    // A field: a space and a number.
    pub(crate) fn number(&mut self, n: u64)
        requires { length self.old + 21 ≤ line_max }
        ensures value { self.new ≡ ascii " " ++ (decimal n ++ self.old) }
        ensures upper_bound { length self.new ≤ length self.old + 21 }
    {
        self.digits(n);
        self.put(b" ");
    }

    #[tactic(auto, using(crate::proofs::Decimals::no_sign, crate::proofs::Decimals::minus_sign))]
    pub(crate) fn time(&mut self, z: i64)
        requires { length self.old + 22 ≤ line_max }
        ensures value { self.new ≡ ascii " " ++ (signed_decimal z ++ self.old) }
        ensures upper_bound { length self.new ≤ length self.old + 22 }
    {
        self.digits(z.unsigned_abs());
        if z >= 0 {
            self.put(b" ");
            return;
        }
        self.put(b" -");
    }

    // The field of a place: its number, or a minus for none.
    pub(crate) fn index(&mut self, i: Option<u8>)
        requires { length self.old + 21 ≤ line_max }
        ensures value { self.new ≡ ascii " " ++ (index i ++ self.old) }
        ensures upper_bound { length self.new ≤ length self.old + 21 }
    {
        match i {
            Some(n) => self.number(n as u64),
            None => self.put(b" -"),
        }
    }
}
