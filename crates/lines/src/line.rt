// The line of text of an answer.
ghost use Rattle.std.specs.Prelude.{◌+◌, ◌≤◌, ◌≡◌, [], ◌∷◌, ◌++◌, ltb, length, if◌then◌else◌, IfSome};
ghost use Rattle.std.proofs.lemmas.List.Edits.{sets};
ghost use Rattle.rules.specs.Answers.{Used, Wait, Settle};
ghost use Rattle.rules.specs.Lines.{decimal, after_word, line};
ghost use Rattle.answers.specs.Answers.{answer_of};
ghost use Rattle.core_decide.specs.Decisions.{method_of};
ghost use Rattle.lines.specs.Lines.{line_max, said_by};

use crate::text::Text;
use answers::answer::Answer;
use core_decide::decide::SettleMethod;
use core_take::take::PrintUse;
use core_terms::units::StrikeUsd;

// No line is longer.
pub const LINE_MAX: usize = 96;

// What a line says: an answer, or that a command was refused with a number, which may be any, also
// one that no command here gives.
#[derive(Debug, Clone, Copy, PartialEq, Eq)]
pub enum Line {
    Answer(Answer),
    Refused(u8),
}

// A line of a word alone.
fn alone(word: &[u8]) -> Text
    requires { length word.now + 1 ≤ line_max }
    ensures { result ≡ word.now ++ after_word [] }
{
    let mut text = Text::new();
    text.put(word);
    text
}

// A line of a word and one number.
fn short(word: &[u8], n: u8) -> Text
    requires { length word.now + 22 ≤ line_max }
    ensures { result ≡ word.now ++ after_word (decimal n ∷ []) }
{
    let mut text = Text::new();
    text.number(n as u64);
    text.put(word);
    text
}

#[tactic(auto, using(crate::proofs::Decimals::flag_same), unfolding(rules::specs::Lines::line))]
fn used(series: u8, u: PrintUse) -> Text
    ensures { result ≡ line series (Used u.slot u.next_print u.fallback) }
{
    let mut text = Text::new();
    text.number(u.fallback as u64);
    text.index(u.next_print);
    text.index(u.slot);
    text.number(series as u64);
    text.put(b"used");
    text
}

#[tactic(auto, unfolding(rules::specs::Lines::line))]
fn wait(series: u8, until: i64) -> Text
    ensures { result ≡ line series (Wait until) }
{
    let mut text = Text::new();
    text.time(until);
    text.number(series as u64);
    text.put(b"wait");
    text
}

#[tactic(auto, unfolding(rules::specs::Lines::line))]
fn settle(series: u8, method: SettleMethod, price: StrikeUsd, samples: u16) -> Text
    ensures { result ≡ line series (Settle (method_of method) price.0 samples) }
{
    let mut text = Text::new();
    text.number(samples as u64);
    text.number(price.get());
    text.number(method.number() as u64);
    text.number(series as u64);
    text.put(b"settle");
    text
}

// The line of an answer to a command of the series.
#[tactic(auto, unfolding(rules::specs::Lines::line))]
fn answered(series: u8, answer: Answer) -> Text
    ensures { result ≡ line series (answer_of answer) }
{
    match answer {
        Answer::Opened => short(b"opened", series),
        Answer::Used(u) => used(series, u),
        Answer::Wait { until } => wait(series, until),
        Answer::Settle {
            method,
            price,
            samples,
        } => settle(series, method, price, samples),
        Answer::Void => short(b"void", series),
        Answer::Done => alone(b"done"),
        Answer::Refused(r) => short(b"refused", r.number()),
    }
}

// The text of a line.
#[tactic(auto, unfolding(rules::specs::Lines::line))]
fn text_of(series: u8, what: Line) -> Text
    ensures { result ≡ line series (said_by what) }
{
    match what {
        Line::Answer(answer) => answered(series, answer),
        Line::Refused(number) => short(b"refused", number),
    }
}

// Writes the line to the front of out and answers its length. An out of fewer than LINE_MAX bytes
// gets no line, and stays.
#[tactic(auto, using(crate::proofs::Lines::over_front))]
pub fn write_line(out: &mut [u8], series: u8, what: Line) -> Option<usize>
    ensures value { (result ≡ (if ltb (length out.old) line_max then None else Some (length (line series (said_by what))))) × (out.new ≡ (if ltb (length out.old) line_max then out.old else sets out.old 0 (line series (said_by what)))) }
    ensures upper_bound { IfSome result (λ n. n ≤ line_max) }
{
    if out.len() < LINE_MAX {
        return None;
    }
    let text = text_of(series, what);
    let line = text.as_slice();
    out[..line.len()].copy_from_slice(line);
    Some(line.len())
}
