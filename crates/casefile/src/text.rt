//! A text cut into lines, and checked line by line.
ghost use Rattle.std.specs.Prelude.{◌≡◌, ◌+◌, ◌<◌, ◌≤◌, [], ◌∷◌, ◌++◌, length, Result, MatchOption, MatchResult};
ghost use Rattle.casefile.specs.Records.{line_of};
ghost use Rattle.casefile.specs.Texts.{limit, OneLine, FirstLine, FirstFault, Holds, Adds, Checked};

use super::fault::TextFault;
use super::layout::{LIMIT, NEWLINE};
use super::line::{Record, read_line};
use super::refusal::Refusal;
use super::summary::Summary;

impl Summary {
    // No `Default`: a derived one is refused beside ghost fields, and one by hand would be open to callers.
    fn new() -> Summary
        ensures { Holds [] result }
    {
        Summary {
            terms: 0,
            given: 0,
            asks: 0,
            shows: 0,
        }
    }

    // Counts one record more.
    fn count(&mut self, said: Record)
        requires { self.old.terms + self.old.given + self.old.asks + self.old.shows < 99999 }
        ensures { Adds self.old said self.new }
    {
        match said {
            Record::Term { .. } => self.terms += 1,
            Record::Given { .. } => self.given += 1,
            Record::Ask { .. } => self.asks += 1,
            Record::Show { .. } => self.shows += 1,
        }
    }

    // How many lines are counted.
    fn lines(&self) -> usize
        ensures { result ≡ self.now.terms + self.now.given + self.now.asks + self.now.shows }
    {
        self.terms + self.given + self.asks + self.shows
    }
}

/// The first line of a text, and what follows the newline that ends it.
pub fn cut_line(text: &[u8]) -> Option<(&[u8], &[u8])>
    ensures { MatchOption result (OneLine text.now) (λ p. FirstLine text.now p.0.now p.1.now) }
{
    let end = text.iter().position(|byte| *byte == NEWLINE)?;
    Some((&text[..end], &text[end + 1..]))
}

/// What the first line of a text says, and what follows its newline, or the line's fault.
pub fn first_record(text: &[u8]) -> Result<(Record, &[u8]), TextFault>
    ensures { MatchResult result
        (λ p. text.now ≡ line_of p.0 ++ 10 ∷ p.1.now)
        (FirstFault text.now) }
{
    let Some((line, rest)) = cut_line(text) else {
        return Err(TextFault::NoNewline);
    };
    Ok((read_line(line)?, rest))
}

// The counts of a text that is not too long, or its first fault and the line that has it.
fn check_lines(text: &[u8]) -> Result<Summary, Refusal>
    requires { length text.now ≤ limit }
    ensures { Checked text.now result }
{
    let mut held = Summary::new();
    let mut rest = text;
    while !rest.is_empty() {
        match first_record(rest) {
            Ok((said, after)) => {
                held.count(said);
                rest = after;
            }
            // Tried with `map_err`: its closure has to ask for the refusal's bounds itself, in more words than this arm.
            Err(fault) => {
                let line = held.lines() + 1;
                return Err(Refusal { line, fault });
            }
        }
    }
    Ok(held)
}

/// What a text holds, or its first fault and the line that has it.
pub fn check_text(text: &[u8]) -> Result<Summary, Refusal>
    ensures answer { Checked text.now result }
    ensures only { (q : Result Summary Refusal) → Checked text.now q → result ≡ q }
{
    if text.len() > LIMIT {
        return Err(Refusal {
            line: 0,
            fault: TextFault::TooLong,
        });
    }
    check_lines(text)
}
