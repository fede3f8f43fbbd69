//! Written lines: a letter, then numbers in their columns, each behind one space.
ghost use Rattle.std.specs.Prelude.{◌≡◌, ◌+◌, [], ◌∷◌, ◌++◌, length};
ghost use Rattle.casefile.specs.Put.{slotted, span_of, Wrote};

use super::digits::put_number;
use super::layout::{NEWLINE, SPACE};
use super::slot::Slot;

/// Too few bytes are lent for what is to be written.
#[derive(Clone, Copy, Debug, PartialEq, Eq, Hash)]
pub struct TooShort {
    pub needed: usize,
}

// A line to be written: its letter, its numbers, and how many bytes they take.
// The length is kept, since adding it up would need a bound on how many numbers there are.
#[derive(Clone, Copy, Debug, PartialEq, Eq)]
pub(crate) struct Written<'a> {
    pub(crate) letter: u8,
    pub(crate) slots: &'a [Slot],
    pub(crate) len: usize,
    ghost fits: { len ≡ 1 + span_of slots.now },
}

// Fills `out` with numbers, each behind one space. By recursion: a loop would have to say what stands before the rest.
fn put_slots(out: &mut [u8], slots: &[Slot])
    requires { length out.old ≡ span_of slots.now }
    ensures { out.new ≡ slotted slots.now }
{
    if let [slot, more @ ..] = slots {
        // As long as the numbers' span, `out` has a byte for the space.
        let (space, out) = out.split_first_mut().unwrap();
        *space = SPACE;
        let (field, rest) = out.split_at_mut(slot.width);
        put_number(field, slot.number);
        put_slots(rest, more);
    }
}

impl Written<'_> {
    // Fills `out` with the line.
    fn fill(&self, out: &mut [u8])
        requires { length out.old ≡ self.now.len }
        ensures { out.new ≡ self.now.letter ∷ slotted self.now.slots.now }
    {
        // As long as a line, `out` has a byte for the letter.
        let (first, rest) = out.split_first_mut().unwrap();
        *first = self.letter;
        put_slots(rest, self.slots);
    }

    // Writes the line to the front of `out`, and tells its length.
    pub(crate) fn put(&self, out: &mut [u8]) -> Result<usize, TooShort>
        ensures { Wrote (self.now.letter ∷ slotted self.now.slots.now) out.old out.new result }
    {
        let needed = self.len;
        if out.len() < needed {
            return Err(TooShort { needed });
        }
        self.fill(&mut out[..needed]);
        Ok(needed)
    }

    // The line with its newline.
    pub(crate) fn with_newline<const N: usize>(&self) -> [u8; N]
        requires { N ≡ 1 + self.now.len }
        ensures { result ≡ (self.now.letter ∷ slotted self.now.slots.now) ++ 10 ∷ [] }
    {
        // The line leaves the last byte as it is, a newline.
        let mut out = [NEWLINE; N];
        self.fill(&mut out[..self.len]);
        out
    }
}
