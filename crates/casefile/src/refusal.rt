//! A fault with the line that it is in.
ghost use Rattle.std.specs.Prelude.{◌<◌};
ghost use Rattle.casefile.specs.Faults.{report_of};

use super::fault::TextFault;

/// Why a text is refused, and in which line; 0 is the text as a whole, as the fault line prints it.
// Line and column fit a printed fault line.
#[derive(Clone, Copy, Debug, PartialEq, Eq, Hash)]
pub struct Refusal {
    pub line: usize,
    pub fault: TextFault,
    ghost low: { line < 100000 },
    ghost narrow: { (report_of fault).column < 100 },
}
