//! The faults of a text, a type for each layer, and the numbers that they are reported by.
ghost use Rattle.std.specs.Prelude.{◌≡◌};
ghost use Rattle.casefile.specs.declared.fault.LineFault.TheVariants.{BadField};
ghost use Rattle.casefile.specs.declared.fault.TextFault.TheVariants.{Line as OfLine};
ghost use Rattle.casefile.specs.Faults.{report_of};

// The layer of every fault that the text alone shows.
const TEXT_LAYER: u8 = 1;

/// A field that holds no right-justified number, by its first column.
#[derive(Clone, Copy, Debug, PartialEq, Eq, Hash)]
pub struct FieldFault {
    pub column: usize,
}

/// The first question that a line fails, with its column where that varies.
#[derive(Clone, Copy, Debug, PartialEq, Eq, Hash)]
pub enum LineFault {
    NoLetter,
    WrongLength(usize),
    NoSpace(usize),
    BadField(FieldFault),
}

/// The first question that a text fails: of the whole, of the end of a line, or of a line's bytes.
#[derive(Clone, Copy, Debug, PartialEq, Eq, Hash)]
pub enum TextFault {
    TooLong,
    NoNewline,
    Line(LineFault),
}

/// What is reported of a fault: the column, the layer, and the number of the question.
// Plain numbers, as the fault line prints them, which has 0 where no column is at fault.
#[derive(Clone, Copy, Debug, PartialEq, Eq, Hash)]
pub struct Report {
    pub column: usize,
    pub layer: u8,
    pub number: u8,
}

// By hand, both: clauses name the fault that a `?` makes, and a derived `From` has no contract.
impl From<FieldFault> for LineFault {
    ghost from_gives = { λ e r. r ≡ BadField e };

    fn from(bad: FieldFault) -> LineFault {
        LineFault::BadField(bad)
    }
}

impl From<LineFault> for TextFault {
    ghost from_gives = { λ e r. r ≡ OfLine e };

    fn from(line: LineFault) -> TextFault {
        TextFault::Line(line)
    }
}

impl TextFault {
    /// What is reported of the fault.
    // A method, and no `From` beside it, which would say the same once more.
    pub fn report(&self) -> Report
        ensures { result ≡ report_of self.now }
    {
        let (column, number) = match self {
            TextFault::TooLong => (0, 16),
            TextFault::NoNewline => (0, 15),
            TextFault::Line(LineFault::NoLetter) => (1, 10),
            TextFault::Line(LineFault::WrongLength(column)) => (*column, 11),
            TextFault::Line(LineFault::NoSpace(column)) => (*column, 12),
            TextFault::Line(LineFault::BadField(field)) => (field.column, 13),
        };
        Report {
            column,
            layer: TEXT_LAYER,
            number,
        }
    }
}
