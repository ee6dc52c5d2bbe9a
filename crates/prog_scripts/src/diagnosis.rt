//! What can be wrong with a line that can't be read, and how it is told.

ghost use Rattle.std.specs.Fmt.{WritesOnOk};
ghost use Rattle.prog_scripts.specs.DiagnosisTexts.{length_text};

use std::fmt::{self, Display, Formatter};

/// What is wrong with a line of a text. Its `Display` tells it; no clause says how a field of the line looks in that.
#[derive(Clone, Copy, Debug, PartialEq, Eq)]
pub enum Diagnosis<'a> {
    /// The text ends before the line.
    Missing,
    /// The last line has no LF.
    Unended,
    /// A CR stands before the LF.
    CarriageReturn,
    /// The line is empty.
    Blank,
    /// A space at the line's beginning or end, or after another. The column is counted from 1.
    ExtraSpace(usize),
    /// A line after the last one of a claim.
    AfterEnd,
    /// No command has this letter.
    UnknownCommand(&'a [u8]),
    /// Too few or too many fields.
    FieldCount {
        found: usize,
        wanted: usize,
    },
    /// Another word was expected.
    Word {
        found: &'a [u8],
        wanted: &'static str,
    },
    /// A field, or a part of a list, is no number.
    Number {
        found: &'a [u8],
        why: NumberFault,
    },
    /// A number that is too small or too large.
    OutOfRange {
        found: u32,
        least: u32,
        most: u32,
    },
    /// A list, a row or a path that is too short or too long.
    ListLength {
        found: usize,
        least: usize,
        most: usize,
    },
    /// A number of a list that has to rise, and the one before it.
    NotRising {
        found: u32,
        before: u32,
    },
    /// None of these.
    Other,
}

/// Why a field is no number.
#[derive(Clone, Copy, Debug, PartialEq, Eq)]
pub enum NumberFault {
    /// There is nothing.
    Empty,
    /// Something besides the digits 0 to 9.
    NotDigits,
    /// A 0 stands before other digits.
    LeadingZero,
    /// Over 4,294,967,295.
    TooLarge,
}

impl Display for NumberFault {
    ghost use Rattle.std.specs.Prelude.{Some};
    ghost use Rattle.prog_scripts.specs.DiagnosisTexts.{why_text};

    ghost output = { λ why. Some (why_text why) };

    fn fmt<W: fmt::Write>(&self, f: &mut Formatter<W>) -> fmt::Result {
        f.write_str(match self {
            NumberFault::Empty => "it is empty",
            NumberFault::NotDigits => "not digits alone",
            NumberFault::LeadingZero => "a leading zero",
            NumberFault::TooLarge => "over 4,294,967,295",
        })
    }
}

impl Display for Diagnosis<'_> {
    ghost use Rattle.prog_scripts.specs.DiagnosisTexts.{diagnosis_text};

    ghost output = { diagnosis_text };

    fn fmt<W: fmt::Write>(&self, f: &mut Formatter<W>) -> fmt::Result {
        match self {
            Diagnosis::Missing => f.write_str("is missing: the text ends before it"),
            Diagnosis::Unended => f.write_str("the last line has no LF at its end"),
            Diagnosis::CarriageReturn => f.write_str("ends with CR LF; LF was expected"),
            Diagnosis::Blank => f.write_str("is empty"),
            Diagnosis::ExtraSpace(column) => write!(f, "a space too many at column {column}"),
            Diagnosis::AfterEnd => f.write_str("the claim ends before this line"),
            Diagnosis::UnknownCommand(found) => write!(f, "{} is no command", Quoted(found)),
            Diagnosis::FieldCount { found, wanted } => {
                write!(f, "{found} fields; {wanted} were expected")
            }
            Diagnosis::Word { found, wanted } => {
                write!(f, "{} where \"{wanted}\" was expected", Quoted(found))
            }
            Diagnosis::Number { found, why } => {
                write!(f, "{} isn't a number: {why}", Quoted(found))
            }
            Diagnosis::OutOfRange { found, least, most } => {
                write!(f, "{found} is out of range: {least} to {most} was expected")
            }
            Diagnosis::ListLength { found, least, most } => {
                write_length(f, *found, *least, *most)
            }
            Diagnosis::NotRising { found, before } => {
                write!(f, "{found} after {before} in a list that has to rise")
            }
            Diagnosis::Other => f.write_str("another line was expected"),
        }
    }
}

fn write_length<W: fmt::Write>(
    f: &mut Formatter<W>,
    found: usize,
    least: usize,
    most: usize,
) -> fmt::Result
    ensures { WritesOnOk W.write_str_gives f.old result (length_text found least most) f.new }
{
    if least == most {
        write!(f, "{found} in a list; {least} were expected")
    } else {
        write!(f, "{found} in a list; {least} to {most} were expected")
    }
}

/// How many bytes of a field are shown.
const QUOTED_LIMIT: usize = 40;

/// A field as it is shown: in quotes, its front alone if it is long, and what isn't printable ASCII by its number.
#[derive(Clone, Copy)]
struct Quoted<'a>(&'a [u8]);

impl Display for Quoted<'_> {
    fn fmt<W: fmt::Write>(&self, f: &mut Formatter<W>) -> fmt::Result {
        f.write_str("\"")?;
        for b in self.0.iter().take(QUOTED_LIMIT) {
            if b.is_ascii_graphic() || *b == b' ' {
                f.write_char(char::from(*b))?;
            } else {
                write!(f, "\\x{b:02x}")?;
            }
        }
        f.write_str(if self.0.len() > QUOTED_LIMIT {
            "..\""
        } else {
            "\""
        })
    }
}
