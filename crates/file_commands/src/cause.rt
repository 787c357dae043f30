//! Why a line is none.

use crate::form::Form;
use std::fmt;

/// Why a line is none, by what stands at its column.
#[derive(Clone, Copy, Debug, PartialEq, Eq)]
pub enum Cause {
    /// Three bytes that some editors write before a text.
    ByteOrderMark,
    /// A carriage return.
    CarriageReturn,
    /// A line without a byte.
    EmptyLine,
    /// One more space, where a word of this form is due.
    Space(Form),
    /// The line ends, where a word of this form is due.
    Ends(Form),
    /// A word, where the line has to end.
    TooMany,
    /// A word that names no kind of line.
    NoKind,
    /// A word that isn't of this form.
    NoWord(Form),
    /// A byte that is no decimal digit.
    NoDigit,
    /// A zero before other digits.
    LeadingZero,
    /// A number that is too large to be of this form.
    TooLarge(Form),
    /// A lower-case letter, where a hexadecimal digit is due.
    LowerCase,
    /// Another byte that is no hexadecimal digit.
    NoHexDigit,
    /// So many digits, where those of this form are due.
    Digits(usize, Form),
    /// An odd number of digits.
    OddDigits,
    /// A block of so many digits.
    BlockDigits(usize),
    /// A block whose bytes are equal, with all its digits.
    EqualBytes,
    /// Whole blocks behind an `x`, or no bytes.
    WholeBlocks,
    /// As many completion queues as submission queues, in a line of ten numbers.
    SameQueues,
    /// Nothing that is known here.
    Unknown,
}

impl fmt::Display for Cause {
    fn fmt<W: fmt::Write>(&self, f: &mut fmt::Formatter<W>) -> fmt::Result {
        match self {
            Cause::ByteOrderMark => f.write_str("a byte order mark, due is none"),
            Cause::CarriageReturn => {
                f.write_str("a carriage return, due is a line feed alone at the end of a line")
            }
            Cause::EmptyLine => f.write_str("an empty line, due is none"),
            Cause::Space(form) => write!(f, "a space too many, due is {form}"),
            Cause::Ends(form) => write!(f, "the line ends, due is {form}"),
            Cause::TooMany => f.write_str("a word too many, due is the end of the line"),
            Cause::NoKind => f.write_str("no kind of line"),
            Cause::NoWord(form) => write!(f, "another word, due is {form}"),
            Cause::NoDigit => f.write_str("no digit, due is 0 to 9"),
            Cause::LeadingZero => f.write_str("a leading zero, due is none"),
            Cause::TooLarge(form) => write!(f, "a number that is too large, due is {form}"),
            Cause::LowerCase => f.write_str("lower-case digit, due is 0 to 9 or A to F"),
            Cause::NoHexDigit => f.write_str("no digit, due is 0 to 9 or A to F"),
            Cause::Digits(found, form) => write!(f, "{found} digits, due is {form}"),
            Cause::OddDigits => f.write_str("an odd number of digits, due are two a byte"),
            Cause::BlockDigits(found) => {
                write!(f, "a block of {found} digits, due are 2 or 1024")
            }
            Cause::EqualBytes => {
                f.write_str("a block of equal bytes, due are the two digits of one of them")
            }
            Cause::WholeBlocks => f.write_str("whole blocks or no bytes, due is no x before them"),
            Cause::SameQueues => {
                f.write_str("as many completion queues as submission queues, due is config")
            }
            Cause::Unknown => f.write_str("it is none"),
        }
    }
}
