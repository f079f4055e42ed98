// What is wrong with a sheet, and how it is told: what is wrong; expected what.
ghost use Rattle.std.specs.Prelude.{◌≡◌};

use crate::Kind;
use std::alloc::{AllocError, AllocFailed};
use std::error::Error;
use std::fmt;

/// The first thing that is wrong with a sheet, and in which line; line 0 where it stands in no
/// line.
#[derive(Clone, Copy, Debug, PartialEq, Eq)]
pub struct Fault<'a> {
    pub line: u64,
    pub problem: Problem<'a>,
}

/// What can be wrong, with the word that is to blame. Displayed it says what is wrong and what was
/// expected.
#[derive(Clone, Copy, Debug, PartialEq, Eq)]
pub enum Problem<'a> {
    /// The line is not UTF-8.
    NotText,
    /// The first word begins no line before the program, no operation or no call.
    NoSetting(&'a str),
    NoOperation(&'a str),
    NoCall(&'a str),
    /// The line ends where a word is due.
    Missing(Due),
    /// The word stands where the line is to end.
    Extra(&'a str),
    NoKind(&'a str),
    NoNumber(&'a str, Due),
    OutOfRange(&'a str, Due),
    /// The word has no `@`.
    NoLabel(&'a str),
    /// The word is no label of the sheet's kind.
    WrongLabel(&'a str, Kind),
    /// The word in front of a colon is no name.
    NoName(&'a str),
    UnknownName(&'a str),
    NameTwice(&'a str),
    /// No operation follows the name.
    NamesNothing(&'a str),
    CellOutside { cell: usize, memory: usize },
    CellTwice(usize),
    HeaderTwice(Header),
    NoHeader(Header),
    /// The program has more operations than a number can tell apart.
    TooLong,
    Memory,
}

/// What is due in a line.
#[derive(Clone, Copy, Debug, PartialEq, Eq)]
pub enum Due {
    Kind,
    /// a number from the first to the second
    Number(i64, i64),
    /// a number or the name of a place
    Value,
    /// a number or the name of a place, with a label
    Labelled,
    Label(Kind),
}

/// A line that stands once in a sheet.
#[derive(Clone, Copy, Debug, PartialEq, Eq)]
pub enum Header {
    Labels,
    Memory,
    Stack,
    Log,
    Program,
    Calls,
}

impl<'a> Problem<'a> {
    /// The fault that is this problem in that line.
    pub fn at(self, line: u64) -> Fault<'a>
        ensures line { result.line ≡ line }
        ensures problem { result.problem ≡ self.entry }
    {
        Fault {
            line,
            problem: self,
        }
    }

    /// The fault that is this problem, standing in no line.
    pub fn nowhere(self) -> Fault<'a>
        ensures line { result.line ≡ 0 }
        ensures problem { result.problem ≡ self.entry }
    {
        self.at(0)
    }
}

impl fmt::Display for Fault<'_> {
    fn fmt<W: fmt::Write>(&self, f: &mut fmt::Formatter<W>) -> fmt::Result {
        write!(f, "{}: {}", self.line, self.problem)
    }
}

impl Error for Fault<'_> {}

impl fmt::Display for Problem<'_> {
    fn fmt<W: fmt::Write>(&self, f: &mut fmt::Formatter<W>) -> fmt::Result {
        match *self {
            Problem::NotText => write!(f, "the line is not UTF-8; expected text"),
            Problem::NoSetting(word) => write!(
                f,
                "{} is no line of a sheet; expected labels, memory, stack, log, cell or program",
                Quoted(word)
            ),
            Problem::NoOperation(word) => write!(
                f,
                "{} is no operation; expected push, pop, noop, add, sub, less, load, store, jump, \
                bnz, call, return, output, halt, a name with a colon, or calls",
                Quoted(word)
            ),
            Problem::NoCall(word) => write!(
                f,
                "{} is no call; expected enter, start, go, look or command",
                Quoted(word)
            ),
            Problem::Missing(due) => write!(f, "the line ends too soon; expected {due}"),
            Problem::Extra(word) => write!(
                f,
                "{} is one word too many; expected the end of the line",
                Quoted(word)
            ),
            Problem::NoKind(word) => write!(
                f,
                "{} is no kind of label; expected {}",
                Quoted(word),
                Due::Kind
            ),
            Problem::NoNumber(word, due) => {
                write!(f, "{} is no number; expected {due}", Quoted(word))
            }
            Problem::OutOfRange(word, due) => {
                write!(f, "{} is out of range; expected {due}", Quoted(word))
            }
            Problem::NoLabel(word) => write!(
                f,
                "{} has no label; expected {}",
                Quoted(word),
                Due::Labelled
            ),
            Problem::WrongLabel(word, kind) => write!(
                f,
                "{} is no label of this kind; expected {kind}",
                Quoted(word)
            ),
            Problem::NoName(word) => write!(
                f,
                "{} is no name; expected a lower-case letter and behind it letters, digits and _",
                Quoted(word)
            ),
            Problem::UnknownName(word) => write!(
                f,
                "{} names no place; expected a name that the program gives",
                Quoted(word)
            ),
            Problem::NameTwice(word) => write!(
                f,
                "{} is given twice; expected another name",
                Quoted(word)
            ),
            Problem::NamesNothing(word) => write!(
                f,
                "{} names no operation; expected an operation behind it",
                Quoted(word)
            ),
            Problem::CellOutside { cell, memory } => write!(
                f,
                "cell {cell} is outside the memory of {memory}; expected a cell below {memory}"
            ),
            Problem::CellTwice(cell) => write!(
                f,
                "cell {cell} is given twice; expected one line for a cell"
            ),
            Problem::HeaderTwice(header) => { write!(f, "a second line {header}; expected one") }
            Problem::NoHeader(header) => write!(
                f,
                "there is no line {header}; expected labels, memory and program"
            ),
            Problem::TooLong => write!(
                f,
                "the program is too long; expected at most {} operations",
                i32::MAX
            ),
            Problem::Memory => write!(f, "out of memory; expected a smaller sheet"),
        }
    }
}

impl fmt::Display for Due {
    fn fmt<W: fmt::Write>(&self, f: &mut fmt::Formatter<W>) -> fmt::Result {
        match *self {
            Due::Kind => write!(f, "levels, growers, or two of them for a pair"),
            Due::Number(least, most) => write!(f, "a number from {least} to {most}"),
            Due::Value => write!(
                f,
                "a number from {} to {} or the name of a place",
                i32::MIN,
                i32::MAX
            ),
            Due::Labelled => write!(
                f,
                "a number from {} to {} or the name of a place, then @ and a label",
                i32::MIN,
                i32::MAX
            ),
            Due::Label(kind) => write!(f, "{kind}"),
        }
    }
}

impl fmt::Display for Header {
    fn fmt<W: fmt::Write>(&self, f: &mut fmt::Formatter<W>) -> fmt::Result {
        f.write_str(match *self {
            Header::Labels => "labels",
            Header::Memory => "memory",
            Header::Stack => "stack",
            Header::Log => "log",
            Header::Program => "program",
            Header::Calls => "calls",
        })
    }
}

// A word in quotes, and of a long one the first characters.
#[derive(Clone, Copy)]
struct Quoted<'a>(&'a str);

const SHOWN: usize = 40;

impl fmt::Display for Quoted<'_> {
    fn fmt<W: fmt::Write>(&self, f: &mut fmt::Formatter<W>) -> fmt::Result {
        match self.0.char_indices().nth(SHOWN) {
            None => write!(f, "{:?}", self.0),
            Some((end, _)) => write!(f, "{:?}...", &self.0[..end]),
        }
    }
}

impl<T: Drop> From<AllocFailed<T>> for Problem<'_> {
    fn from(_e: AllocFailed<T>) -> Self {
        Problem::Memory
    }
}

impl From<AllocError> for Problem<'_> {
    fn from(_e: AllocError) -> Self {
        Problem::Memory
    }
}

impl From<AllocError> for Fault<'_> {
    fn from(_e: AllocError) -> Self {
        Problem::Memory.nowhere()
    }
}

impl<T: Drop> From<AllocFailed<T>> for Fault<'_> {
    fn from(_e: AllocFailed<T>) -> Self {
        Problem::Memory.nowhere()
    }
}
