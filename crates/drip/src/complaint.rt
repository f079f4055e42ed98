// What is wrong with a file of questions, as it is told on standard error.
//
// It borrows the line or the error that it tells of, so it is told where it comes up, and is never
// returned as an error itself.
use sheets::Kind;
use std::{fmt, io};
use text::Fault;

/// What is wrong, and in which line of which file; line 0 is the file itself.
#[derive(Drop)]
pub struct Complaint<'a> {
    pub file: &'a str,
    pub line: u64,
    pub problem: Problem<'a>,
}

/// What can be wrong with a file of questions. Displayed it says what is wrong and what was
/// expected.
#[derive(Drop)]
pub enum Problem<'a> {
    /// The file cannot be opened.
    Unopened(&'a io::Error),
    /// The line cannot be read.
    Unread(&'a io::Error),
    /// The line is no question for labels of this kind.
    NoQuestion(Fault<'a>, Kind),
}

impl fmt::Display for Complaint<'_> {
    fn fmt<W: fmt::Write>(&self, f: &mut fmt::Formatter<W>) -> fmt::Result {
        let Complaint {
            file,
            line,
            problem,
        } = self;
        write!(f, "{file}:{line}: {problem}")
    }
}

impl fmt::Display for Problem<'_> {
    fn fmt<W: fmt::Write>(&self, f: &mut fmt::Formatter<W>) -> fmt::Result {
        match self {
            Problem::Unopened(e) => {
                write!(
                    f,
                    "cannot be opened: {e}; expected a file of questions, or - for standard input"
                )
            }
            Problem::Unread(e) => write!(f, "cannot be read: {e}; expected a line of text"),
            Problem::NoQuestion(Fault::Operation(word), _) => {
                write!(
                    f,
                    "{word:?} is no operation; expected push, pop, noop, add, sub, less, load, store, jump, \
                    bnz, call, return or output"
                )
            }
            Problem::NoQuestion(Fault::Label(word), kind) => {
                write!(f, "{word:?} is no label of this kind; expected {kind}")
            }
            Problem::NoQuestion(Fault::Extra(word), _) => {
                write!(
                    f,
                    "{word:?} is one word too many; expected an operation and at most four labels"
                )
            }
        }
    }
}
