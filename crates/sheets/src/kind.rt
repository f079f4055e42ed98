// Which labels a sheet has.
ghost use Rattle.sheets.specs.Kinds.{KindRead};

use std::error::Error;
use std::fmt;
use std::str::FromStr;

/// A kind of label that a sheet can have: a simple one, or the pairs of two. Displayed it is how
/// its labels are written.
#[derive(Clone, Copy, Debug, PartialEq, Eq)]
pub enum Kind {
    One(KindName),
    Pair(KindName, KindName),
}

/// A simple kind of label, which a word names.
#[derive(Clone, Copy, Debug, PartialEq, Eq)]
pub enum KindName {
    Levels,
    Growers,
}

/// The word names no kind of label.
#[derive(Clone, Copy, Debug, PartialEq, Eq)]
pub struct NotAKind;

impl FromStr for KindName {
    type Err = NotAKind;

    ghost from_str_gives = { KindRead };

    fn from_str(word: &str) -> Result<KindName, NotAKind> {
        match word {
            "levels" => Ok(KindName::Levels),
            "growers" => Ok(KindName::Growers),
            _ => Err(NotAKind),
        }
    }
}

// The text of a kind's labels, for whoever wrote another.
impl fmt::Display for Kind {
    fn fmt<W: fmt::Write>(&self, f: &mut fmt::Formatter<W>) -> fmt::Result {
        match *self {
            Kind::One(kind) => write!(f, "{kind}"),
            Kind::Pair(left, right) => write!(
                f,
                "a pair: {left}, and behind it without a space {right}"
            ),
        }
    }
}

impl fmt::Display for KindName {
    fn fmt<W: fmt::Write>(&self, f: &mut fmt::Formatter<W>) -> fmt::Result {
        match *self {
            KindName::Levels => write!(f, "a level, one digit from 0 to 7"),
            KindName::Growers => write!(f, "growers, four hexadecimal digits in lower case"),
        }
    }
}

impl fmt::Display for NotAKind {
    fn fmt<W: fmt::Write>(&self, f: &mut fmt::Formatter<W>) -> fmt::Result {
        f.write_str("no kind of label has this name")
    }
}

impl Error for NotAKind {}
