// Levels as labels, ordered by their numbers, joined to the larger, one digit each.
ghost use Rattle.std.specs.Prelude.{Some, ◌++◌, codes};
ghost use Rattle.std.specs.Fmt.{decimal};
ghost use Rattle.labels.specs.Level.{levels, level_text, LevelDigit};
ghost use Rattle.std.proofs.Common.{rules};

use crate::Label;
use std::error::Error;
use std::fmt;

/// A level from 0 to 7. There is none above 7.
#[derive(Clone, Copy, Debug, PartialEq, Eq, PartialOrd, Ord, Hash)]
pub enum Level {
    L0,
    L1,
    L2,
    L3,
    L4,
    L5,
    L6,
    L7,
}

impl Label for Level {
    ghost kind = { levels };

    ghost text = { level_text };

    ghost lawful = { Prim.search rules };

    ghost unambiguous = { Prim.search rules };

    ghost shown = { Prim.search rules };

    fn flows_to(self, other: Level) -> bool {
        self <= other
    }

    fn bottom() -> Level {
        Level::L0
    }

    fn join(self, other: Level) -> Level {
        self.max(other)
    }

    fn read(bytes: &[u8]) -> Option<(Level, &[u8])> {
        let (digit, rest) = bytes.split_first()?;
        let level = Level::try_from(*digit).ok()?;
        Some((level, rest))
    }
}

/// A byte that is no level's digit.
#[derive(Clone, Copy, Debug, PartialEq, Eq, Hash)]
pub struct NotALevel(pub u8);

impl TryFrom<u8> for Level {
    type Error = NotALevel;

    ghost try_from_gives = { LevelDigit };

    /// The level whose digit the byte is. Refuses every other byte.
    fn try_from(digit: u8) -> Result<Level, NotALevel> {
        match digit {
            b'0' => Ok(Level::L0),
            b'1' => Ok(Level::L1),
            b'2' => Ok(Level::L2),
            b'3' => Ok(Level::L3),
            b'4' => Ok(Level::L4),
            b'5' => Ok(Level::L5),
            b'6' => Ok(Level::L6),
            b'7' => Ok(Level::L7),
            _ => Err(NotALevel(digit)),
        }
    }
}

impl fmt::Display for Level {
    ghost output = { λ x. Some (level_text x) };

    fn fmt<W: fmt::Write>(&self, f: &mut fmt::Formatter<W>) -> fmt::Result {
        // The number of a level is its digit.
        f.write_char(char::from(b'0' + *self as u8))
    }
}

impl fmt::Display for NotALevel {
    ghost output = { λ e. Some
        (codes "byte " ++ (decimal e.0 ++ codes " is no digit of a level")) };

    fn fmt<W: fmt::Write>(&self, f: &mut fmt::Formatter<W>) -> fmt::Result {
        write!(f, "byte {} is no digit of a level", self.0)
    }
}

impl Error for NotALevel {}
