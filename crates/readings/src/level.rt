// Whose readings levels admit: the sources are the levels.
ghost use Rattle.std.specs.Prelude.{◌≡◌, ◌↔◌, ◌≤◌, IsTrue, Some};
ghost use Rattle.labels.specs.Level.{levels, rank};
ghost use Rattle.readings.specs.Readings.{admitted};
ghost use Rattle.readings.specs.Levels.{level_at, level_names, level_words, one_level};
ghost use Rattle.readings.specs.Counted.{levels_counted};

use crate::Readings;
use labels::Level;
use std::fmt;

/// The sources are the eight levels. A level admits itself and every level below it.
impl Readings for Level {
    type Words = LevelAndBelow;

    type Source = OneLevel;

    ghost sources = { 8 };

    ghost source_label = { level_at };

    ghost names = { level_names };

    ghost words = { level_words };

    ghost source_words = { one_level };

    ghost counted = { levels_counted };

    fn sources() -> usize {
        8
    }

    fn admits(self, source: usize) -> bool
        ensures admitted { result ≡ admitted levels (level_at source) self }
        ensures at_or_below { IsTrue result ↔ source ≤ rank self }
    {
        source <= self as usize
    }

    fn names(self, source: usize) -> bool {
        self as usize == source
    }

    fn words(self) -> LevelAndBelow {
        LevelAndBelow(self)
    }

    fn source(number: usize) -> OneLevel {
        OneLevel(number)
    }
}

/// What a level admits, shown as `level 3 and below`.
#[derive(Clone, Copy, Debug)]
pub struct LevelAndBelow(pub Level);

impl fmt::Display for LevelAndBelow {
    ghost output = { λ x. Some (level_words x.0) };

    fn fmt<W: fmt::Write>(&self, f: &mut fmt::Formatter<W>) -> fmt::Result {
        write!(f, "level {} and below", self.0)
    }
}

/// A level by its number, shown as `level 3`.
#[derive(Clone, Copy, Debug)]
pub struct OneLevel(pub usize);

impl fmt::Display for OneLevel {
    ghost output = { λ x. Some (one_level x.0) };

    fn fmt<W: fmt::Write>(&self, f: &mut fmt::Formatter<W>) -> fmt::Result {
        write!(f, "level {}", self.0)
    }
}
