// Whose readings sets of growers admit: the sources are the growers.
ghost use Rattle.std.specs.Prelude.{◌≡◌, ◌↔◌, ◌<◌, IsTrue, Some};
ghost use Rattle.labels.specs.Growers.{grower_sets, In};
ghost use Rattle.readings.specs.Readings.{admitted};
ghost use Rattle.readings.specs.Growers.{grower_alone, grower_names};
ghost use Rattle.readings.specs.Growers.{grower_words, named_below, one_grower};
ghost use Rattle.readings.specs.Counted.{growers_counted};

use crate::Readings;
use labels::Growers;
use std::fmt;

// How many growers there are.
const GROWERS: usize = 16;

/// The sources are the sixteen growers. A set admits each grower in it.
impl Readings for Growers {
    type Words = GrowersNamed;

    type Source = OneGrower;

    ghost sources = { 16 };

    ghost source_label = { grower_alone };

    ghost names = { grower_names };

    ghost words = { grower_words };

    ghost source_words = { one_grower };

    ghost counted = { growers_counted };

    fn sources() -> usize {
        GROWERS
    }

    fn admits(self, source: usize) -> bool
        ensures admitted { result ≡ admitted grower_sets (grower_alone source) self }
        ensures member { IsTrue result ↔ (source < GROWERS) × In source self }
    {
        self.names(source)
    }

    fn names(self, source: usize) -> bool
        ensures names { result ≡ grower_names self source }
        ensures member { IsTrue result ↔ (source < GROWERS) × In source self }
    {
        source < GROWERS && (self.mask >> source) % 2 == 1
    }

    fn words(self) -> GrowersNamed {
        GrowersNamed(self)
    }

    fn source(number: usize) -> OneGrower {
        OneGrower(number)
    }
}

/// A set of growers in words, shown as `no grower`, `grower 1` or `growers 0 2`.
#[derive(Clone, Copy, Debug)]
pub struct GrowersNamed(pub Growers);

impl fmt::Display for GrowersNamed {
    ghost output = { λ x. Some (grower_words x.0) };

    fn fmt<W: fmt::Write>(&self, f: &mut fmt::Formatter<W>) -> fmt::Result {
        let each = Each(self.0);
        match self.0.mask.count_ones() {
            0 => write!(f, "no grower"),
            1 => write!(f, "grower{each}"),
            _ => write!(f, "growers{each}"),
        }
    }
}

// The numbers of the growers in a set, each behind a space.
#[derive(Clone, Copy)]
struct Each(Growers);

impl fmt::Display for Each {
    ghost output = { λ x. Some (named_below x.0 16) };

    fn fmt<W: fmt::Write>(&self, f: &mut fmt::Formatter<W>) -> fmt::Result {
        for grower in 0..GROWERS {
            if self.0.names(grower) {
                write!(f, " {grower}")?;
            }
        }
        Ok(())
    }
}

/// A grower by his number, shown as `grower 0`.
#[derive(Clone, Copy, Debug)]
pub struct OneGrower(pub usize);

impl fmt::Display for OneGrower {
    ghost output = { λ x. Some (one_grower x.0) };

    fn fmt<W: fmt::Write>(&self, f: &mut fmt::Formatter<W>) -> fmt::Result {
        write!(f, "grower {}", self.0)
    }
}
