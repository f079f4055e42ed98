// Commands of the log with whose readings they can carry.
ghost use Rattle.std.specs.Prelude.{Some};
ghost use Rattle.readings.specs.Logged.{logged_text};

use crate::Readings;
use machine::Labelled;
use std::fmt;

/// A command in the log, at its place, shown with whose readings it can carry, as
/// `2 65@0003: growers 0 1`.
#[derive(Clone, Copy, Debug, PartialEq, Eq)]
pub struct Logged<L> {
    pub place: usize,
    pub command: Labelled<L>,
}

impl<L: Readings> fmt::Display for Logged<L> {
    ghost output = { λ x. Some (logged_text L.Label.text L.words x) };

    fn fmt<W: fmt::Write>(&self, f: &mut fmt::Formatter<W>) -> fmt::Result {
        let Logged { place, command } = *self;
        let Labelled { value, label } = command;
        write!(f, "{place} {value}@{label}: {}", label.words())
    }
}
