// Whose readings a number can carry, by its label: in words, and source by source.
#![tactic(auto)]

ghost use Rattle.std.specs.Prelude.{◌≡◌, ℕ, Bool, List, Some, Option};
ghost use Rattle.readings.specs.Readings.{admitted, Counts};

use labels::Label;
use std::fmt;

mod growers;
mod level;
mod logged;
mod pair;

pub use growers::{GrowersNamed, OneGrower};
pub use level::{LevelAndBelow, OneLevel};
pub use logged::Logged;
pub use pair::{BothParts, OnePart};

/// A kind of label whose labels say whose readings a number can carry. The sources of readings are
/// numbered from 0.
pub trait Readings: Label {
    /// What a label admits, in words.
    type Words: Copy + fmt::Display;

    /// A source, in words.
    type Source: Copy + fmt::Display;

    /// How many sources there are.
    ghost sources: { ℕ };

    /// The label of the readings of the source with a number, if there is one.
    ghost source_label: { ℕ → Option Self };

    /// Whether a source occurs in a label itself, and not only below it: of the levels only the
    /// label's own does.
    ghost names: { Self → ℕ → Bool };

    /// The words for what a label admits.
    ghost words: { Self → List ℕ };

    /// The words for a source.
    ghost source_words: { ℕ → List ℕ };

    /// How many sources there are, as far as a `usize` counts.
    fn sources() -> usize
        ensures { result ≡ sources };

    /// Whether a number with this label can carry readings of the source: the source's label is at
    /// or below this one. Never, where there is no such source.
    fn admits(self, source: usize) -> bool
        ensures { result ≡ admitted Self.kind (source_label source) self };

    /// Whether the source occurs in the label itself.
    fn names(self, source: usize) -> bool
        ensures { result ≡ names self source };

    /// What the label admits, to be shown in words.
    fn words(self) -> Self::Words
        ensures { Self.Words.output result ≡ Some (words self) };

    /// The source with the number, to be shown in words, whether there is one or not.
    fn source(number: usize) -> Self::Source
        ensures { Self.Source.output result ≡ Some (source_words number) };

    /// The sources that have a label are those below the count.
    ghost counted: { Counts sources source_label };
}
