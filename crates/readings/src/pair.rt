// Whose readings pairs admit: the sources are those of both parts.
ghost use Rattle.std.specs.Prelude.{◌≡◌, Some};
ghost use Rattle.labels.specs.Pair.{pairs};
ghost use Rattle.readings.specs.Readings.{admitted};
ghost use Rattle.readings.specs.Pairs.{both_counts, part_label, part_admitted, part_names};
ghost use Rattle.readings.specs.Pairs.{both_words, both_output, one_part, part_output};
ghost use Rattle.readings.specs.Counted.{parts_counted};

use crate::Readings;
use labels::Pair;
use std::fmt;

/// The sources are those of the left kind, and then those of the right one. A pair admits those
/// that its parts do.
impl<A: Readings, B: Readings> Readings for Pair<A, B> {
    type Words = BothParts<A::Words, B::Words>;

    type Source = OnePart<A::Source, B::Source>;

    ghost sources = { both_counts A.sources B.sources };

    ghost source_label = { part_label A.kind B.kind A.sources A.source_label B.source_label };

    ghost names = { part_names A.sources A.names B.names };

    ghost words = { both_words A.words B.words };

    ghost source_words = { one_part A.sources A.source_words B.source_words };

    ghost counted = { parts_counted A.kind B.kind
        A.sources B.sources A.source_label B.source_label A.counted B.counted };

    // The sum saturates, since nothing bounds how deep pairs are nested.
    fn sources() -> usize {
        A::sources().saturating_add(B::sources())
    }

    fn admits(self, source: usize) -> bool
        ensures admitted { result ≡ admitted (pairs A.kind B.kind)
            (part_label A.kind B.kind A.sources A.source_label B.source_label source) self }
        ensures by_parts { result ≡ part_admitted A.kind B.kind
            A.sources A.source_label B.source_label self source }
    {
        match source.checked_sub(A::sources()) {
            None => self.left.admits(source),
            Some(source) => self.right.admits(source),
        }
    }

    fn names(self, source: usize) -> bool {
        match source.checked_sub(A::sources()) {
            None => self.left.names(source),
            Some(source) => self.right.names(source),
        }
    }

    fn words(self) -> BothParts<A::Words, B::Words> {
        BothParts {
            left: self.left.words(),
            right: self.right.words(),
        }
    }

    fn source(number: usize) -> OnePart<A::Source, B::Source> {
        match number.checked_sub(A::sources()) {
            None => OnePart::Left(A::source(number)),
            Some(number) => OnePart::Right(B::source(number)),
        }
    }
}

/// Both parts in words, shown as `level 3 and below, growers 0 2`.
#[derive(Clone, Copy, Debug)]
pub struct BothParts<A, B> {
    pub left: A,
    pub right: B,
}

impl<A: fmt::Display, B: fmt::Display> fmt::Display for BothParts<A, B> {
    ghost output = { both_output A.output B.output };

    fn fmt<W: fmt::Write>(&self, f: &mut fmt::Formatter<W>) -> fmt::Result {
        write!(f, "{}, {}", self.left, self.right)
    }
}

/// A source of one part, shown as `left level 3` or `right grower 0`.
#[derive(Clone, Copy, Debug)]
pub enum OnePart<A, B> {
    Left(A),
    Right(B),
}

impl<A: fmt::Display, B: fmt::Display> fmt::Display for OnePart<A, B> {
    ghost output = { part_output A.output B.output };

    fn fmt<W: fmt::Write>(&self, f: &mut fmt::Formatter<W>) -> fmt::Result {
        match self {
            OnePart::Left(source) => write!(f, "left {source}"),
            OnePart::Right(source) => write!(f, "right {source}"),
        }
    }
}
