// Pairs of labels as labels, ordered and joined part by part, the left one's text first.
ghost use Rattle.std.specs.Prelude.{Some};
ghost use Rattle.labels.specs.Pair.{pairs, pair_text};
ghost use Rattle.labels.specs.PrefixFree.{pair_prefix_free};
ghost use Rattle.std.proofs.Common.{rules};

use crate::Label;
use std::fmt;

/// Labels of two kinds, compared and joined part by part.
#[derive(Clone, Copy, Debug, PartialEq, Eq, Hash)]
pub struct Pair<A, B> {
    pub left: A,
    pub right: B,
}

impl<A: Label, B: Label> Label for Pair<A, B> {
    ghost kind = { pairs A.Label.kind B.Label.kind };

    ghost text = { pair_text A.Label.text B.Label.text };

    ghost lawful = { Prim.search rules };

    ghost unambiguous = { pair_prefix_free A.Label.text B.Label.text
        A.Label.unambiguous B.Label.unambiguous };

    ghost shown = { Prim.search rules };

    fn flows_to(self, other: Pair<A, B>) -> bool {
        self.left.flows_to(other.left) && self.right.flows_to(other.right)
    }

    fn bottom() -> Pair<A, B> {
        Pair {
            left: A::bottom(),
            right: B::bottom(),
        }
    }

    fn join(self, other: Pair<A, B>) -> Pair<A, B> {
        Pair {
            left: self.left.join(other.left),
            right: self.right.join(other.right),
        }
    }

    fn read(bytes: &[u8]) -> Option<(Pair<A, B>, &[u8])> {
        let (left, rest) = A::read(bytes)?;
        let (right, rest) = B::read(rest)?;
        Some((Pair { left, right }, rest))
    }
}

impl<A: Label, B: Label> fmt::Display for Pair<A, B> {
    ghost output = { λ x. Some (pair_text A.Label.text B.Label.text x) };

    fn fmt<W: fmt::Write>(&self, f: &mut fmt::Formatter<W>) -> fmt::Result {
        self.left.fmt(f)?;
        self.right.fmt(f)
    }
}
