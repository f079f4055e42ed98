// Kinds of label, which say who may know a number: an order, a least label, a join and a text.
#![tactic(auto)]

ghost use Rattle.std.specs.Prelude.{◌≡◌, ◌↔◌, ℕ, IsTrue, List};
ghost use Rattle.labels.specs.Kind.{Kind, Lawful};
ghost use Rattle.labels.specs.Text.{PrefixFree, Reads, Shows};

use std::fmt;

mod growers;
mod level;
mod pair;

pub use growers::Growers;
pub use level::{Level, NotALevel};
pub use pair::Pair;

/// A kind of label. What has a label may flow to every label at or above it.
pub trait Label: Copy + fmt::Display {
    /// The order as a test, the least label and the join.
    ghost kind: { Kind Self };

    /// The text of a label, as bytes.
    ghost text: { Self → List ℕ };

    /// Whether `self` is at or below `other`.
    fn flows_to(self, other: Self) -> bool
        ensures { result ≡ kind.below self other };

    /// The least label: everybody may know.
    fn bottom() -> Self
        ensures { result ≡ kind.bottom };

    /// The least label at or above both.
    fn join(self, other: Self) -> Self
        ensures { result ≡ kind.join self other };

    /// The label with whose text the bytes begin, and the bytes behind it. None if they begin with
    /// no label's text.
    fn read(bytes: &[u8]) -> Option<(Self, &[u8])>
        ensures { Reads text bytes.now result };

    /// The laws of the order, the least label and the join.
    ghost lawful: { Lawful kind };

    /// No label's text begins another's.
    ghost unambiguous: { PrefixFree text };

    /// `{}` shows a label by its text.
    ghost shown: { Shows text Self.output };
}

/// Whether two labels of any kind are the same, by the order both ways. A derived `==` would ask
/// every kind for an equality of its own, and for a law that it is identity.
pub fn same<L: Label>(a: L, b: L) -> bool
    ensures { IsTrue result ↔ (a ≡ b) }
{
    a.flows_to(b) && b.flows_to(a)
}
