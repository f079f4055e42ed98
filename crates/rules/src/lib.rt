// Rule policies: which labels an operation gives its result and the program counter, if any.
#![tactic(auto)]

ghost use Rattle.std.specs.Prelude.{◌≡◌, ◌↔◌, IsTrue, Option};
ghost use Rattle.rules.specs.Tables.{Table, Obeys, is_forbidden};
ghost use Rattle.rules.specs.declared.Request.{Request};
ghost use Rattle.rules.specs.declared.Verdict.{Verdict};

use labels::{Label, same};

mod cached;
mod direct;
mod rows;
mod texts;

pub use cached::{Cached, Memory};
pub use direct::Direct;
pub use rows::{Letters, Row, RowTable};
pub use texts::NotAnOperation;

/// The operations that ask a policy.
#[derive(Clone, Copy, Debug, PartialEq, Eq, Hash)]
pub enum Opcode {
    Push,
    Pop,
    Noop,
    Add,
    Sub,
    Less,
    Load,
    Store,
    Jump,
    Bnz,
    Call,
    Return,
    Output,
}

/// What a policy is asked: an operation, the label of the program counter, and up to three labels
/// more, the unused ones bottom.
#[derive(Clone, Copy, Debug, PartialEq, Eq, Hash)]
pub struct Request<L> {
    pub op: Opcode,
    pub pc: L,
    pub a: L,
    pub b: L,
    pub c: L,
}

/// What a policy answers: the new label of the program counter and the label of the result.
#[derive(Clone, Copy, Debug, PartialEq, Eq, Hash)]
pub struct Verdict<L> {
    pub pc: L,
    pub result: L,
}

/// A policy, which says for each request which labels come out, or forbids it.
pub trait Policy<L: Label> {
    /// Whether what the policy holds makes it true to a table.
    ghost faithful: { Self → Table L → Type 0 };

    /// What asking does: the policy before, the request, the answer and the policy after.
    ghost asked: { Self → Request L → Option (Verdict L) → Self → Type 0 };

    // Each `impl` writes the clauses again: where a parameter's type has the trait's own parameter,
    // the check cannot give a method the clauses of its trait yet. Those of this crate are inlined
    // where they are asked, since the operation is known there.
    /// The verdict on a request. None forbids it.
    fn rule(&mut self, request: Request<L>) -> Option<Verdict<L>>
        ensures obeys { Obeys faithful self.old request result self.new }
        ensures asked { asked self.old request result self.new };
}

impl<L: Label> Request<L> {
    /// Whether two requests are the same, for every kind of label. The derived `==` asks for one
    /// whose labels have a `==`, and says nothing of identity.
    pub fn same_as(self, other: Request<L>) -> bool
        ensures { IsTrue result ↔ (self ≡ other) }
    {
        self.op == other.op
            && same(self.pc, other.pc)
            && same(self.a, other.a)
            && same(self.b, other.b)
            && same(self.c, other.c)
    }

    // Whether it asks to store where the labels of the address and the program counter may not flow
    // to the cell's.
    pub(crate) fn is_forbidden(self) -> bool
        ensures { result ≡ is_forbidden L.Label.kind self }
    {
        self.op == Opcode::Store && !self.a.join(self.pc).flows_to(self.c)
    }
}
