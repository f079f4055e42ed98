// What an observer at a level compares of two stations: operations and cells, enters and starts, and commands.
ghost use Rattle.std.specs.Prelude.{◌≡◌, ◌↔◌, ◌⊎◌, Bool, IsTrue, true};
ghost use Rattle.std.proofs.Common.{sym};
ghost use Rattle.machine.specs.Observer.{Alike, AlikeOperation};
ghost use Rattle.machine.proofs.Alikes.{alike_sym};
ghost use Rattle.compare.specs.Runs.{counts, inputs_of};
ghost use Rattle.compare.specs.Reports.{AlikeExchange};
ghost use Rattle.compare.specs.Tests.{without_number};
ghost use Rattle.compare.specs.Symmetry.{inputs_sym, operation_sym};

use crate::differences::Comparer;
use crate::exchanges::Exchange;
use labels::{Label, same};
use machine::{Call, Labelled, Operation};

/// Operations of a program. They are alike if they are the same, except that pushed numbers need only be alike.
#[derive(Clone, Copy)]
pub struct Operations<L> {
    pub level: L,
}

/// Cells of a memory.
#[derive(Clone, Copy)]
pub struct Cells<L> {
    pub level: L,
}

/// The calls of a list that count.
#[derive(Clone, Copy)]
pub struct Inputs<L> {
    pub level: L,
}

/// The commands at or below the level, which are alike only if they are the same.
#[derive(Clone, Copy)]
pub struct Commands<L> {
    pub level: L,
}

impl<L: Label> Comparer<Operation<L>> for Operations<L> {
    ghost has = { λ _ _. true };

    ghost alike = { λ c. AlikeOperation L.Label.kind c.level };

    ghost symmetric = { λ c. operation_sym L.Label.kind c.level };

    fn has(&self, _operation: &Operation<L>) -> bool
        ensures { result ≡ true }
    {
        true
    }

    fn alike(&self, first: &Operation<L>, second: &Operation<L>) -> bool
        ensures { IsTrue result ↔ AlikeOperation L.Label.kind self.now.level first.now second.now }
    {
        match (*first, *second) {
            (Operation::Push(number), Operation::Push(other)) => {
                are_alike(self.level, number, other)
            }
            _ => without_number(*first) == without_number(*second),
        }
    }
}

impl<L: Label> Comparer<Labelled<L>> for Cells<L> {
    ghost has = { λ _ _. true };

    ghost alike = { λ c. Alike L.Label.kind c.level };

    ghost symmetric = { λ c. alike_sym L.Label.kind c.level };

    fn has(&self, _number: &Labelled<L>) -> bool
        ensures { result ≡ true }
    {
        true
    }

    fn alike(&self, first: &Labelled<L>, second: &Labelled<L>) -> bool
        ensures { IsTrue result ↔ Alike L.Label.kind self.now.level first.now second.now }
    {
        are_alike(self.level, *first, *second)
    }
}

impl<L: Label> Comparer<Exchange<L>> for Inputs<L> {
    ghost has = { λ _. counts };

    ghost alike = { λ c. AlikeExchange L.Label.kind c.level };

    ghost symmetric = { λ c first second. inputs_sym L.Label.kind c.level (inputs_of first) (inputs_of second) };

    fn has(&self, exchange: &Exchange<L>) -> bool
        ensures { result ≡ counts exchange.now }
    {
        exchange.counts()
    }

    fn alike(&self, first: &Exchange<L>, second: &Exchange<L>) -> bool
        ensures { IsTrue result ↔ AlikeExchange L.Label.kind self.now.level first.now second.now }
    {
        match (first.call, second.call) {
            (Call::Start, Call::Start) => true,
            (
                Call::Enter { cell, number },
                Call::Enter {
                    cell: other_cell,
                    number: other,
                },
            ) => cell == other_cell && are_alike(self.level, number, other),
            // Calls that stand for no enter or start are alike.
            _ => !first.call.is_input() && !second.call.is_input(),
        }
    }
}

impl<L: Label> Comparer<Labelled<L>> for Commands<L> {
    ghost has = { λ c v. L.Label.kind.below v.label c.level };

    ghost alike = { λ _ v w. v ≡ w };

    ghost symmetric = { λ _ v w same. sym same };

    fn has(&self, command: &Labelled<L>) -> bool
        ensures { result ≡ L.Label.kind.below command.now.label self.now.level }
    {
        command.label.flows_to(self.level)
    }

    fn alike(&self, first: &Labelled<L>, second: &Labelled<L>) -> bool
        ensures { IsTrue result ↔ (first.now ≡ second.now) }
    {
        are_same(*first, *second)
    }
}

// Whether two labelled numbers are the same, or neither label is at or below the level.
fn are_alike<L: Label>(level: L, first: Labelled<L>, second: Labelled<L>) -> bool
    ensures { IsTrue result ↔ Alike L.Label.kind level first second }
{
    are_same(first, second) || !(first.label.flows_to(level) || second.label.flows_to(level))
}

/// Whether two labelled numbers are the same.
pub fn are_same<L: Label>(first: Labelled<L>, second: Labelled<L>) -> bool
    ensures { IsTrue result ↔ (first ≡ second) }
{
    first.value == second.value && same(first.label, second.label)
}

// The operation, without the number that a push holds. A label has no `==` of its own,
// which the operation's would ask for.
fn without_number<L: Label>(operation: Operation<L>) -> Operation<bool>
    ensures { result ≡ without_number operation }
{
    match operation {
        Operation::Push(_) => Operation::Push(Labelled {
            value: 0,
            label: false,
        }),
        Operation::Pop => Operation::Pop,
        Operation::Noop => Operation::Noop,
        Operation::Add => Operation::Add,
        Operation::Sub => Operation::Sub,
        Operation::Less => Operation::Less,
        Operation::Load => Operation::Load,
        Operation::Store => Operation::Store,
        Operation::Jump => Operation::Jump,
        Operation::Bnz(distance) => Operation::Bnz(distance),
        Operation::Call { count, due } => Operation::Call { count, due },
        Operation::Return => Operation::Return,
        Operation::Output => Operation::Output,
        Operation::Halt => Operation::Halt,
    }
}
