// Kinds of label: here, and nowhere else in the program, one is picked by its name and becomes a type.
use crate::{Console, Failure};
use labels::{Growers, Level, Pair};
use readings::Readings;
use sheets::{Kind, KindName};
use std::fmt;
use std::marker::PhantomData;

/// What can be done with labels of every kind.
pub trait Task {
    /// Does it with labels of the kind that was picked.
    fn perform<L: Readings>(self, console: &mut Console<'_>) -> Result<(), Failure>;
}

/// Performs a task with labels of this kind.
pub fn perform<T: Task>(kind: Kind, task: T, console: &mut Console<'_>) -> Result<(), Failure> {
    match kind {
        Kind::One(name) => with_kind(name, task, console),
        Kind::Pair(left, right) => with_kind(left, OnPairs { right, task }, console),
    }
}

// Performs a task with labels of a simple kind. A new kind is an arm here, and its pairs come with it.
fn with_kind<T: Task>(name: KindName, task: T, console: &mut Console<'_>) -> Result<(), Failure> {
    match name {
        KindName::Levels => task.perform::<Level>(console),
        KindName::Growers => task.perform::<Growers>(console),
    }
}

// A task on pairs: performed with the left kind, it picks the right one.
struct OnPairs<T> {
    right: KindName,
    task: T,
}

impl<T: Task> Task for OnPairs<T> {
    fn perform<A: Readings>(self, console: &mut Console<'_>) -> Result<(), Failure> {
        let OnPairs { right, task } = self;
        let left = PhantomData;
        with_kind(right, OnPairsFrom::<A, T> { left, task }, console)
    }
}

// A task on pairs whose left kind is A: performed with the right one, it does the task on the pairs.
struct OnPairsFrom<A, T> {
    left: PhantomData<A>,
    task: T,
}

impl<A: Readings, T: Task> Task for OnPairsFrom<A, T> {
    fn perform<B: Readings>(self, console: &mut Console<'_>) -> Result<(), Failure> {
        let OnPairsFrom { left: _, task } = self;
        task.perform::<Pair<A, B>>(console)
    }
}

/// A kind as it is named in a sheet.
#[derive(Clone, Copy)]
pub struct Named(pub Kind);

impl fmt::Display for Named {
    fn fmt<W: fmt::Write>(&self, f: &mut fmt::Formatter<W>) -> fmt::Result {
        match self.0 {
            Kind::One(kind) => f.write_str(name(kind)),
            Kind::Pair(left, right) => write!(f, "{} {}", name(left), name(right)),
        }
    }
}

fn name(kind: KindName) -> &'static str {
    match kind {
        KindName::Levels => "levels",
        KindName::Growers => "growers",
    }
}
