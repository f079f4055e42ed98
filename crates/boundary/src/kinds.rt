// Kinds of label by number: here, and nowhere else in the crate, one is picked and becomes a type.
ghost use Rattle.std.specs.Prelude.{◌≡◌, Result as ResultD};
ghost use Rattle.boundary.specs.Decoding.{Decodes};
ghost use Rattle.boundary.specs.Kinds.{OfKind, OfLabels, OfName, OfPairs, OfPairsFrom, kind_number};
ghost use Rattle.boundary.specs.declared.faults.Fault.{Fault as FaultD};

use crate::codes::{Coded, Half};
use crate::faults::Fault;
use labels::{Growers, Level, Pair};
use std::marker::PhantomData;

/// A kind of label: a simple one, or the pairs of two.
#[derive(Clone, Copy)]
pub enum KindCode {
    One(KindName),
    Pair(KindName, KindName),
}

/// A simple kind, whose labels are no pairs.
#[derive(Clone, Copy)]
pub enum KindName {
    Levels,
    Growers,
}

/// What can be done with labels of every kind, and what it then promises of its result.
pub trait Task {
    /// What it results in where nothing is at fault.
    type Output;

    ghost promises: { Self → ResultD Self.Output FaultD → OfLabels };

    /// Does it with labels of the kind that was picked.
    fn perform<L: Coded>(self) -> Result<Self::Output, Fault>
        ensures { promises self result L L.Coded.code L.Label.kind };
}

// What can be done with labels of every simple kind, and what it then promises of its result.
trait SimpleTask {
    type Output;

    ghost promises: { Self → ResultD Self.Output FaultD → OfLabels };

    fn perform<L: Half>(self) -> Result<Self::Output, Fault>
        ensures { promises self result L L.Coded.code L.Label.kind };
}

impl KindCode {
    /// The kind with this number, if there is one.
    pub fn numbered(number: u32) -> Option<KindCode>
        ensures { Decodes result (λ kind. number ≡ kind_number kind) }
    {
        match number {
            0 => Some(KindCode::One(KindName::Levels)),
            1 => Some(KindCode::One(KindName::Growers)),
            2 => Some(KindCode::Pair(KindName::Levels, KindName::Levels)),
            3 => Some(KindCode::Pair(KindName::Levels, KindName::Growers)),
            4 => Some(KindCode::Pair(KindName::Growers, KindName::Levels)),
            5 => Some(KindCode::Pair(KindName::Growers, KindName::Growers)),
            _ => None,
        }
    }

    /// Performs a task with labels of this kind.
    pub fn perform<T: Task>(self, task: T) -> Result<T::Output, Fault>
        ensures { OfKind self (T.promises task result) }
    {
        match self {
            KindCode::One(name) => name.perform(Alone { task }),
            KindCode::Pair(left, right) => left.perform(OnPairs { right, task }),
        }
    }
}

impl KindName {
    // Performs a task with labels of this simple kind. A new kind is an arm here, and its pairs come
    // with it.
    fn perform<T: SimpleTask>(self, task: T) -> Result<T::Output, Fault>
        ensures { OfName self (T.promises task result) }
    {
        match self {
            KindName::Levels => task.perform::<Level>(),
            KindName::Growers => task.perform::<Growers>(),
        }
    }
}

// A task with labels of a simple kind.
struct Alone<T> {
    task: T,
}

impl<T: Task> SimpleTask for Alone<T> {
    type Output = T::Output;

    ghost promises = { λ alone result. T.promises alone.task result };

    fn perform<L: Half>(self) -> Result<T::Output, Fault> {
        let Alone { task } = self;
        task.perform::<L>()
    }
}

// A task on pairs: performed with the left kind, it picks the right one.
struct OnPairs<T> {
    right: KindName,
    task: T,
}

impl<T: Task> SimpleTask for OnPairs<T> {
    type Output = T::Output;

    ghost promises = { λ pairs result. OfPairs pairs.right (T.promises pairs.task result) };

    fn perform<A: Half>(self) -> Result<T::Output, Fault> {
        let OnPairs { right, task } = self;
        let left = PhantomData;
        right.perform(OnPairsFrom::<A, T> { left, task })
    }
}

// A task on pairs whose left kind is A: performed with the right one, it does the task on the pairs.
struct OnPairsFrom<A, T> {
    left: PhantomData<A>,
    task: T,
}

impl<A: Half, T: Task> SimpleTask for OnPairsFrom<A, T> {
    type Output = T::Output;

    ghost promises = { λ pairs result.
        OfPairsFrom A A.Coded.code A.Label.kind (T.promises pairs.task result) };

    fn perform<B: Half>(self) -> Result<T::Output, Fault> {
        let OnPairsFrom { left: _, task } = self;
        task.perform::<Pair<A, B>>()
    }
}
