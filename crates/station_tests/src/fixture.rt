// What the tests share: the four parts of a station, a go with what it leaves, and a policy that is true to no table.
ghost use Rattle.rules.specs.Tables.{Obeys};

use labels::Level::L0;
use labels::{Label, Level};
use machine::{Entry, Labelled, Operation, Refusal, Sizes};
use rules::{Direct, Policy, Request, Verdict};
use station::{Gone, Idle, Refused, Running, Station};
use std::alloc::{AllocError, Global};
use std::fmt::Debug;
use std::process::Abort;
use std::test::Fail;

// The level, labelled number, operation, entry and frame that tables of levels are written with. Macros,
// since a table is a constant, and a constant calls no function.
macro_rules! labelled {
    ($number:literal @ $label:ident) => {
        machine::Labelled {
            value: $number,
            label: $label,
        }
    };
}

macro_rules! push {
    ($number:literal @ $label:ident) => {
        machine::Operation::Push(labelled!($number @ $label))
    };
}

macro_rules! call {
    ($count:literal, $due:literal) => {
        machine::Operation::Call {
            count: $count,
            due: $due,
        }
    };
}

macro_rules! number {
    ($number:literal @ $label:ident) => {
        machine::Entry::Number(labelled!($number @ $label))
    };
}

macro_rules! frame {
    (($place:literal, $due:literal) @ $label:ident) => {
        machine::Entry::Frame(machine::Frame {
            place: $place,
            due: $due,
            label: $label,
        })
    };
}

pub(crate) use call;
pub(crate) use frame;
pub(crate) use labelled;
pub(crate) use number;
pub(crate) use push;

// The four parts of a station, which are lent to it at each call.
#[derive(Drop)]
pub struct Parts<L> {
    pub program: Vec<Operation<L>>,
    pub memory: Vec<Labelled<L>>,
    pub stack: Vec<Entry<L>>,
    pub log: Vec<Labelled<L>>,
}

impl<L: Label> Parts<L> {
    // Parts of these lengths, with noops and 0@bottom.
    pub fn blank(heap: Global, sizes: Sizes) -> Result<Parts<L>, AllocError> {
        let zero = Labelled {
            value: 0,
            label: L::bottom(),
        };
        let mut parts = Parts {
            program: Vec::new(heap),
            memory: Vec::new(heap),
            stack: Vec::new(heap),
            log: Vec::new(heap),
        };
        parts.program.resize(sizes.program, Operation::Noop)?;
        parts.memory.resize(sizes.memory, zero)?;
        parts.stack.resize(sizes.stack, Entry::Number(zero))?;
        parts.log.resize(sizes.log, zero)?;
        Ok(parts)
    }

    // A program and a memory, with a stack for 64 entries and a log for 64 commands.
    pub fn of(
        heap: Global,
        program: &[Operation<L>],
        memory: &[Labelled<L>],
    ) -> Result<Parts<L>, AllocError> {
        let sizes = Sizes {
            program: 0,
            memory: 0,
            stack: 64,
            log: 64,
        };
        let mut parts = Parts::blank(heap, sizes)?;
        parts.program.extend_from_slice(program)?;
        parts.memory.extend_from_slice(memory)?;
        Ok(parts)
    }

    // A station made of the parts.
    pub fn make(&self) -> Result<Idle<L>, Refusal> {
        Idle::make(
            self.program.as_slice(),
            self.memory.as_slice(),
            self.stack.as_slice(),
            self.log.as_slice(),
        )
    }

    // A go of a station with the parts.
    pub fn go<P: Policy<L>>(
        &mut self,
        running: Running<L>,
        policy: &mut P,
        fuel: u32,
    ) -> Result<Gone<L>, Refused<L>> {
        running.go(
            self.program.as_slice(),
            self.memory.as_mut_slice(),
            self.stack.as_mut_slice(),
            self.log.as_mut_slice(),
            policy,
            fuel,
        )
    }
}

// The station after a go that left it running.
pub fn still_running<L: Drop>(gone: Gone<L>) -> Result<Running<L>, Fail> {
    match gone.station {
        Station::Running(running) => Ok(running),
        _ => Err(Fail::new("the station does not run")),
    }
}

// Compares what is with what should be. A function, since an assertion of its own for each comparison takes
// long to prove.
pub fn same<T: Debug + PartialEq + Drop>(
    rt: &impl Abort,
    name: &str,
    what: &str,
    is: T,
    should: T,
) {
    assert_eq!(rt; is, should, "{name}: {what}");
}

// How a go ends: the station is idle, or runs on from a place with a label, or was shut by the stop of a
// number at a place.
#[derive(Clone, Copy, Debug, PartialEq)]
pub enum End<L> {
    Idle,
    Running(i64, L),
    Shut(u8, i64),
}

// A go of a station just started, and what it leaves.
#[derive(Drop)]
pub struct Case<'a, L> {
    pub name: &'a str,
    pub program: &'a [Operation<L>],
    pub memory: &'a [Labelled<L>],
    pub fuel: u32,
    pub end: End<L>,
    pub steps: u32,
    // the memory after
    pub cells: &'a [Labelled<L>],
    // the entries in use, the top one last
    pub stack: &'a [Entry<L>],
    // the commands
    pub log: &'a [Labelled<L>],
}

const BLANK: [Labelled<Level>; 2] = [labelled!(0@L0), labelled!(0@L0)];

// A case that does nothing, from which others differ.
pub const NOTHING: Case<'static, Level> = Case {
    name: "nothing",
    program: &[],
    memory: &BLANK,
    fuel: 0,
    end: End::Idle,
    steps: 0,
    cells: &BLANK,
    stack: &[],
    log: &[],
};

impl<L: Label + Debug + PartialEq> Case<'_, L> {
    // Makes a station, starts it, lets it go and compares what is left.
    pub fn run<P: Policy<L>>(
        &self,
        rt: &(impl Abort + AllocGlobal),
        policy: &mut P,
    ) -> Result<Station<L>, Fail> {
        let mut parts = Parts::of(rt.alloc(), self.program, self.memory)?;
        let running = parts.make()?.start();
        let gone = parts.go(running, policy, self.fuel)?;
        self.compare(rt, &gone, &parts);
        Ok(gone.station)
    }

    // Compares what a go left with what this case leaves, whole.
    pub fn compare(&self, rt: &impl Abort, gone: &Gone<L>, parts: &Parts<L>) {
        let name = self.name;
        let end = match &gone.station {
            Station::Idle(_) => End::Idle,
            Station::Running(running) => {
                let registers = running.registers();
                same(rt, name, "depth", registers.depth, self.stack.len());
                End::Running(registers.pc, registers.pc_label)
            }
            Station::Shut(shut) => End::Shut(u8::from(shut.stop()), shut.place()),
        };
        same(rt, name, "end", end, self.end);
        same(rt, name, "steps", gone.steps, self.steps);
        let commands = gone.station.commands();
        same(rt, name, "count of commands", commands, self.log.len());
        same(rt, name, "memory", parts.memory.as_slice(), self.cells);
        let stack = parts.stack.as_slice().get(..self.stack.len());
        same(rt, name, "stack", stack, Some(self.stack));
        let log = parts.log.as_slice().get(..self.log.len());
        same(rt, name, "log", log, Some(self.log));
    }
}

// A policy that is true to no table: it answers as the rows do so many times, and then forbids everything. It
// counts its askings.
#[derive(Drop)]
pub struct Fickle {
    pub allowed: u32,
    pub asked: u32,
}

impl Policy<Level> for Fickle {
    ghost faithful = { λ p t. ⊥ };

    ghost asked = { λ p q r s. Unit {0} };

    fn rule(&mut self, request: Request<Level>) -> Option<Verdict<Level>>
        ensures obeys { Obeys (λ p t. ⊥) self.old request result self.new }
        ensures asked { Unit {0} }
    {
        self.asked = self.asked.saturating_add(1);
        if self.asked > self.allowed {
            return None;
        }
        Direct::new::<Level>().rule(request)
    }
}
