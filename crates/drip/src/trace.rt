// The trace of a run: each step of each go, on a line of its own, as it is done.
use crate::operations::Spelled;
use crate::stations::{print_commands, print_state};
use crate::table::{Column, Row, Side};
use crate::{Console, Failure};
use labels::Label;
use machine::{Call, End, Entry, Operation, State, Stop};
use policies::{AnyPolicy, PolicyName};
use sites::{Answered, Rehearsal, Reply, Site};
use std::alloc::{AllocError, Global};
use std::fmt;

// The lines of steps: where they are made, and how wide their columns are.
#[derive(Drop)]
struct Steps {
    heap: Global,
    columns: Vec<Column>,
}

// A step that is about to be done: its place, its operation, and what the operation writes to.
#[derive(Clone, Copy)]
struct Ahead<L> {
    place: usize,
    operation: Operation<L>,
    target: Target,
}

#[derive(Clone, Copy)]
enum Target {
    Nothing,
    Cell(usize),
    // the command at this place in the log
    Command(usize),
}

// The top of a stack, shown as `5@0001`, as `frame` with the place that it returns to, or as `-` if
// there is none.
#[derive(Clone, Copy)]
struct Top<L>(Option<Entry<L>>);

// What a stop means.
#[derive(Clone, Copy)]
struct Meaning(Stop);

/// Makes the calls on a station and prints each with its reply, before that of a go its steps, and
/// at the end what a run prints. The steps are rehearsed, under a policy of the same name.
pub fn print_trace<L: Label>(
    site: Site<AnyPolicy<L>, L>,
    policy: PolicyName,
    calls: &[Call<L>],
    console: &mut Console<'_>,
) -> Result<(), Failure> {
    let steps = Steps::of(console.heap(), site.program())?;
    let mut site = site;
    for call in calls {
        if let Call::Go { fuel } = *call {
            if let Some(rehearsal) = site.rehearse(console.heap())? {
                steps.print_go(rehearsal, policy, fuel, console)?;
            }
        }
        let (after, reply) = site.call(*call);
        site = after;
        console.line(Answered { call: *call, reply })?;
        if let Reply::Gone {
            state: State::Shut { stop, .. },
            ..
        } = reply
        {
            console.line(format_args!("  {}: {}", u8::from(stop), Meaning(stop)))?;
        }
    }
    print_commands(&site, console)?;
    print_state(&site, console)?;
    Ok(())
}

impl Steps {
    // The columns have room for every operation of the program and every
    // number with its label, so they are known before the steps.
    fn of<L: Label>(heap: Global, program: &[Operation<L>]) -> Result<Steps, AllocError> {
        let mut operation = 0;
        for it in program {
            operation = operation.max(format!(in heap; "{}", Spelled(*it))?.len());
        }
        let lowest = L::bottom();
        let counter = format!(in heap; "pc {lowest}")?.len();
        let top = format!(in heap; "top {}@{lowest}", i32::MIN)?.len();
        let columns = vec![in heap;
            column(Side::Right, 6),
            column(Side::Right, 4),
            column(Side::Left, operation),
            column(Side::Left, counter),
            column(Side::Left, top),
            column(Side::Left, 0),
        ]?;
        Ok(Steps { heap, columns })
    }

    // Prints the steps that a go of so much fuel takes, and the operation that it is stopped at, if
    // it is.
    fn print_go<L: Label>(
        &self,
        rehearsal: Rehearsal<L>,
        policy: PolicyName,
        fuel: u32,
        console: &mut Console<'_>,
    ) -> Result<(), Failure> {
        let mut policy = AnyPolicy::<L>::named(policy);
        let mut rehearsal = rehearsal;
        for done in 0..=fuel {
            let Some(ahead) = Ahead::of(&rehearsal) else {
                break;
            };
            match rehearsal.advance(&mut policy, fuel - done) {
                Ok(_) => self.print_step(done, ahead, &rehearsal, console)?,
                Err(End::Finished | End::OutOfFuel) => break,
                Err(End::Stopped(stop)) => {
                    self.print_stop(stop, ahead, &rehearsal, console)?;
                    break;
                }
            }
        }
        Ok(())
    }

    // Prints a step that is done, after so many others.
    fn print_step<L: Label>(
        &self,
        before: u32,
        ahead: Ahead<L>,
        rehearsal: &Rehearsal<L>,
        console: &mut Console<'_>,
    ) -> Result<(), Failure> {
        let number = u64::from(before) + 1;
        let written = ahead.target.written(self.heap, rehearsal)?;
        self.print_row(
            format!(in self.heap; "{number}")?,
            ahead,
            rehearsal,
            written,
            console,
        )
    }

    // Prints the operation that was stopped.
    fn print_stop<L: Label>(
        &self,
        stop: Stop,
        ahead: Ahead<L>,
        rehearsal: &Rehearsal<L>,
        console: &mut Console<'_>,
    ) -> Result<(), Failure> {
        let stopped = format!(in self.heap; "stopped with {}", u8::from(stop))?;
        self.print_row(String::new(self.heap), ahead, rehearsal, stopped, console)
    }

    // Prints the row of a step: its number, how things stand, and a remark.
    fn print_row<L: Label>(
        &self,
        number: String,
        ahead: Ahead<L>,
        rehearsal: &Rehearsal<L>,
        remark: String,
        console: &mut Console<'_>,
    ) -> Result<(), Failure> {
        let heap = self.heap;
        let cells = vec![in heap;
            number,
            format!(in heap; "{}", ahead.place)?,
            format!(in heap; "{}", Spelled(ahead.operation))?,
            format!(in heap; "pc {}", rehearsal.registers().pc_label)?,
            format!(in heap; "top {}", Top(top_of(rehearsal)))?,
            remark,
        ]?;
        console.line(Row {
            columns: self.columns.as_slice(),
            cells: cells.as_slice(),
        })?;
        Ok(())
    }
}

// The top of the stack, if it is not empty.
fn top_of<L: Label>(rehearsal: &Rehearsal<L>) -> Option<Entry<L>> {
    let below = rehearsal.registers().depth.checked_sub(1)?;
    rehearsal.parts().stack.get(below).copied()
}

// A column with room for so much.
fn column(side: Side, width: usize) -> Column {
    Column { side, width }
}

impl<L: Label> Ahead<L> {
    // The step that comes next, if its place is in the program.
    fn of(rehearsal: &Rehearsal<L>) -> Option<Ahead<L>> {
        let registers = rehearsal.registers();
        let place = usize::try_from(registers.pc).ok()?;
        let operation = *rehearsal.parts().program.get(place)?;
        let target = match operation {
            Operation::Store => Target::stored(top_of(rehearsal)),
            Operation::Output => Target::Command(registers.window.count()),
            _ => Target::Nothing,
        };
        Some(Ahead {
            place,
            operation,
            target,
        })
    }
}

impl Target {
    // The cell that a store writes to: its address is on top of the stack.
    fn stored<L: Label>(top: Option<Entry<L>>) -> Target {
        match top {
            Some(Entry::Number(address)) => {
                usize::try_from(address.value).map_or(Target::Nothing, Target::Cell)
            }
            _ => Target::Nothing,
        }
    }

    // What stands there now, as `cell 2 = 65@0003`.
    fn written<L: Label>(
        self,
        heap: Global,
        rehearsal: &Rehearsal<L>,
    ) -> Result<String, AllocError> {
        let parts = rehearsal.parts();
        let (name, place, number) = match self {
            Target::Nothing => return Ok(String::new(heap)),
            Target::Cell(cell) => ("cell", cell, parts.memory.get(cell)),
            Target::Command(place) => ("command", place, parts.log.get(place)),
        };
        match number {
            Some(number) => format!(in heap; "{name} {place} = {number}"),
            None => Ok(String::new(heap)),
        }
    }
}

impl<L: Label> fmt::Display for Top<L> {
    fn fmt<W: fmt::Write>(&self, f: &mut fmt::Formatter<W>) -> fmt::Result {
        match self.0 {
            None => write!(f, "-"),
            Some(Entry::Number(number)) => write!(f, "{number}"),
            Some(Entry::Frame(frame)) => write!(f, "frame {}", frame.place),
        }
    }
}

impl fmt::Display for Meaning {
    fn fmt<W: fmt::Write>(&self, f: &mut fmt::Formatter<W>) -> fmt::Result {
        f.write_str(match self.0 {
            Stop::OutsideProgram => "the place is outside the program",
            Stop::TooFewNumbers => "the operation finds too few numbers above the nearest frame",
            Stop::StackFull => "the stack is full",
            Stop::OutsideMemory => "there is no cell of this address",
            Stop::Forbidden => "the policy forbids this operation with these labels",
            Stop::NoFrame => "a return finds no frame",
            Stop::LogFull => "the log is full",
            Stop::HaltAboveBottom =>
                "a halt where the program counter is labelled above the lowest label",
        })
    }
}
