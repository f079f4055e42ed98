// The answer key of a run: whose readings can reach which command.
use crate::table::{Side, Table};
use crate::{Console, Failure};
use compare::Exchange;
use machine::{Call, Labelled, Operation};
use readings::Readings;
use std::alloc::{AllocError, Global};
use std::fmt;

/// What a run's labels stand on: the cells as the station was
/// made of them, the program, the calls and the commands.
#[derive(Clone, Copy)]
pub struct Key<'a, L> {
    pub cells: &'a [Labelled<L>],
    pub program: &'a [Operation<L>],
    pub exchanges: &'a [Exchange<L>],
    pub commands: &'a [Labelled<L>],
}

// The commands that the readings of a source can reach, shown as `grower 0: commands 1 2`.
#[derive(Clone, Copy)]
struct Reach<'a, L> {
    source: usize,
    commands: &'a [Labelled<L>],
}

// Their places, each behind a space.
#[derive(Clone, Copy)]
struct Places<'a, L>(Reach<'a, L>);

/// Prints a row for each command, and then a line for each source that occurs.
pub fn print_key<L: Readings>(key: Key<'_, L>, console: &mut Console<'_>) -> Result<(), Failure> {
    console.print(key.table(console.heap())?)?;
    console.line("")?;
    for source in 0..L::sources() {
        if key.names(source) {
            console.line(key.reach(source))?;
        }
    }
    Ok(())
}

impl<'a, L: Readings> Key<'a, L> {
    // A row for each command, with whose readings it can carry.
    fn table(&self, heap: Global) -> Result<Table, AllocError> {
        let sides = [Side::Right, Side::Right, Side::Left, Side::Left];
        let mut table = Table::new(heap, &sides)?;
        table.push(vec![in heap;
            String::from_str(heap, "place")?,
            String::from_str(heap, "number")?,
            String::from_str(heap, "label")?,
            String::from_str(heap, "whose readings it can carry")?,
        ]?)?;
        for (place, command) in self.commands.iter().enumerate() {
            let Labelled { value, label } = *command;
            table.push(vec![in heap;
                format!(in heap; "{place}")?,
                format!(in heap; "{value}")?,
                format!(in heap; "{label}")?,
                format!(in heap; "{}", label.words())?,
            ]?)?;
        }
        Ok(table)
    }

    // Whether a source occurs in a label of the sheet or of a command.
    fn names(&self, source: usize) -> bool {
        let mut cells = self.cells.iter().chain(self.commands.iter());
        let entered = |exchange: &Exchange<L>| match exchange.call {
            Call::Enter { number, .. } => number.label.names(source),
            _ => false,
        };
        let pushed = |operation: &Operation<L>| match *operation {
            Operation::Push(number) => number.label.names(source),
            _ => false,
        };
        cells.any(|number| number.label.names(source))
            || self.program.iter().any(pushed)
            || self.exchanges.iter().any(entered)
    }

    // The commands that the readings of a source can reach.
    fn reach(&self, source: usize) -> Reach<'a, L> {
        Reach {
            source,
            commands: self.commands,
        }
    }
}

impl<L: Readings> Reach<'_, L> {
    // How many they are.
    fn count(&self) -> usize {
        self.commands
            .iter()
            .filter(|command| command.label.admits(self.source))
            .count()
    }
}

impl<L: Readings> fmt::Display for Reach<'_, L> {
    fn fmt<W: fmt::Write>(&self, f: &mut fmt::Formatter<W>) -> fmt::Result {
        let source = L::source(self.source);
        let places = Places(*self);
        match self.count() {
            0 => write!(f, "{source}: no command"),
            1 => write!(f, "{source}: command{places}"),
            _ => write!(f, "{source}: commands{places}"),
        }
    }
}

impl<L: Readings> fmt::Display for Places<'_, L> {
    fn fmt<W: fmt::Write>(&self, f: &mut fmt::Formatter<W>) -> fmt::Result {
        let Reach { source, commands } = self.0;
        for (place, command) in commands.iter().enumerate() {
            if command.label.admits(source) {
                write!(f, " {place}")?;
            }
        }
        Ok(())
    }
}
