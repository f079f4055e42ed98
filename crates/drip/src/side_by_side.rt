// What an observer at a label has of two stations, side by side in words.
ghost use Rattle.std.specs.Prelude.{◌≡◌, IfOk, filter};

use crate::operations::Spelled;
use crate::table::{Side, Table};
use compare::{Looks, Ran, Report, Unmade};
use labels::Label;
use machine::{Call, Labelled, State};
use policies::AnyPolicy;
use sites::Reply;
use std::alloc::{AllocError, Global};
use std::fmt;

/// One of the stations: the cells that it was made of, what its
/// calls left, and of the commands those that the observer has.
#[derive(Drop)]
pub struct Run<'a, L> {
    cells: &'a [Labelled<L>],
    ran: &'a Ran<AnyPolicy<L>, L>,
    commands: Vec<Labelled<L>>,
}

/// Two stations, the report on them, and the level of the observer.
#[derive(Drop)]
pub struct SideBySide<'a, L> {
    pub level: L,
    pub report: Report,
    pub first: Run<'a, L>,
    pub second: Run<'a, L>,
}

/// Whether parts or calls are alike, shown as `memories: alike`, or as
/// `memories: differ at cell 0, 40@0001 in the first and 41@0001 in the second`.
#[derive(Clone, Copy)]
pub struct Alike<T> {
    what: &'static str,
    difference: Option<Difference<T>>,
}

#[derive(Clone, Copy)]
struct Difference<T> {
    unit: &'static str,
    place: usize,
    first: Option<T>,
    second: Option<T>,
}

// What one of two has, or a word for what it has not.
#[derive(Clone, Copy)]
struct Had<T>(Option<T>, &'static str);

/// An enter or a start that a station did not take, shown as
/// `not taken: enter 1 7@0000, since the second station was running`.
#[derive(Clone, Copy)]
pub struct Untaken<L> {
    call: Call<L>,
    which: Which,
    state: State,
}

/// How the two lists of commands go together.
#[derive(Clone, Copy)]
pub enum Beginning {
    Same,
    /// this list is a beginning of the other
    Begins(Which),
    /// neither begins the other, from this command on
    Neither(usize),
}

/// One of the two stations.
#[derive(Clone, Copy)]
pub enum Which {
    First,
    Second,
}

/// What the cells show.
#[derive(Clone, Copy)]
pub enum CellsShown<L> {
    Same,
    Differ {
        cell: usize,
        first: Reply<L>,
        second: Reply<L>,
    },
    /// They are not compared, since a station is not idle.
    NotIdle(Which, State),
    /// They are not compared, since not equally many enters and starts count.
    Uneven {
        first: usize,
        second: usize,
    },
}

/// What follows for the observer at a level.
#[derive(Clone, Copy)]
pub enum Conclusion<L> {
    /// The stations are alike to him, and he is given nothing that differs.
    Same(L),
    /// They are not alike to him, so nothing is promised.
    NotAlike(L),
    /// They are alike to him, and something that he is given differs, which the proof of `compare`
    /// rules out.
    Broken(L),
}

/// That a station was not made, shown as `make of the first: refused with 1, stack`.
#[derive(Clone, Copy)]
pub struct Unmaking(pub Unmade);

impl<'a, L: Label> Run<'a, L> {
    /// The station of this run, as an observer at the level sees it. Refuses where there is no
    /// memory.
    pub fn new(
        heap: Global,
        level: L,
        cells: &'a [Labelled<L>],
        ran: &'a Ran<AnyPolicy<L>, L>,
    ) -> Result<Run<'a, L>, AllocError> {
        let commands = visible(heap, level, ran.site.commands())?;
        Ok(Run {
            cells,
            ran,
            commands,
        })
    }

    // The operation at a place of the program.
    fn operation(&self, place: usize) -> Option<Spelled<L>> {
        self.ran
            .site
            .program()
            .get(place)
            .map(|operation| Spelled(*operation))
    }

    // A cell as the station was made of it.
    fn cell(&self, cell: usize) -> Option<Labelled<L>> {
        self.cells.get(cell).copied()
    }

    // How many enters and starts count.
    fn counted(&self) -> usize {
        self.ran
            .exchanges
            .iter()
            .filter(|exchange| exchange.counts())
            .count()
    }

    // One of the enters and starts that count.
    fn call(&self, place: usize) -> Option<Call<L>> {
        self.ran
            .exchanges
            .iter()
            .filter(|exchange| exchange.counts())
            .nth(place)
            .map(|exchange| exchange.call)
    }

    // The enters and starts that the station did not take.
    fn untaken(&self, heap: Global, which: Which) -> Result<Vec<Untaken<L>>, AllocError> {
        let mut all = Vec::new(heap);
        for exchange in self.ran.exchanges.iter() {
            if let (call @ (Call::Enter { .. } | Call::Start), Some(Reply::NotTaken(state))) = (
                exchange.call,
                exchange.reply,
            ) {
                all.push(Untaken { call, which, state })?;
            }
        }
        Ok(all)
    }

    // One of the commands that the observer has.
    fn command(&self, place: usize) -> Option<Labelled<L>> {
        self.commands.get(place).copied()
    }
}

// The commands that an observer at a level has, in order.
fn visible<L: Label>(
    heap: Global,
    level: L,
    commands: &[Labelled<L>],
) -> Result<Vec<Labelled<L>>, AllocError>
    ensures { IfOk result (λ seen. seen.items
        ≡ filter (λ v. L.Label.kind.below v.label level) commands.now) }
{
    commands
        .iter()
        .copied()
        .filter(|command| command.label.flows_to(level))
        .collect(heap)
}

impl<L: Label> SideBySide<'_, L> {
    /// Whether the programs are alike, or the first place at which they differ.
    pub fn programs(&self) -> Alike<Spelled<L>> {
        Alike {
            what: "programs",
            difference: self.report.programs.map(|place| Difference {
                unit: "place",
                place,
                first: self.first.operation(place),
                second: self.second.operation(place),
            }),
        }
    }

    /// Whether the memories are alike, or the first cell at which they differ.
    pub fn memories(&self) -> Alike<Labelled<L>> {
        Alike {
            what: "memories",
            difference: self.report.memories.map(|place| Difference {
                unit: "cell",
                place,
                first: self.first.cell(place),
                second: self.second.cell(place),
            }),
        }
    }

    /// The calls are alike if, of the enters and starts that count, one list is a beginning of the
    /// other.
    pub fn calls(&self) -> Alike<Call<L>> {
        Alike {
            what: "calls",
            difference: self.report.calls.map(|place| Difference {
                unit: "enter or start",
                place,
                first: self.first.call(place),
                second: self.second.call(place),
            }),
        }
    }

    /// The enters and starts that a station did not take, those of the first before those of the
    /// second.
    pub fn untaken(&self, heap: Global) -> Result<Vec<Untaken<L>>, AllocError> {
        let mut all = self.first.untaken(heap, Which::First)?;
        for untaken in self.second.untaken(heap, Which::Second)? {
            all.push(untaken)?;
        }
        Ok(all)
    }

    /// The commands that the observer has of both, a row for each.
    pub fn table(&self, heap: Global) -> Result<Table, AllocError> {
        let mut table = Table::new(heap, &[Side::Right, Side::Left, Side::Left])?;
        table.push(vec![in heap;
            String::new(heap),
            String::from_str(heap, "first")?,
            String::from_str(heap, "second")?,
        ]?)?;
        let rows = self.first.commands.len().max(self.second.commands.len());
        for place in 0..rows {
            table.push(vec![in heap;
                format!(in heap; "{place}")?,
                format!(in heap; "{}", Had(self.first.command(place), "-"))?,
                format!(in heap; "{}", Had(self.second.command(place), "-"))?,
            ]?)?;
        }
        Ok(table)
    }

    /// How the commands that the observer has of both go together.
    pub fn commands(&self) -> Beginning {
        let first = self.first.commands.len();
        let second = self.second.commands.len();
        match self.report.commands {
            Some(place) => Beginning::Neither(place),
            None if first < second => Beginning::Begins(Which::First),
            None if second < first => Beginning::Begins(Which::Second),
            None => Beginning::Same,
        }
    }

    /// What the cells show him, and where they are not compared, why.
    pub fn looks(&self) -> CellsShown<L> {
        match self.report.looks {
            Looks::Same => CellsShown::Same,
            Looks::DifferAt(cell) => CellsShown::Differ {
                cell,
                first: self.first.ran.site.look(cell, self.level),
                second: self.second.ran.site.look(cell, self.level),
            },
            Looks::NotDue => self.not_due(),
        }
    }

    // Why the cells are not to be compared.
    fn not_due(&self) -> CellsShown<L> {
        match (self.first.ran.site.state(), self.second.ran.site.state()) {
            (State::Idle, State::Idle) => CellsShown::Uneven {
                first: self.first.counted(),
                second: self.second.counted(),
            },
            (State::Idle, state) => CellsShown::NotIdle(Which::Second, state),
            (state, _) => CellsShown::NotIdle(Which::First, state),
        }
    }

    /// What follows for him from the report.
    pub fn conclusion(&self) -> Conclusion<L> {
        if !self.report.says_alike() {
            Conclusion::NotAlike(self.level)
        } else if self.report.nothing_differs() {
            Conclusion::Same(self.level)
        } else {
            Conclusion::Broken(self.level)
        }
    }
}

impl<T: Copy + fmt::Display> fmt::Display for Alike<T> {
    fn fmt<W: fmt::Write>(&self, f: &mut fmt::Formatter<W>) -> fmt::Result {
        let what = self.what;
        match &self.difference {
            None => write!(f, "{what}: alike"),
            Some(difference) => write!(f, "{what}: differ at {difference}"),
        }
    }
}

impl<T: Copy + fmt::Display> fmt::Display for Difference<T> {
    fn fmt<W: fmt::Write>(&self, f: &mut fmt::Formatter<W>) -> fmt::Result {
        let Difference {
            unit,
            place,
            first,
            second,
        } = *self;
        write!(
            f,
            "{unit} {place}, {} in the first and {} in the second",
            Had(first, "nothing"),
            Had(second, "nothing")
        )
    }
}

impl<T: Copy + fmt::Display> fmt::Display for Had<T> {
    fn fmt<W: fmt::Write>(&self, f: &mut fmt::Formatter<W>) -> fmt::Result {
        match self.0 {
            Some(value) => write!(f, "{value}"),
            None => f.write_str(self.1),
        }
    }
}

impl fmt::Display for Which {
    fn fmt<W: fmt::Write>(&self, f: &mut fmt::Formatter<W>) -> fmt::Result {
        f.write_str(match *self {
            Which::First => "first",
            Which::Second => "second",
        })
    }
}

impl<L: Label> fmt::Display for Untaken<L> {
    fn fmt<W: fmt::Write>(&self, f: &mut fmt::Formatter<W>) -> fmt::Result {
        let Untaken { call, which, state } = *self;
        write!(
            f,
            "not taken: {call}, since the {which} station was {state}"
        )
    }
}

impl fmt::Display for Beginning {
    fn fmt<W: fmt::Write>(&self, f: &mut fmt::Formatter<W>) -> fmt::Result {
        match *self {
            Beginning::Same => write!(f, "commands: the same in both"),
            Beginning::Begins(which) => write!(
                f,
                "commands: those of the {which} are a beginning of the other's"
            ),
            Beginning::Neither(place) => write!(
                f,
                "commands: neither list is a beginning of the other, they differ in row {place}"
            ),
        }
    }
}

impl<L: Label> fmt::Display for CellsShown<L> {
    fn fmt<W: fmt::Write>(&self, f: &mut fmt::Formatter<W>) -> fmt::Result {
        match *self {
            CellsShown::Same => write!(f, "cells: every cell shows the same"),
            CellsShown::Differ {
                cell,
                first,
                second,
            } => write!(
                f,
                "cells: differ at cell {cell}, {first} in the first and {second} in the second"
            ),
            CellsShown::NotIdle(which, state) => write!(
                f,
                "cells: not compared, since the {which} station is {state}"
            ),
            CellsShown::Uneven { first, second } => write!(
                f,
                "cells: not compared, since {first} enters and starts count in the first \
                and {second} in the second"
            ),
        }
    }
}

impl<L: Label> fmt::Display for Conclusion<L> {
    fn fmt<W: fmt::Write>(&self, f: &mut fmt::Formatter<W>) -> fmt::Result {
        match *self {
            Conclusion::Same(level) => write!(
                f,
                "alike to an observer at {level}, and nothing that he is given differs"
            ),
            Conclusion::NotAlike(level) => write!(
                f,
                "not alike to an observer at {level}, so what he is given may differ"
            ),
            Conclusion::Broken(level) => write!(
                f,
                "DIFFERS: alike to an observer at {level}, and something that he is given differs"
            ),
        }
    }
}

impl fmt::Display for Unmaking {
    fn fmt<W: fmt::Write>(&self, f: &mut fmt::Formatter<W>) -> fmt::Result {
        let (which, why) = match self.0 {
            Unmade::First(why) => (Which::First, why),
            Unmade::Second(why) => (Which::Second, why),
        };
        write!(f, "make of the {which}: refused with {why}")
    }
}
