// Two plans run and compared as an observer at a level sees them.
ghost use Rattle.std.specs.Prelude.{◌≡◌, ◌↔◌, IsTrue, Ok, Err, IfOk, IfErr};
ghost use Rattle.machine.specs.Stations.{Idle};
ghost use Rattle.compare.specs.Reports.{Compares, FirstLook, IsUnmade, KeepsSecret, LooksDue, LooksTold};
ghost use Rattle.compare.specs.Reports.{NothingDiffers, SameBelow, SaysAlike, TellsAlike};
ghost use Rattle.compare.specs.Tests.{SameLook};

use crate::comparers::{Cells, Commands, Inputs, Operations, are_same};
use crate::differences::{count, first_difference, first_unlike};
use crate::plans::{Plan, Ran};
use labels::Label;
use machine::Refusal;
use rules::Policy;
use sites::{Reply, Site};

/// What is left of two plans that were compared, and the report.
#[derive(Drop)]
pub struct Compared<P, Q, L> {
    pub one: Ran<P, L>,
    pub two: Ran<Q, L>,
    pub report: Report,
}

/// What the observer is told of two plans: where they first differ to him, if they do.
#[derive(Clone, Copy, Debug, PartialEq, Eq)]
pub struct Report {
    /// Of the programs, as the stations were made of them.
    pub programs: Option<usize>,
    /// Of the memories, likewise.
    pub memories: Option<usize>,
    /// Of the enters and starts that count.
    pub calls: Option<usize>,
    /// Of the commands at or below the level.
    pub commands: Option<usize>,
    /// Of the looks that he may make.
    pub looks: Looks,
}

/// What is told of the looks that the observer may make into each cell of both stations.
#[derive(Clone, Copy, Debug, PartialEq, Eq)]
pub enum Looks {
    /// Not equally many enters and starts counted, or a station is not idle.
    NotDue,
    /// Every look has the same answer.
    Same,
    /// The first cell at which they differ.
    DifferAt(usize),
}

impl Report {
    /// Whether programs, memories and calls were alike to the observer.
    pub fn says_alike(&self) -> bool
        ensures { IsTrue result ↔ SaysAlike self.now }
    {
        self.programs.is_none() && self.memories.is_none() && self.calls.is_none()
    }

    /// Whether he is given nothing that differs.
    pub fn nothing_differs(&self) -> bool
        ensures { IsTrue result ↔ NothingDiffers self.now }
    {
        self.commands.is_none() && !matches!(self.looks, Looks::DifferAt(_))
    }
}

/// The station that could not be made, and why.
#[derive(Clone, Copy, Debug, PartialEq, Eq)]
pub enum Unmade {
    First(Refusal),
    Second(Refusal),
}

/// Runs two plans, each from making its station to its last call, and compares what the observer at a level is given.
pub fn compare<P: Policy<L> + Drop, Q: Policy<L> + Drop, L: Label>(
    level: L,
    one: Plan<P, L>,
    two: Plan<Q, L>,
) -> Result<Compared<P, Q, L>, Unmade>
    ensures compares { IfOk result (Compares L.Label.kind P.Policy Q.Policy level one two) }
    ensures unmade { IfErr result (IsUnmade L.Label.kind P.Policy Q.Policy level one two) }
    ensures secrecy { IfOk result (KeepsSecret L.Label.kind P.Policy Q.Policy level one two) }
    ensures told { IfOk result (TellsAlike L.Label.kind P.Policy Q.Policy level one two) }
{
    let programs = first_unlike(
        &Operations { level },
        one.parts.program.as_slice(),
        two.parts.program.as_slice(),
    );
    let memories = first_unlike(
        &Cells { level },
        one.parts.memory.as_slice(),
        two.parts.memory.as_slice(),
    );
    let one = match one.run() {
        Ok(one) => one,
        Err(why) => return Err(Unmade::First(why)),
    };
    let two = match two.run() {
        Ok(two) => two,
        Err(why) => return Err(Unmade::Second(why)),
    };
    let report = Report {
        programs,
        memories,
        calls: first_difference(
            &Inputs { level },
            one.exchanges.as_slice(),
            two.exchanges.as_slice(),
        ),
        commands: first_difference(
            &Commands { level },
            one.site.commands(),
            two.site.commands(),
        ),
        looks: compare_looks(level, &one, &two),
    };
    Ok(Compared { one, two, report })
}

// Compares the looks, where they are due.
fn compare_looks<P, Q, L: Label>(level: L, one: &Ran<P, L>, two: &Ran<Q, L>) -> Looks
    ensures { LooksTold L.Label.kind level
        (LooksDue L.Label.kind level one.now.exchanges.items two.now.exchanges.items
        one.now.site.sited two.now.site.sited)
        one.now.site.sited two.now.site.sited result }
{
    if !looks_are_due(level, one, two) {
        return Looks::NotDue;
    }
    match first_look(level, &one.site, &two.site) {
        None => Looks::Same,
        Some(cell) => Looks::DifferAt(cell),
    }
}

// Whether equally many enters and starts counted, and both stations are idle.
fn looks_are_due<P, Q, L: Label>(level: L, one: &Ran<P, L>, two: &Ran<Q, L>) -> bool
    ensures { IsTrue result ↔ LooksDue L.Label.kind level
        one.now.exchanges.items two.now.exchanges.items one.now.site.sited two.now.site.sited }
{
    let inputs = Inputs { level };
    count(&inputs, one.exchanges.as_slice()) == count(&inputs, two.exchanges.as_slice())
        && one.site.is_idle()
        && two.site.is_idle()
}

// The first cell at which looks into two idle stations differ.
fn first_look<P, Q, L: Label>(level: L, one: &Site<P, L>, two: &Site<Q, L>) -> Option<usize>
    requires one { Idle one.now.sited.station }
    requires two { Idle two.now.sited.station }
    ensures { FirstLook L.Label.kind level one.now.sited two.now.sited result }
{
    let cells = one.memory().len().max(two.memory().len());
    for cell in 0..cells {
        if !same_reply(one.look(cell, level), two.look(cell, level)) {
            return Some(cell);
        }
    }
    None
}

// Whether two replies to looks are the same.
fn same_reply<L: Label>(first: Reply<L>, second: Reply<L>) -> bool
    ensures { IsTrue result ↔ SameLook first second }
{
    match (first, second) {
        (Reply::Shown(number), Reply::Shown(other)) => are_same(number, other),
        (Reply::Refused(why), Reply::Refused(other)) => why == other,
        _ => false,
    }
}

/// Where every look at a level has the same answer on both stations, so has every look with a clearance below.
pub fn same_below<L: Label>()
    ensures { SameBelow L.Label.kind }
{}
