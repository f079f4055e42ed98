// Reports of comparisons as structs of numbers.
ghost use Rattle.boundary.specs.Exports.{Reported};
ghost use Rattle.boundary.specs.Reports.{CodesPlace, CodesReport, CodesUnmade};

use crate::calls::refused_part;
use crate::codes::Coded;
use crate::faults::Fault;
use crate::plans::PlanCode;
use compare::{Looks, Report, Unmade, compare};
use rules::Policy;
use std::alloc::Global;

/// What an observer is told of two plans.
#[repr(C)]
#[derive(Clone, Copy)]
pub struct ReportCode {
    /// where programs, memories, calls and commands first differ, or -1
    pub programs: i64,
    pub memories: i64,
    pub calls: i64,
    pub commands: i64,
    /// the cell at which looks differ, or -1
    pub cell: i64,
    /// 0 if looks are not due, 1 if they are the same, 2 if they differ
    pub looks: u32,
    /// 0 if they were compared, 1 or 2 if the first or the second station was not made, 3 if a
    /// number codes nothing, 4 if there was no memory
    pub code: u32,
    pub refusal: u32,
    pub part: u32,
}

/// A report that says nothing.
pub const BLANK: ReportCode = ReportCode {
    programs: 0,
    memories: 0,
    calls: 0,
    commands: 0,
    cell: 0,
    looks: 0,
    code: 0,
    refusal: 0,
    part: 0,
};

/// Compares two plans, each under its policy, as an observer at the level with this number sees
/// them.
pub fn report<P: Policy<L> + Drop, L: Coded>(
    heap: Global,
    level: u32,
    one: PlanCode<'_>,
    first: P,
    two: PlanCode<'_>,
    second: P,
) -> Result<ReportCode, Fault>
    ensures { Reported L.Coded.code L.Label.kind P.Policy
        level one.entry two.entry first second result }
{
    let Some(level) = L::of_code(level) else {
        return Err(Fault::NoCode);
    };
    let one = one.plan::<P, L>(heap, first)?;
    let two = two.plan::<P, L>(heap, second)?;
    match compare::<P, P, L>(level, one, two) {
        Ok(compared) => Ok(ReportCode::of(compared.report)),
        Err(unmade) => Ok(ReportCode::unmade(unmade)),
    }
}

impl ReportCode {
    /// What a report is coded by.
    pub fn of(report: Report) -> ReportCode
        ensures { CodesReport result report }
    {
        let (looks, cell) = match report.looks {
            Looks::NotDue => (0, -1),
            Looks::Same => (1, -1),
            Looks::DifferAt(cell) => (2, place_code(Some(cell))),
        };
        ReportCode {
            programs: place_code(report.programs),
            memories: place_code(report.memories),
            calls: place_code(report.calls),
            commands: place_code(report.commands),
            cell,
            looks,
            ..BLANK
        }
    }

    /// What is said of stations of which one was not made.
    pub fn unmade(unmade: Unmade) -> ReportCode
        ensures { CodesUnmade result unmade }
    {
        let (code, why) = match unmade {
            Unmade::First(why) => (1, why),
            Unmade::Second(why) => (2, why),
        };
        ReportCode {
            code,
            refusal: u32::from(u8::from(why)),
            part: refused_part(why),
            ..BLANK
        }
    }
}

// A place, or -1 for none.
fn place_code(place: Option<usize>) -> i64
    ensures { CodesPlace result place }
{
    match place {
        None => -1,
        Some(place) => i64::try_from(place).unwrap_or(i64::MAX),
    }
}
