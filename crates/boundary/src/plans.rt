// Plans as structs of numbers, and what is left of them once they were run.
ghost use Rattle.std.specs.Prelude.{◌≡◌, IfOk, map};
ghost use Rattle.boundary.specs.Decoding.{DecodesOnHeap};
ghost use Rattle.boundary.specs.Parts.{entry_code};
ghost use Rattle.boundary.specs.Plans.{CodesParts, CodesPlan, CodesRan, RunsCode, end_code};
ghost use Rattle.boundary.specs.Plans.{stack_in_use};

use crate::calls::{CallCode, ReplyCode, state_code, state_place};
use crate::codes::Coded;
use crate::faults::Fault;
use crate::lists::{coded_entries, coded_numbers, coded_replies, decoded};
use crate::parts::{EntryCode, NumberCode, OperationCode};
use compare::{Plan, Ran};
use labels::Label;
use rules::Policy;
use sites::{Parts, Site};
use std::alloc::{AllocError, Global};

/// What a station is made of and the calls to be made on it.
#[derive(Clone, Copy)]
pub struct PlanCode<'a> {
    pub program: &'a [OperationCode],
    pub memory: &'a [NumberCode],
    pub stack: &'a [EntryCode],
    pub log: &'a [NumberCode],
    pub calls: &'a [CallCode],
}

/// How a run ended. Fields that an end does not use are 0.
#[repr(C)]
#[derive(Clone, Copy)]
pub struct End {
    /// the place of the program counter, or of a stop
    pub place: i64,
    /// how many entries of the stack a round has in use, and how many commands there are
    pub depth: u64,
    pub commands: u64,
    /// 0 if the plan was run, 1 if its station was not made, 2
    /// if a number codes nothing, 3 if there was no memory
    pub code: u32,
    pub refusal: u32,
    pub part: u32,
    pub state: u32,
    pub label: u32,
}

/// What is left of a plan that was run: the memory, the entries of the stack in use, the commands
/// and the replies.
#[derive(Drop)]
pub struct RanCode {
    pub memory: Vec<NumberCode>,
    pub stack: Vec<EntryCode>,
    pub commands: Vec<NumberCode>,
    pub replies: Vec<ReplyCode>,
    pub end: End,
}

impl PlanCode<'_> {
    /// Runs the plan with this policy. Refuses numbers that code no plan, and a station that cannot be made.
    pub fn run<P: Policy<L> + Drop, L: Coded>(
        self,
        heap: Global,
        policy: P,
    ) -> Result<RanCode, Fault>
        ensures { RunsCode L.Coded.code policy L.Label.kind P.Policy self.entry result }
    {
        let plan: Plan<P, L> = self.plan(heap, policy)?;
        match plan.run() {
            Ok(ran) => Ok(ran_code(heap, &ran)?),
            Err(why) => Err(Fault::Unmade(why)),
        }
    }

    /// The plan that the numbers code, with this policy. Refuses numbers that code none.
    pub fn plan<P: Policy<L> + Drop, L: Coded>(
        self,
        heap: Global,
        policy: P,
    ) -> Result<Plan<P, L>, Fault>
        ensures { DecodesOnHeap result (CodesPlan L.Coded.code policy self.entry) }
    {
        let parts = self.parts(heap)?;
        let exchanges = decoded(heap, self.calls)?;
        Ok(Plan {
            parts,
            policy,
            exchanges,
        })
    }

    // The parts that the numbers code.
    fn parts<L: Coded>(self, heap: Global) -> Result<Parts<L>, Fault>
        ensures { DecodesOnHeap result (CodesParts L.Coded.code self.entry) }
    {
        let program = decoded(heap, self.program)?;
        let memory = decoded(heap, self.memory)?;
        let stack = decoded(heap, self.stack)?;
        let log = decoded(heap, self.log)?;
        Ok(Parts {
            program,
            memory,
            stack,
            log,
        })
    }
}

// What is left of a run, coded.
fn ran_code<P: Policy<L> + Drop, L: Coded>(
    heap: Global,
    ran: &Ran<P, L>,
) -> Result<RanCode, AllocError>
    ensures { IfOk result (λ told. CodesRan L.Coded.code told ran.now) }
{
    let site = &ran.site;
    let (end, stack) = end_of(heap, site)?;
    Ok(RanCode {
        memory: coded_numbers(heap, site.memory())?,
        stack,
        commands: coded_numbers(heap, site.commands())?,
        replies: coded_replies(heap, ran.exchanges.as_slice())?,
        end,
    })
}

/// An end that says nothing.
pub const BLANK: End = End {
    place: 0,
    depth: 0,
    commands: 0,
    code: 0,
    refusal: 0,
    part: 0,
    state: 0,
    label: 0,
};

// How a station stands, and the entries of its stack in use, the oldest first.
fn end_of<P: Policy<L> + Drop, L: Coded>(
    heap: Global,
    site: &Site<P, L>,
) -> Result<(End, Vec<EntryCode>), AllocError>
    ensures end { IfOk result (λ r. r.0 ≡ end_code L.Coded.code site.now.sited.station) }
    ensures stack { IfOk result (λ r. r.1.items
        ≡ map (entry_code L.Coded.code) (stack_in_use L.Coded.code site.now.sited.station)) }
{
    let commands = site.commands().len() as u64;
    match site.rehearse(heap)? {
        Some(round) => {
            let registers = round.registers();
            let used = &round.parts().stack.as_slice()[..registers.depth];
            let stack = coded_entries(heap, used)?;
            let end = End {
                place: registers.pc,
                depth: registers.depth as u64,
                commands,
                state: 1,
                label: registers.pc_label.code(),
                ..BLANK
            };
            Ok((end, stack))
        }
        None => {
            let state = site.state();
            let end = End {
                place: state_place(state),
                commands,
                state: state_code(state),
                ..BLANK
            };
            Ok((end, Vec::new(heap)))
        }
    }
}
