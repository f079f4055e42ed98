// Policies by number, and plans run and compared with the kinds and policies that numbers choose.
ghost use Rattle.std.specs.Prelude.{◌≡◌};
ghost use Rattle.rules.specs.Policies.{CachedFaithful, DirectFaithful};
ghost use Rattle.rules.specs.Rows.{RowsFaithful};
ghost use Rattle.rules.specs.Tables.{published};
ghost use Rattle.boundary.specs.Decoding.{Decodes};
ghost use Rattle.boundary.specs.Exports.{ReportsAs, ReportsUnder, RunsAs, RunsUnder, policy_number};

use crate::codes::Coded;
use crate::faults::Fault;
use crate::kinds::{KindCode, Task};
use crate::plans::{PlanCode, RanCode};
use crate::reports::{ReportCode, report};
use rules::{Cached, Direct, RowTable};
use std::alloc::Global;

/// A policy that can be chosen: one of the three, or a cache over a cache over the direct one.
#[derive(Clone, Copy)]
pub enum PolicyCode {
    Direct,
    Rows,
    Cached,
    CachedTwice,
}

// A plan to be run, and the policy.
#[derive(Clone, Copy)]
struct Run<'a> {
    heap: Global,
    policy: PolicyCode,
    plan: PlanCode<'a>,
}

impl Task for Run<'_> {
    type Output = RanCode;

    ghost promises = { λ run result L code kind. RunsUnder code kind run.policy run.plan result };

    fn perform<L: Coded>(self) -> Result<RanCode, Fault> {
        self.policy.run::<L>(self.heap, self.plan)
    }
}

// Two plans to be compared at a level, and their policies' name.
#[derive(Clone, Copy)]
struct Compare<'a> {
    heap: Global,
    policy: PolicyCode,
    level: u32,
    one: PlanCode<'a>,
    two: PlanCode<'a>,
}

impl Task for Compare<'_> {
    type Output = ReportCode;

    ghost promises = { λ both result L code kind.
        ReportsUnder code kind both.policy both.level both.one both.two result };

    fn perform<L: Coded>(self) -> Result<ReportCode, Fault> {
        self.policy
            .compare::<L>(self.heap, self.level, self.one, self.two)
    }
}

impl KindCode {
    /// Runs a plan with labels of this kind.
    pub fn run(self, heap: Global, policy: PolicyCode, plan: PlanCode<'_>) -> Result<RanCode, Fault>
        ensures { RunsAs self policy plan.entry result }
    {
        self.perform(Run { heap, policy, plan })
    }

    /// Compares two plans with labels of this kind.
    pub fn compare(
        self,
        heap: Global,
        policy: PolicyCode,
        level: u32,
        one: PlanCode<'_>,
        two: PlanCode<'_>,
    ) -> Result<ReportCode, Fault>
        ensures { ReportsAs self policy level one.entry two.entry result }
    {
        self.perform(Compare {
            heap,
            policy,
            level,
            one,
            two,
        })
    }
}

impl PolicyCode {
    /// The policy with this number, if there is one.
    pub fn numbered(number: u32) -> Option<PolicyCode>
        ensures { Decodes result (λ policy. number ≡ policy_number policy) }
    {
        match number {
            0 => Some(PolicyCode::Direct),
            1 => Some(PolicyCode::Rows),
            2 => Some(PolicyCode::Cached),
            3 => Some(PolicyCode::CachedTwice),
            _ => None,
        }
    }

    // Runs a plan under this policy. Each policy is a type of its own here, so that its answers are
    // compiled into the run.
    fn run<L: Coded>(self, heap: Global, plan: PlanCode<'_>) -> Result<RanCode, Fault>
        ensures { RunsUnder L.Coded.code L.Label.kind self plan.entry result }
    {
        match self {
            PolicyCode::Direct => plan.run::<Direct, L>(heap, Direct::new::<L>()),
            PolicyCode::Rows => plan.run::<RowTable, L>(heap, RowTable::new::<L>()),
            PolicyCode::Cached => plan.run::<_, L>(heap, cached::<L>()),
            PolicyCode::CachedTwice => plan.run::<_, L>(heap, cached_twice::<L>()),
        }
    }

    // Compares two plans, each under a policy of its own of this name.
    fn compare<L: Coded>(
        self,
        heap: Global,
        level: u32,
        one: PlanCode<'_>,
        two: PlanCode<'_>,
    ) -> Result<ReportCode, Fault>
        ensures { ReportsUnder L.Coded.code L.Label.kind self level one.entry two.entry result }
    {
        match self {
            PolicyCode::Direct => {
                let (first, second) = (Direct::new::<L>(), Direct::new::<L>());
                report::<Direct, L>(heap, level, one, first, two, second)
            }
            PolicyCode::Rows => {
                let (first, second) = (RowTable::new::<L>(), RowTable::new::<L>());
                report::<RowTable, L>(heap, level, one, first, two, second)
            }
            PolicyCode::Cached => {
                let (first, second) = (cached::<L>(), cached::<L>());
                report::<_, L>(heap, level, one, first, two, second)
            }
            PolicyCode::CachedTwice => {
                let (first, second) = (cached_twice::<L>(), cached_twice::<L>());
                report::<_, L>(heap, level, one, first, two, second)
            }
        }
    }
}

// The cached policy over the row table.
fn cached<L: Coded>() -> Cached<RowTable, L>
    ensures { CachedFaithful (RowsFaithful L.Label.kind) result (published L.Label.kind) }
{
    Cached::new(RowTable::new::<L>())
}

// A cache over a cache over the direct policy.
fn cached_twice<L: Coded>() -> Cached<Cached<Direct, L>, L>
    ensures { CachedFaithful (CachedFaithful (DirectFaithful L.Label.kind))
        result (published L.Label.kind) }
{
    let below: Cached<Direct, L> = Cached::new(Direct::new::<L>());
    Cached::new(below)
}
