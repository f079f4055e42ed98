// Policies by the published rows, how often a cache asks, and texts.
ghost use Rattle.labels.specs.Level.{levels};
ghost use Rattle.rules.specs.Policies.{DirectFaithful, DirectAsked};
ghost use Rattle.rules.specs.Tables.{Obeys};

use labels::Level;
use rules::{Cached, Direct, NotAnOperation, Opcode, Policy, Request, RowTable, Verdict};
use std::cell::Cell;
use std::process::Abort;
use std::test::Fail;

fn request(op: Opcode, pc: Level, a: Level, b: Level, c: Level) -> Request<Level> {
    Request { op, pc, a, b, c }
}

fn is(verdict: Option<Verdict<Level>>, pc: Level, res: Level) -> bool {
    verdict == Some(Verdict { pc, result: res })
}

// Store to a cell: allowed where address and program counter are at or below the cell's label.
fn stores<P: Policy<Level>>(rt: &impl Abort, policy: &mut P) {
    let over = policy.rule(request(Opcode::Store, Level::L1, Level::L2, Level::L0, Level::L5));
    assert!(rt; is(over, Level::L1, Level::L2));
    let level = policy.rule(request(Opcode::Store, Level::L1, Level::L2, Level::L0, Level::L2));
    assert!(rt; is(level, Level::L1, Level::L2));
    let under = policy.rule(request(Opcode::Store, Level::L1, Level::L2, Level::L0, Level::L1));
    assert!(rt; under.is_none());
    let by_pc = policy.rule(request(Opcode::Store, Level::L3, Level::L0, Level::L0, Level::L2));
    assert!(rt; by_pc.is_none());
}

// A call joins the target's label to the program counter's, and a return sets the caller's again.
fn calls<P: Policy<Level>>(rt: &impl Abort, policy: &mut P) {
    let call = policy.rule(request(Opcode::Call, Level::L0, Level::L5, Level::L0, Level::L0));
    assert!(rt; is(call, Level::L5, Level::L0));
    let back = policy.rule(request(Opcode::Return, Level::L5, Level::L0, Level::L1, Level::L0));
    assert!(rt; is(back, Level::L0, Level::L5));
}

#[test]
fn direct_follows_the_rows(rt: HostRuntime) {
    let mut policy = Direct::new::<Level>();
    stores(&rt, &mut policy);
    calls(&rt, &mut policy);
}

#[test]
fn row_table_follows_the_rows(rt: HostRuntime) {
    let mut policy = RowTable::new::<Level>();
    stores(&rt, &mut policy);
    calls(&rt, &mut policy);
}

#[test]
fn cache_of_a_cache_follows_the_rows(rt: HostRuntime) {
    let mut policy = Cached::new(Cached::new(Direct::new::<Level>()));
    stores(&rt, &mut policy);
    calls(&rt, &mut policy);
}

// Works the rows out, and counts how often it is asked.
#[derive(Drop)]
struct Counting<'a> {
    direct: Direct,
    count: &'a Cell<u32>,
}

impl Policy<Level> for Counting<'_> {
    ghost faithful = { λ p. DirectFaithful levels p.direct };

    ghost asked = { λ p q r s. DirectAsked levels p.direct q r s.direct };

    fn rule(&mut self, request: Request<Level>) -> Option<Verdict<Level>>
        ensures obeys { Obeys (DirectFaithful levels)
            self.old.direct request result self.new.direct }
        ensures asked { DirectAsked levels self.old.direct request result self.new.direct }
    {
        self.count.set(self.count.get().saturating_add(1));
        self.direct.rule(request)
    }
}

#[test]
fn cache_asks_below_only_on_a_miss(rt: HostRuntime) {
    let count = Cell::new(0);
    let mut policy = Cached::new(Counting {
        direct: Direct::new::<Level>(),
        count: &count,
    });
    let first = request(Opcode::Jump, Level::L1, Level::L2, Level::L0, Level::L0);
    assert!(rt; is(policy.rule(first), Level::L2, Level::L0));
    assert!(rt; count.get() == 1);
    assert!(rt; is(policy.rule(first), Level::L2, Level::L0));
    assert!(rt;
        count.get() == 1,
        "told the same request, it answers from memory"
    );
    let other_pc = request(Opcode::Jump, Level::L3, Level::L2, Level::L0, Level::L0);
    assert!(rt; is(policy.rule(other_pc), Level::L3, Level::L0));
    assert!(rt; count.get() == 2, "told another, it asks below");
    assert!(rt; is(policy.rule(first), Level::L2, Level::L0));
    assert!(rt; count.get() == 3, "it remembers one request only");
}

#[test]
fn operations_are_read_by_name(rt: HostRuntime) -> Result<(), Fail> {
    assert_eq!(rt; "bnz".parse::<Opcode>()?, Opcode::Bnz);
    assert_eq!(rt; "BNZ".parse::<Opcode>(), Err(NotAnOperation));
    assert_eq!(rt; Opcode::Noop.name(), "noop");
    Ok(())
}

#[test]
fn requests_and_verdicts_are_written_in_full(rt: HostRuntime) -> Result<(), Fail> {
    let asked = request(Opcode::Store, Level::L1, Level::L2, Level::L0, Level::L5);
    assert_eq!(rt; asked.to_string(rt.alloc())?.as_str(), "store 1 2 0 5");
    let ruled = Verdict {
        pc: Level::L1,
        result: Level::L2,
    };
    assert_eq!(rt; ruled.to_string(rt.alloc())?.as_str(), "pc 1, result 2");
    Ok(())
}
