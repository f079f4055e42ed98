// One program on labels of several kinds and under several policies, and how often a go asks its policy.
ghost use Rattle.rules.specs.Tables.{Obeys};

use crate::fixture::{Case, End, Fickle, NOTHING, call, frame, labelled, number, push};
use Role::{Above, Argument, Beside, Bottom, Returned, Secret, Target, Told};
use labels::Level::{L0, L1};
use labels::{Growers, Label, Level, Pair};
use machine::{Entry, Frame, Labelled, Operation};
use rules::{Cached, Direct, Policy, Request, RowTable, Verdict};
use std::alloc::{AllocError, Global};
use std::cell::Cell;
use std::fmt::Debug;
use std::process::Abort;
use std::test::Fail;

// What a label does in the program: bottom, those that it is written with, those of the cell that it stores
// to, and those that it comes to.
#[derive(Clone, Copy)]
enum Role {
    Bottom,
    Argument,
    Target,
    Secret,
    // a cell's label at or above the target's
    Above,
    // and one that is not
    Beside,
    // the target's joined with the argument's
    Returned,
    // the target's joined with the secret's
    Told,
}

// Calls place 6 with an argument, and stores what it returns. There 1 is added, and a secret is told and
// stored in cell 1.
const PROGRAM: [Operation<Role>; 14] = [
    push!(5@Argument),
    push!(6@Target),
    call!(1, true),
    push!(0@Bottom),
    Operation::Store,
    Operation::Halt,
    push!(1@Bottom),
    Operation::Add,
    push!(9@Secret),
    Operation::Output,
    push!(4@Secret),
    push!(1@Bottom),
    Operation::Store,
    Operation::Return,
];

static RUNS: [Case<'static, Role>; 2] = [
    Case {
        name: "a store above the target",
        program: &PROGRAM,
        memory: &[labelled!(0@Bottom), labelled!(3@Above)],
        fuel: 99,
        end: End::Idle,
        steps: 13,
        cells: &[labelled!(6@Returned), labelled!(4@Told)],
        stack: &[],
        log: &[labelled!(9@Told)],
    },
    Case {
        name: "a store beside the target",
        program: &PROGRAM,
        memory: &[labelled!(0@Bottom), labelled!(3@Beside)],
        fuel: 99,
        end: End::Shut(25, 12),
        steps: 9,
        cells: &[labelled!(0@Bottom), labelled!(3@Beside)],
        stack: &[
            frame!((3, true)@Bottom),
            number!(6@Argument),
            number!(4@Secret),
            number!(1@Bottom),
        ],
        log: &[labelled!(9@Told)],
    },
];

// The labels of a kind by their role.
#[derive(Drop)]
struct Labels<L> {
    argument: L,
    target: L,
    secret: L,
    above: L,
    beside: L,
    returned: L,
    told: L,
}

impl<L: Label + Debug + PartialEq> Labels<L> {
    fn of(&self, role: Role) -> L {
        match role {
            Role::Bottom => L::bottom(),
            Role::Argument => self.argument,
            Role::Target => self.target,
            Role::Secret => self.secret,
            Role::Above => self.above,
            Role::Beside => self.beside,
            Role::Returned => self.returned,
            Role::Told => self.told,
        }
    }

    fn labelled(&self, number: Labelled<Role>) -> Labelled<L> {
        Labelled {
            value: number.value,
            label: self.of(number.label),
        }
    }

    fn entry(&self, entry: Entry<Role>) -> Entry<L> {
        match entry {
            Entry::Number(number) => Entry::Number(self.labelled(number)),
            Entry::Frame(Frame { place, due, label }) => Entry::Frame(Frame {
                place,
                due,
                label: self.of(label),
            }),
        }
    }

    fn end(&self, end: End<Role>) -> End<L> {
        match end {
            End::Idle => End::Idle,
            End::Running(place, role) => End::Running(place, self.of(role)),
            End::Shut(stop, place) => End::Shut(stop, place),
        }
    }

    fn operation(&self, operation: Operation<Role>) -> Operation<L> {
        match operation {
            Operation::Push(number) => Operation::Push(self.labelled(number)),
            Operation::Pop => Operation::Pop,
            Operation::Noop => Operation::Noop,
            Operation::Add => Operation::Add,
            Operation::Sub => Operation::Sub,
            Operation::Less => Operation::Less,
            Operation::Load => Operation::Load,
            Operation::Store => Operation::Store,
            Operation::Jump => Operation::Jump,
            Operation::Bnz(by) => Operation::Bnz(by),
            Operation::Call { count, due } => Operation::Call { count, due },
            Operation::Return => Operation::Return,
            Operation::Output => Operation::Output,
            Operation::Halt => Operation::Halt,
        }
    }

    fn all(
        &self,
        heap: Global,
        numbers: &[Labelled<Role>],
    ) -> Result<Vec<Labelled<L>>, AllocError> {
        numbers
            .iter()
            .map(|number| self.labelled(*number))
            .collect(heap)
    }

    // Runs a case with these labels in their roles, under each policy that is true to the published rows.
    fn run(
        &self,
        rt: &(impl Abort + AllocGlobal),
        kind: &str,
        case: &Case<Role>,
    ) -> Result<(), Fail> {
        let heap = rt.alloc();
        let what = case.name;
        let name = format!(in heap; "{kind}, {what}")?;
        let program: Vec<Operation<L>> = case
            .program
            .iter()
            .map(|operation| self.operation(*operation))
            .collect(heap)?;
        let memory = self.all(heap, case.memory)?;
        let cells = self.all(heap, case.cells)?;
        let stack: Vec<Entry<L>> = case
            .stack
            .iter()
            .map(|entry| self.entry(*entry))
            .collect(heap)?;
        let log = self.all(heap, case.log)?;
        let case = Case {
            name: name.as_str(),
            program: program.as_slice(),
            memory: memory.as_slice(),
            fuel: case.fuel,
            end: self.end(case.end),
            steps: case.steps,
            cells: cells.as_slice(),
            stack: stack.as_slice(),
            log: log.as_slice(),
        };
        case.run(rt, &mut Direct::new::<L>())?;
        case.run(rt, &mut RowTable::new::<L>())?;
        case.run(rt, &mut Cached::new(RowTable::new::<L>()))?;
        case.run(rt, &mut Cached::new(Cached::new(Direct::new::<L>())))?;
        Ok(())
    }

    fn run_all(&self, rt: &(impl Abort + AllocGlobal), kind: &str) -> Result<(), Fail> {
        for case in &RUNS {
            self.run(rt, kind, case)?;
        }
        Ok(())
    }
}

fn pair<A, B>(left: A, right: B) -> Pair<A, B> {
    Pair { left, right }
}

fn growers(mask: u16) -> Growers {
    Growers { mask }
}

#[test]
fn kinds_and_policies_run_alike(rt: HostRuntime) -> Result<(), Fail> {
    let levels = Labels {
        argument: pair(Level::L1, Level::L3),
        target: pair(Level::L2, Level::L0),
        secret: pair(Level::L0, Level::L5),
        above: pair(Level::L2, Level::L1),
        beside: pair(Level::L1, Level::L7),
        returned: pair(Level::L2, Level::L3),
        told: pair(Level::L2, Level::L5),
    };
    levels.run_all(&rt, "pairs of levels")?;
    let sets = Labels {
        argument: growers(0x0001),
        target: growers(0x0002),
        secret: growers(0x0004),
        above: growers(0x0012),
        beside: growers(0x0001),
        returned: growers(0x0003),
        told: growers(0x0006),
    };
    sets.run_all(&rt, "growers")?;
    let pairs = Labels {
        argument: pair(growers(0x0001), growers(0x8000)),
        target: pair(growers(0x0002), growers(0x0008)),
        secret: pair(growers(0x0000), growers(0x0004)),
        above: pair(growers(0x0002), growers(0x4008)),
        beside: pair(growers(0xffff), growers(0x0001)),
        returned: pair(growers(0x0003), growers(0x8008)),
        told: pair(growers(0x0002), growers(0x000c)),
    };
    pairs.run_all(&rt, "pairs of growers")
}

// A case, how many askings the policy answers, and how many there are.
static ASKINGS: [(Case<'static, Level>, u32, u32); 12] = [
    (
        Case {
            name: "25: push forbidden",
            program: &[push!(7@L0)],
            fuel: 9,
            end: End::Shut(25, 0),
            ..NOTHING
        },
        0,
        1,
    ),
    (
        Case {
            name: "25: noop forbidden",
            program: &[Operation::Noop],
            fuel: 9,
            end: End::Shut(25, 0),
            ..NOTHING
        },
        0,
        1,
    ),
    (
        Case {
            name: "25: output forbidden after a push",
            program: &[push!(7@L0), Operation::Output],
            fuel: 9,
            end: End::Shut(25, 1),
            steps: 1,
            stack: &[number!(7@L0)],
            ..NOTHING
        },
        1,
        2,
    ),
    (
        Case {
            name: "21 is not asked about",
            program: &[Operation::Noop],
            fuel: 9,
            end: End::Shut(21, 1),
            steps: 1,
            ..NOTHING
        },
        1,
        1,
    ),
    (
        Case {
            name: "22 comes before 25",
            program: &[Operation::Pop],
            fuel: 9,
            end: End::Shut(22, 0),
            ..NOTHING
        },
        0,
        0,
    ),
    (
        Case {
            name: "23 comes before 25",
            program: &[push!(7@L0); 65],
            fuel: 99,
            end: End::Shut(23, 64),
            steps: 64,
            stack: &[number!(7@L0); 64],
            ..NOTHING
        },
        64,
        64,
    ),
    (
        Case {
            name: "24 comes before 25",
            program: &[push!(-1@L0), Operation::Load],
            fuel: 9,
            end: End::Shut(24, 1),
            steps: 1,
            stack: &[number!(-1@L0)],
            ..NOTHING
        },
        1,
        1,
    ),
    (
        Case {
            name: "26 comes before 25",
            program: &[Operation::Return],
            fuel: 9,
            end: End::Shut(26, 0),
            ..NOTHING
        },
        0,
        0,
    ),
    (
        Case {
            name: "27 comes before 25",
            program: &[push!(7@L0), Operation::Output, push!(0@L0), Operation::Jump],
            fuel: 999,
            end: End::Shut(27, 1),
            steps: 257,
            stack: &[number!(7@L0)],
            log: &[labelled!(7@L0); 64],
            ..NOTHING
        },
        257,
        257,
    ),
    (
        Case {
            name: "28 is not asked about",
            program: &[push!(2@L1), Operation::Jump, Operation::Halt],
            fuel: 9,
            end: End::Shut(28, 2),
            steps: 2,
            ..NOTHING
        },
        2,
        2,
    ),
    (
        Case {
            name: "halt is not asked about",
            program: &[Operation::Halt],
            fuel: 9,
            ..NOTHING
        },
        0,
        0,
    ),
    (
        Case {
            name: "without fuel nothing is asked",
            program: &[push!(7@L0)],
            end: End::Running(0, Level::L0),
            ..NOTHING
        },
        0,
        0,
    ),
];

#[test]
fn the_policy_is_asked_last(rt: HostRuntime) -> Result<(), Fail> {
    for (case, allowed, asked) in &ASKINGS {
        let mut policy = Fickle {
            allowed: *allowed,
            asked: 0,
        };
        case.run(&rt, &mut policy)?;
        let name = case.name;
        assert_eq!(rt; policy.asked, *asked, "{name}: askings");
    }
    Ok(())
}

// Asks the policy below, and counts its askings.
#[derive(Drop)]
struct Counting<'a, P> {
    below: P,
    asked: &'a Cell<u32>,
}

impl<P: Policy<Level>> Policy<Level> for Counting<'_, P> {
    ghost faithful = { λ p t. P.Policy.faithful p.below t };

    ghost asked = { λ p q r s. P.Policy.asked p.below q r s.below };

    fn rule(&mut self, request: Request<Level>) -> Option<Verdict<Level>>
        ensures obeys { Obeys P.Policy.faithful self.old.below request result self.new.below }
        ensures asked { P.Policy.asked self.old.below request result self.new.below }
    {
        self.asked.set(self.asked.get().saturating_add(1));
        self.below.rule(request)
    }
}

// Six steps, of which the second and the fourth ask what the one before asked.
const REPEATING: Case<'static, Level> = Case {
    name: "six steps, two of them repeated",
    program: &[
        Operation::Noop,
        Operation::Noop,
        push!(1@L0),
        push!(2@L0),
        Operation::Add,
        Operation::Noop,
        Operation::Halt,
    ],
    fuel: 9,
    steps: 6,
    stack: &[number!(3@L0)],
    ..NOTHING
};

#[test]
fn a_step_asks_once_and_a_cache_below_only_on_a_miss(rt: HostRuntime) -> Result<(), Fail> {
    let asked = Cell::new(0);
    let mut policy = Counting {
        below: Direct::new::<Level>(),
        asked: &asked,
    };
    REPEATING.run(&rt, &mut policy)?;
    assert_eq!(rt; asked.get(), 6, "once a step");
    let asked_cache = Cell::new(0);
    let asked_below = Cell::new(0);
    let below = Counting {
        below: Direct::new::<Level>(),
        asked: &asked_below,
    };
    let mut policy = Counting {
        below: Cached::new(below),
        asked: &asked_cache,
    };
    REPEATING.run(&rt, &mut policy)?;
    assert_eq!(rt; asked_cache.get(), 6, "a cache, once a step");
    assert_eq!(rt; asked_below.get(), 4, "below a cache, on a miss only");
    Ok(())
}
