// Refusals at their edges and just inside them, what every part holds after, and goes that go on from one another.
use crate::fixture::{
    Case, End, Fickle, NOTHING, Parts, labelled, number, push, same, still_running,
};
use labels::Level::{L0, L1, L2, L3, L4, L6, L7};
use labels::{Growers, Label, Level};
use machine::{Entry, Labelled, Operation, Part, Refusal, Sizes};
use rules::{Direct, Policy};
use station::{Gone, Idle, Refused, Running, Station};
use std::fmt::Debug;
use std::process::Abort;
use std::test::Fail;
use steps::Registers;

// The lengths of the four parts.
macro_rules! sizes {
    ($program:literal, $memory:literal, $stack:literal, $log:literal) => {
        Sizes {
            program: $program,
            memory: $memory,
            stack: $stack,
            log: $log,
        }
    };
}

// A refusal and its number.
type Told = (Refusal, u8);

fn told(refusal: Option<Refusal>) -> Option<Told> {
    let why = refusal?;
    Some((why, u8::from(why)))
}

const PROGRAM: Option<Told> = Some((Refusal::Limits(Part::Program), 1));

const MEMORY: Option<Told> = Some((Refusal::Limits(Part::Memory), 1));

const STACK: Option<Told> = Some((Refusal::Limits(Part::Stack), 1));

const LOG: Option<Told> = Some((Refusal::Limits(Part::Log), 1));

// The lengths of the parts, and how making is refused.
static MAKINGS: [(Sizes, Option<Told>); 24] = [
    (sizes!(1, 1, 1, 1), None),
    (sizes!(4096, 1, 1, 1), None),
    (sizes!(1, 1024, 1, 1), None),
    (sizes!(1, 1, 1024, 1), None),
    (sizes!(1, 1, 1, 4096), None),
    (sizes!(4096, 1024, 1024, 4096), None),
    (sizes!(0, 1, 1, 1), PROGRAM),
    (sizes!(1, 0, 1, 1), MEMORY),
    (sizes!(1, 1, 0, 1), STACK),
    (sizes!(1, 1, 1, 0), LOG),
    (sizes!(4097, 1, 1, 1), PROGRAM),
    (sizes!(1, 1025, 1, 1), MEMORY),
    (sizes!(1, 1, 1025, 1), STACK),
    (sizes!(1, 1, 1, 4097), LOG),
    (sizes!(4097, 1024, 1024, 4096), PROGRAM),
    (sizes!(4096, 1025, 1024, 4096), MEMORY),
    (sizes!(4096, 1024, 1025, 4096), STACK),
    (sizes!(4096, 1024, 1024, 4097), LOG),
    (sizes!(0, 1025, 1, 1), PROGRAM),
    (sizes!(4097, 1, 1, 0), PROGRAM),
    (sizes!(1, 0, 1025, 1), MEMORY),
    (sizes!(1, 1025, 1, 4097), MEMORY),
    (sizes!(1, 1, 0, 0), STACK),
    (sizes!(0, 0, 0, 0), PROGRAM),
];

#[test]
fn parts_outside_the_limits_are_refused(rt: HostRuntime) -> Result<(), Fail> {
    for (sizes, refusal) in &MAKINGS {
        let parts = Parts::<Level>::blank(rt.alloc(), *sizes)?;
        assert_eq!(rt; told(parts.make().err()), *refusal, "{sizes:?}");
    }
    Ok(())
}

const OTHER_MEMORY: Option<Told> = Some((Refusal::Length(Part::Memory), 2));

const NO_CELL: Option<Told> = Some((Refusal::Cell, 3));

const TOO_HIGH: Option<Told> = Some((Refusal::Clearance, 4));

// How many cells are handed in where 16 were made, a cell, and how an enter and a look are refused.
static CELLS: [(usize, usize, Option<Told>); 10] = [
    (16, 0, None),
    (16, 15, None),
    (16, 16, NO_CELL),
    (16, usize::MAX, NO_CELL),
    (15, 14, OTHER_MEMORY),
    (15, 15, OTHER_MEMORY),
    (15, 16, OTHER_MEMORY),
    (17, 15, OTHER_MEMORY),
    (17, 16, OTHER_MEMORY),
    (17, 17, OTHER_MEMORY),
];

#[test]
fn cells_are_entered_and_looked_at(rt: HostRuntime) -> Result<(), Fail> {
    let zero = labelled!(0@L0);
    let five = labelled!(5@L3);
    let idle = Idle::make(&[Operation::Noop], &[zero; 16], &[number!(0@L0)], &[zero])?;
    for (len, cell, refusal) in &CELLS {
        let name = format!(in rt.alloc(); "cell {cell} of {len}")?;
        let name = name.as_str();
        let len = (*len).min(17);
        let mut memory = [zero; 17];
        let mut after = memory;
        if refusal.is_none() && *cell < 17 {
            after[*cell] = five;
        }
        let entered = idle.enter(&mut memory[..len], *cell, five);
        same(&rt, name, "enter", told(entered.err()), *refusal);
        same(&rt, name, "memory", memory, after);
        let fives = [five; 17];
        let shown = idle.look(&fives[..len], *cell, L3);
        same(&rt, name, "look", told(shown.err()), *refusal);
        let hidden = idle.look(&fives[..len], *cell, L2);
        let hidden_by = refusal.or(TOO_HIGH);
        same(&rt, name, "look from below", told(hidden.err()), hidden_by);
        same(&rt, name, "count of commands", idle.commands(), 0);
    }
    Ok(())
}

// Looks at a cell, given its label, the clearance and whether it is shown.
fn shows<L: Label + Debug + PartialEq>(
    rt: &(impl Abort + AllocGlobal),
    looks: &[(L, L, bool)],
) -> Result<(), Fail> {
    for (label, clearance, shown) in looks {
        let cell = Labelled {
            value: 9,
            label: *label,
        };
        let mut parts = Parts::blank(rt.alloc(), sizes!(1, 1, 1, 1))?;
        let idle = parts.make()?;
        idle.enter(parts.memory.as_mut_slice(), 0, cell)?;
        let expected = if *shown {
            Ok(cell)
        } else {
            Err(Refusal::Clearance)
        };
        let answer = idle.look(parts.memory.as_slice(), 0, *clearance);
        assert_eq!(rt; answer, expected, "{label} for {clearance}");
    }
    Ok(())
}

#[test]
fn cells_above_the_clearance_are_not_shown(rt: HostRuntime) -> Result<(), Fail> {
    shows(
        &rt,
        &[
            (L3, L3, true),
            (L3, L4, true),
            (L3, L2, false),
            (L0, L0, true),
            (L7, L7, true),
            (L7, L6, false),
        ],
    )?;
    let one = Growers { mask: 0x0001 };
    let other = Growers { mask: 0x0002 };
    let both = Growers { mask: 0x0003 };
    shows(
        &rt,
        &[
            (one, one, true),
            (one, both, true),
            (both, one, false),
            (one, other, false),
            (other, one, false),
        ],
    )
}

const COMMANDS: [Labelled<Level>; 3] = [labelled!(7@L0), labelled!(8@L3), labelled!(9@L1)];

// Three commands, and then the station is idle, runs on, or is shut.
static STATES: [Case<'static, Level>; 3] = [
    Case {
        name: "idle",
        program: &[
            push!(7@L0),
            Operation::Output,
            push!(8@L3),
            Operation::Output,
            push!(9@L1),
            Operation::Output,
            Operation::Halt,
        ],
        fuel: 9,
        end: End::Idle,
        steps: 6,
        log: &COMMANDS,
        ..NOTHING
    },
    Case {
        name: "running",
        program: &[
            push!(7@L0),
            Operation::Output,
            push!(8@L3),
            Operation::Output,
            push!(9@L1),
            Operation::Output,
            Operation::Noop,
        ],
        fuel: 6,
        end: End::Running(6, L0),
        steps: 6,
        log: &COMMANDS,
        ..NOTHING
    },
    Case {
        name: "shut",
        program: &[
            push!(7@L0),
            Operation::Output,
            push!(8@L3),
            Operation::Output,
            push!(9@L1),
            Operation::Output,
            Operation::Pop,
        ],
        fuel: 9,
        end: End::Shut(22, 6),
        steps: 6,
        log: &COMMANDS,
        ..NOTHING
    },
];

const OTHER_LOG: Result<Option<usize>, Refusal> = Err(Refusal::Length(Part::Log));

// How long the log handed in is where it was made for 64, the place to begin from, the clearance, and the answer.
static QUESTIONS: [(usize, usize, Level, Result<Option<usize>, Refusal>); 18] = [
    (64, 0, L0, Ok(Some(0))),
    (64, 0, L7, Ok(Some(0))),
    (64, 1, L0, Ok(None)),
    (64, 1, L1, Ok(Some(2))),
    (64, 1, L2, Ok(Some(2))),
    (64, 1, L3, Ok(Some(1))),
    (64, 1, L4, Ok(Some(1))),
    (64, 2, L0, Ok(None)),
    (64, 2, L1, Ok(Some(2))),
    (64, 3, L7, Ok(None)),
    (64, 4, L7, Ok(None)),
    (64, 64, L7, Ok(None)),
    (64, 65, L7, Ok(None)),
    (64, usize::MAX, L7, Ok(None)),
    (63, 0, L7, OTHER_LOG),
    (65, 0, L7, OTHER_LOG),
    (63, 3, L7, OTHER_LOG),
    (65, 64, L7, OTHER_LOG),
];

#[test]
fn next_commands_are_found_in_every_state(rt: HostRuntime) -> Result<(), Fail> {
    let mut log = [labelled!(0@L0); 65];
    log[..3].copy_from_slice(&COMMANDS);
    for case in &STATES {
        let station = case.run(&rt, &mut Direct::new::<Level>())?;
        let name = case.name;
        for (len, from, clearance, answer) in &QUESTIONS {
            let next = station.next_command(&log[..(*len).min(65)], *from, *clearance);
            assert_eq!(rt;
                next,
                *answer,
                "{name}: from {from} for {clearance} in {len}"
            );
            assert_eq!(rt; station.commands(), 3, "{name}");
        }
    }
    Ok(())
}

// Parts that are each one longer than the station's own, to hand in so much of.
#[derive(Clone, Copy, Debug, PartialEq)]
struct Longer {
    program: [Operation<Level>; 5],
    memory: [Labelled<Level>; 3],
    stack: [Entry<Level>; 4],
    log: [Labelled<Level>; 6],
}

const LONGER: Longer = Longer {
    program: [
        push!(7@L1),
        Operation::Output,
        Operation::Noop,
        Operation::Noop,
        Operation::Noop,
    ],
    memory: [labelled!(0@L0); 3],
    stack: [number!(0@L0); 4],
    log: [labelled!(0@L0); 6],
};

const MADE: Sizes = sizes!(4, 2, 3, 5);

// The lengths of the parts handed in, and the first that is refused.
static HANDED: [(Sizes, Part); 13] = [
    (sizes!(3, 2, 3, 5), Part::Program),
    (sizes!(5, 2, 3, 5), Part::Program),
    (sizes!(4, 1, 3, 5), Part::Memory),
    (sizes!(4, 3, 3, 5), Part::Memory),
    (sizes!(4, 2, 2, 5), Part::Stack),
    (sizes!(4, 2, 4, 5), Part::Stack),
    (sizes!(4, 2, 3, 4), Part::Log),
    (sizes!(4, 2, 3, 6), Part::Log),
    (sizes!(5, 1, 3, 5), Part::Program),
    (sizes!(3, 2, 3, 6), Part::Program),
    (sizes!(4, 3, 2, 5), Part::Memory),
    (sizes!(4, 2, 4, 4), Part::Stack),
    (sizes!(3, 1, 2, 4), Part::Program),
];

impl Longer {
    fn go<P: Policy<Level>>(
        &mut self,
        sizes: Sizes,
        running: Running<Level>,
        policy: &mut P,
    ) -> Result<Gone<Level>, Refused<Level>> {
        let memory = &mut self.memory[..];
        let stack = &mut self.stack[..];
        let log = &mut self.log[..];
        running.go(
            &self.program[..sizes.program.min(5)],
            &mut memory[..sizes.memory.min(3)],
            &mut stack[..sizes.stack.min(4)],
            &mut log[..sizes.log.min(6)],
            policy,
            1,
        )
    }
}

// A go that is refused changes and asks nothing, and the station that it gives back goes on.
#[test]
fn goes_with_other_parts_are_refused(rt: HostRuntime) -> Result<(), Fail> {
    for (sizes, part) in &HANDED {
        let name = format!(in rt.alloc(); "{sizes:?}")?;
        let name = name.as_str();
        let mut policy = Fickle {
            allowed: 2,
            asked: 0,
        };
        let mut parts = LONGER;
        let idle = Idle::make(
            &parts.program[..4],
            &parts.memory[..2],
            &parts.stack[..3],
            &parts.log[..5],
        )?;
        let running = still_running(parts.go(MADE, idle.start(), &mut policy)?)?;
        let registers = running.registers();
        let before = parts;
        let Err(Refused { why, station }) = parts.go(*sizes, running, &mut policy) else {
            return Err(Fail::new("the go was not refused"));
        };
        let refusal = Some((Refusal::Length(*part), 2));
        same(&rt, name, "refusal", told(Some(why)), refusal);
        same(&rt, name, "registers", station.registers(), registers);
        same(&rt, name, "parts", parts, before);
        same(&rt, name, "askings", policy.asked, 1);
        let running = still_running(parts.go(MADE, station, &mut policy)?)?;
        let registers = running.registers();
        let after = Registers {
            pc: 2,
            pc_label: L0,
            depth: 0,
            ..registers
        };
        same(&rt, name, "registers after", registers, after);
        same(&rt, name, "commands after", registers.window.count(), 1);
        same(&rt, name, "command after", parts.log[0], labelled!(7@L1));
        same(&rt, name, "askings after", policy.asked, 2);
    }
    Ok(())
}

// A round that logs a command and leaves a number.
const ROUND: [Operation<Level>; 4] = [push!(7@L0), Operation::Output, push!(1@L0), Operation::Halt];

// The stack begins empty in each round, and the log goes on until it is full.
#[test]
fn rounds_fill_the_log(rt: HostRuntime) -> Result<(), Fail> {
    let mut policy = Direct::new::<Level>();
    let mut parts = Parts::of(rt.alloc(), &ROUND, NOTHING.memory)?;
    let mut idle = parts.make()?;
    for commands in 0..64 {
        let running = idle.start();
        let registers = running.registers();
        let begun = Registers {
            pc: 0,
            pc_label: L0,
            depth: 0,
            ..registers
        };
        same(&rt, "a round", "registers", registers, begun);
        same(
            &rt,
            "a round",
            "commands",
            registers.window.count(),
            commands,
        );
        let gone = parts.go(running, &mut policy, 9)?;
        same(&rt, "a round", "steps", gone.steps, 3);
        let Station::Idle(after) = gone.station else {
            return Err(Fail::new("the round is not finished"));
        };
        idle = after;
    }
    let gone = parts.go(idle.start(), &mut policy, 9)?;
    let full = Case {
        name: "27: output in round 65",
        end: End::Shut(27, 1),
        steps: 1,
        stack: &[number!(7@L0)],
        log: &[labelled!(7@L0); 64],
        ..NOTHING
    };
    full.compare(&rt, &gone, &parts);
    Ok(())
}

// The fuel of a go, and the place from where the station runs on.
static GOES: [(u32, i64); 5] = [(40, 40), (0, 40), (1, 41), (58, 99), (0, 99)];

#[test]
fn goes_take_as_many_steps_as_they_have_fuel(rt: HostRuntime) -> Result<(), Fail> {
    let mut policy = Direct::new::<Level>();
    let mut parts = Parts::of(rt.alloc(), &[Operation::Noop; 100], NOTHING.memory)?;
    let mut running = parts.make()?.start();
    for (fuel, place) in &GOES {
        let gone = parts.go(running, &mut policy, *fuel)?;
        let case = Case {
            name: "a go",
            end: End::Running(*place, L0),
            steps: *fuel,
            ..NOTHING
        };
        case.compare(&rt, &gone, &parts);
        running = still_running(gone)?;
    }
    let gone = parts.go(running, &mut policy, u32::MAX)?;
    let rest = Case {
        name: "the last go",
        end: End::Shut(21, 100),
        steps: 1,
        ..NOTHING
    };
    rest.compare(&rt, &gone, &parts);
    Ok(())
}
