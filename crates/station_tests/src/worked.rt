// Worked steps, each reached by a program. n@l is the number n with the level l.
use crate::fixture::{Case, End, NOTHING, call, frame, labelled, number, push};
use labels::Level::{self, L0, L1, L2, L3, L5};
use machine::Operation;
use rules::Direct;
use std::test::Fail;

static STEPS: [Case<'static, Level>; 20] = [
    Case {
        name: "add on 2@5, 3@0",
        program: &[push!(3@L0), push!(2@L5), Operation::Add, Operation::Noop],
        fuel: 3,
        end: End::Running(3, L0),
        steps: 3,
        stack: &[number!(5@L5)],
        ..NOTHING
    },
    Case {
        name: "add on 1@0, 2147483647@0",
        program: &[
            push!(2147483647@L0),
            push!(1@L0),
            Operation::Add,
            Operation::Noop,
        ],
        fuel: 3,
        end: End::Running(3, L0),
        steps: 3,
        stack: &[number!(-2147483648@L0)],
        ..NOTHING
    },
    Case {
        name: "sub on 2@5, 3@0",
        program: &[push!(3@L0), push!(2@L5), Operation::Sub, Operation::Noop],
        fuel: 3,
        end: End::Running(3, L0),
        steps: 3,
        stack: &[number!(1@L5)],
        ..NOTHING
    },
    Case {
        name: "less on 3@0, 5@0",
        program: &[push!(5@L0), push!(3@L0), Operation::Less, Operation::Noop],
        fuel: 3,
        end: End::Running(3, L0),
        steps: 3,
        stack: &[number!(0@L0)],
        ..NOTHING
    },
    Case {
        name: "less on 5@0, 3@0",
        program: &[push!(3@L0), push!(5@L0), Operation::Less, Operation::Noop],
        fuel: 3,
        end: End::Running(3, L0),
        steps: 3,
        stack: &[number!(1@L0)],
        ..NOTHING
    },
    Case {
        name: "load at 1@5 of 9@0",
        program: &[push!(1@L5), Operation::Load, Operation::Noop],
        memory: &[labelled!(0@L0), labelled!(9@L0)],
        fuel: 2,
        end: End::Running(2, L0),
        steps: 2,
        cells: &[labelled!(0@L0), labelled!(9@L0)],
        stack: &[number!(9@L5)],
        ..NOTHING
    },
    Case {
        name: "store of 0@2, 8@0 at P = 1 over 4@5",
        program: &[
            push!(2@L1),
            Operation::Jump,
            push!(8@L0),
            push!(0@L2),
            Operation::Store,
            Operation::Noop,
        ],
        memory: &[labelled!(4@L5)],
        fuel: 5,
        end: End::Running(5, L1),
        steps: 5,
        cells: &[labelled!(8@L2)],
        ..NOTHING
    },
    Case {
        name: "store of 0@2, 8@0 at P = 1 over 4@2",
        program: &[
            push!(2@L1),
            Operation::Jump,
            push!(8@L0),
            push!(0@L2),
            Operation::Store,
            Operation::Noop,
        ],
        memory: &[labelled!(4@L2)],
        fuel: 5,
        end: End::Running(5, L1),
        steps: 5,
        cells: &[labelled!(8@L2)],
        ..NOTHING
    },
    Case {
        name: "store of 0@2, 8@0 at P = 1 over 4@1",
        program: &[
            push!(2@L1),
            Operation::Jump,
            push!(8@L0),
            push!(0@L2),
            Operation::Store,
            Operation::Noop,
        ],
        memory: &[labelled!(4@L1)],
        fuel: 5,
        end: End::Shut(25, 4),
        steps: 4,
        cells: &[labelled!(4@L1)],
        stack: &[number!(8@L0), number!(0@L2)],
        ..NOTHING
    },
    Case {
        name: "bnz -4 at place 4 on 1@3",
        program: &[
            Operation::Noop,
            Operation::Noop,
            Operation::Noop,
            push!(1@L3),
            Operation::Bnz(-4),
        ],
        fuel: 5,
        end: End::Running(0, L3),
        steps: 5,
        ..NOTHING
    },
    Case {
        name: "bnz -4 at place 4 on 0@3",
        program: &[
            Operation::Noop,
            Operation::Noop,
            Operation::Noop,
            push!(0@L3),
            Operation::Bnz(-4),
            Operation::Noop,
        ],
        fuel: 5,
        end: End::Running(5, L3),
        steps: 5,
        ..NOTHING
    },
    Case {
        name: "call 1 1 at place 2 on 6@5, 1@0",
        program: &[
            push!(1@L0),
            push!(6@L5),
            call!(1, true),
            Operation::Noop,
            Operation::Noop,
            Operation::Noop,
            Operation::Noop,
        ],
        fuel: 3,
        end: End::Running(6, L5),
        steps: 3,
        stack: &[frame!((3, true)@L0), number!(1@L0)],
        ..NOTHING
    },
    Case {
        name: "return at P = 5 on 1@0, 4@0, frame (3, due)@0, 9@0",
        program: &[
            push!(9@L0),
            push!(4@L5),
            call!(0, true),
            Operation::Noop,
            push!(4@L0),
            push!(1@L0),
            Operation::Return,
        ],
        fuel: 6,
        end: End::Running(3, L0),
        steps: 6,
        stack: &[number!(9@L0), number!(1@L5)],
        ..NOTHING
    },
    Case {
        name: "return on frame (3, due)@0",
        program: &[
            Operation::Noop,
            push!(4@L0),
            call!(0, true),
            Operation::Noop,
            Operation::Return,
        ],
        fuel: 9,
        end: End::Shut(22, 4),
        steps: 3,
        stack: &[frame!((3, true)@L0)],
        ..NOTHING
    },
    Case {
        name: "pop on a frame",
        program: &[
            Operation::Noop,
            push!(4@L0),
            call!(0, true),
            Operation::Noop,
            Operation::Pop,
        ],
        fuel: 9,
        end: End::Shut(22, 4),
        steps: 3,
        stack: &[frame!((3, true)@L0)],
        ..NOTHING
    },
    Case {
        name: "halt at P = 0",
        program: &[Operation::Noop, Operation::Halt],
        fuel: 9,
        end: End::Idle,
        steps: 1,
        ..NOTHING
    },
    Case {
        name: "halt at P = 0 without fuel",
        program: &[Operation::Halt],
        fuel: 0,
        end: End::Idle,
        steps: 0,
        ..NOTHING
    },
    Case {
        name: "halt at P = 1",
        program: &[push!(2@L1), Operation::Jump, Operation::Halt],
        fuel: 9,
        end: End::Shut(28, 2),
        steps: 2,
        ..NOTHING
    },
    Case {
        name: "halt at P = 1 without fuel",
        program: &[push!(2@L1), Operation::Jump, Operation::Halt],
        fuel: 2,
        end: End::Shut(28, 2),
        steps: 2,
        ..NOTHING
    },
    Case {
        name: "output of 7@1 at P = 2",
        program: &[
            push!(2@L2),
            Operation::Jump,
            push!(7@L1),
            Operation::Output,
            Operation::Noop,
        ],
        fuel: 4,
        end: End::Running(4, L2),
        steps: 4,
        log: &[labelled!(7@L2)],
        ..NOTHING
    },
];

#[test]
fn steps_are_as_worked(rt: HostRuntime) -> Result<(), Fail> {
    for case in &STEPS {
        case.run(&rt, &mut Direct::new::<Level>())?;
    }
    Ok(())
}
