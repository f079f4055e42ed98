// Stops at their edges and operations done just inside them, and what every part holds after.
use crate::fixture::{Case, End, NOTHING, call, frame, labelled, number, push};
use labels::Level::{self, L0, L1, L2, L7};
use machine::Operation;
use rules::Direct;
use std::test::Fail;

static STOPS: [Case<'static, Level>; 41] = [
    Case {
        name: "21: jump to the length of the program",
        program: &[push!(2@L0), Operation::Jump],
        fuel: 9,
        end: End::Shut(21, 2),
        steps: 2,
        ..NOTHING
    },
    Case {
        name: "21 comes before the want of fuel",
        program: &[push!(2@L0), Operation::Jump],
        fuel: 2,
        end: End::Shut(21, 2),
        steps: 2,
        ..NOTHING
    },
    Case {
        name: "jump to the last place",
        program: &[push!(1@L0), Operation::Jump],
        fuel: 2,
        end: End::Running(1, L0),
        steps: 2,
        ..NOTHING
    },
    Case {
        name: "21: jump to -1",
        program: &[push!(-1@L0), Operation::Jump],
        fuel: 9,
        end: End::Shut(21, -1),
        steps: 2,
        ..NOTHING
    },
    Case {
        name: "jump to 0",
        program: &[push!(0@L0), Operation::Jump],
        fuel: 2,
        end: End::Running(0, L0),
        steps: 2,
        ..NOTHING
    },
    Case {
        name: "21: running off the end",
        program: &[Operation::Noop],
        fuel: 9,
        end: End::Shut(21, 1),
        steps: 1,
        ..NOTHING
    },
    Case {
        name: "21: running off the end of a hundred with all the fuel there is",
        program: &[Operation::Noop; 100],
        fuel: u32::MAX,
        end: End::Shut(21, 100),
        steps: 100,
        ..NOTHING
    },
    Case {
        name: "21: branch to -1",
        program: &[push!(1@L0), Operation::Bnz(-2)],
        fuel: 9,
        end: End::Shut(21, -1),
        steps: 2,
        ..NOTHING
    },
    Case {
        name: "21: branch as far up as there is",
        program: &[push!(1@L0), Operation::Bnz(i32::MAX)],
        fuel: 9,
        end: End::Shut(21, 2147483648),
        steps: 2,
        ..NOTHING
    },
    Case {
        name: "21: branch as far down as there is",
        program: &[push!(1@L0), Operation::Bnz(i32::MIN)],
        fuel: 9,
        end: End::Shut(21, -2147483647),
        steps: 2,
        ..NOTHING
    },
    Case {
        name: "21: call of the length of the program",
        program: &[push!(2@L0), call!(0, false)],
        fuel: 9,
        end: End::Shut(21, 2),
        steps: 2,
        stack: &[frame!((2, false)@L0)],
        ..NOTHING
    },
    Case {
        name: "21: return to a call at the last place",
        program: &[
            push!(3@L0),
            Operation::Jump,
            Operation::Return,
            push!(2@L0),
            call!(0, false),
        ],
        fuel: 9,
        end: End::Shut(21, 5),
        steps: 5,
        ..NOTHING
    },
    Case {
        name: "23: the 65th push",
        program: &[push!(1@L0); 65],
        fuel: 99,
        end: End::Shut(23, 64),
        steps: 64,
        stack: &[number!(1@L0); 64],
        ..NOTHING
    },
    Case {
        name: "the 64th push",
        program: &[push!(1@L0); 65],
        fuel: 64,
        end: End::Running(64, L0),
        steps: 64,
        stack: &[number!(1@L0); 64],
        ..NOTHING
    },
    Case {
        name: "23: push on 64 frames, of which the last was made on a full stack",
        program: &[push!(0@L0), call!(0, false)],
        fuel: 999,
        end: End::Shut(23, 0),
        steps: 128,
        stack: &[frame!((2, false)@L0); 64],
        ..NOTHING
    },
    Case {
        name: "24: load of -1",
        program: &[push!(-1@L0), Operation::Load],
        fuel: 9,
        end: End::Shut(24, 1),
        steps: 1,
        stack: &[number!(-1@L0)],
        ..NOTHING
    },
    Case {
        name: "24: load of the memory's length",
        program: &[push!(2@L0), Operation::Load],
        fuel: 9,
        end: End::Shut(24, 1),
        steps: 1,
        stack: &[number!(2@L0)],
        ..NOTHING
    },
    Case {
        name: "load of the last cell",
        program: &[push!(1@L0), Operation::Load, Operation::Noop],
        memory: &[labelled!(3@L0), labelled!(4@L1)],
        fuel: 2,
        end: End::Running(2, L0),
        steps: 2,
        cells: &[labelled!(3@L0), labelled!(4@L1)],
        stack: &[number!(4@L1)],
        ..NOTHING
    },
    Case {
        name: "24: store to -1",
        program: &[push!(8@L0), push!(-1@L0), Operation::Store],
        fuel: 9,
        end: End::Shut(24, 2),
        steps: 2,
        stack: &[number!(8@L0), number!(-1@L0)],
        ..NOTHING
    },
    Case {
        name: "24: store to the memory's length",
        program: &[push!(8@L0), push!(2@L0), Operation::Store],
        fuel: 9,
        end: End::Shut(24, 2),
        steps: 2,
        stack: &[number!(8@L0), number!(2@L0)],
        ..NOTHING
    },
    Case {
        name: "store to the last cell",
        program: &[push!(8@L0), push!(1@L0), Operation::Store, Operation::Noop],
        fuel: 3,
        end: End::Running(3, L0),
        steps: 3,
        cells: &[labelled!(0@L0), labelled!(8@L0)],
        ..NOTHING
    },
    Case {
        name: "24 comes before 25",
        program: &[push!(8@L0), push!(2@L1), Operation::Store],
        fuel: 9,
        end: End::Shut(24, 2),
        steps: 2,
        stack: &[number!(8@L0), number!(2@L1)],
        ..NOTHING
    },
    Case {
        name: "25: store at P = 1 over 0@0, after one that was done",
        program: &[
            push!(8@L0),
            push!(1@L0),
            Operation::Store,
            push!(5@L1),
            Operation::Jump,
            push!(9@L0),
            push!(0@L0),
            Operation::Store,
        ],
        fuel: 9,
        end: End::Shut(25, 7),
        steps: 7,
        cells: &[labelled!(0@L0), labelled!(8@L0)],
        stack: &[number!(9@L0), number!(0@L0)],
        ..NOTHING
    },
    Case {
        name: "store at P = 1 over 0@1",
        program: &[
            push!(2@L1),
            Operation::Jump,
            push!(8@L0),
            push!(0@L0),
            Operation::Store,
            Operation::Noop,
        ],
        memory: &[labelled!(0@L1)],
        fuel: 5,
        end: End::Running(5, L1),
        steps: 5,
        cells: &[labelled!(8@L1)],
        ..NOTHING
    },
    Case {
        name: "25: store of 0@1 over 0@0",
        program: &[push!(8@L0), push!(0@L1), Operation::Store],
        fuel: 9,
        end: End::Shut(25, 2),
        steps: 2,
        stack: &[number!(8@L0), number!(0@L1)],
        ..NOTHING
    },
    Case {
        name: "store of 0@1 over 0@1",
        program: &[push!(8@L0), push!(0@L1), Operation::Store, Operation::Noop],
        memory: &[labelled!(0@L1)],
        fuel: 3,
        end: End::Running(3, L0),
        steps: 3,
        cells: &[labelled!(8@L1)],
        ..NOTHING
    },
    Case {
        name: "store of a number above the cell",
        program: &[push!(8@L7), push!(0@L0), Operation::Store, Operation::Noop],
        memory: &[labelled!(0@L0)],
        fuel: 3,
        end: End::Running(3, L0),
        steps: 3,
        cells: &[labelled!(8@L7)],
        ..NOTHING
    },
    Case {
        name: "26: return on an empty stack",
        program: &[Operation::Return],
        fuel: 9,
        end: End::Shut(26, 0),
        steps: 0,
        ..NOTHING
    },
    Case {
        name: "26: return on numbers",
        program: &[push!(1@L0), push!(2@L0), Operation::Return],
        fuel: 9,
        end: End::Shut(26, 2),
        steps: 2,
        stack: &[number!(1@L0), number!(2@L0)],
        ..NOTHING
    },
    Case {
        name: "26: return once more",
        program: &[
            push!(3@L0),
            call!(0, false),
            Operation::Return,
            Operation::Return,
        ],
        fuel: 9,
        end: End::Shut(26, 2),
        steps: 3,
        ..NOTHING
    },
    Case {
        name: "return on a frame where no result is due",
        program: &[
            push!(3@L0),
            call!(0, false),
            Operation::Noop,
            Operation::Return,
        ],
        fuel: 3,
        end: End::Running(2, L0),
        steps: 3,
        ..NOTHING
    },
    Case {
        name: "22: return on a frame where a result is due",
        program: &[
            push!(1@L0),
            push!(4@L0),
            call!(0, true),
            Operation::Noop,
            Operation::Return,
        ],
        fuel: 9,
        end: End::Shut(22, 4),
        steps: 3,
        stack: &[number!(1@L0), frame!((3, true)@L0)],
        ..NOTHING
    },
    Case {
        name: "27: the 65th output",
        program: &[push!(7@L0), Operation::Output, push!(0@L0), Operation::Jump],
        fuel: 999,
        end: End::Shut(27, 1),
        steps: 257,
        stack: &[number!(7@L0)],
        log: &[labelled!(7@L0); 64],
        ..NOTHING
    },
    Case {
        name: "the 64th output",
        program: &[push!(7@L0), Operation::Output, push!(0@L0), Operation::Jump],
        fuel: 254,
        end: End::Running(2, L0),
        steps: 254,
        log: &[labelled!(7@L0); 64],
        ..NOTHING
    },
    Case {
        name: "22 comes before 27: output on an empty stack after 64, which cell 0 counts down",
        program: &[
            push!(7@L0),
            Operation::Output,
            push!(0@L0),
            Operation::Load,
            push!(1@L0),
            Operation::Sub,
            push!(0@L0),
            Operation::Store,
            push!(0@L0),
            Operation::Load,
            Operation::Bnz(-10),
            Operation::Output,
        ],
        memory: &[labelled!(64@L0)],
        fuel: 999,
        end: End::Shut(22, 11),
        steps: 704,
        cells: &[labelled!(0@L0)],
        log: &[labelled!(7@L0); 64],
        ..NOTHING
    },
    Case {
        name: "28: halt at P = 1",
        program: &[push!(2@L1), Operation::Jump, Operation::Halt],
        fuel: 9,
        end: End::Shut(28, 2),
        steps: 2,
        ..NOTHING
    },
    Case {
        name: "28 comes before the want of fuel",
        program: &[push!(2@L1), Operation::Jump, Operation::Halt],
        fuel: 2,
        end: End::Shut(28, 2),
        steps: 2,
        ..NOTHING
    },
    Case {
        name: "halt at P = 0 after a jump",
        program: &[push!(2@L0), Operation::Jump, Operation::Halt],
        fuel: 9,
        end: End::Idle,
        steps: 2,
        ..NOTHING
    },
    Case {
        name: "halt without fuel",
        program: &[push!(2@L0), Operation::Jump, Operation::Halt],
        fuel: 2,
        end: End::Idle,
        steps: 2,
        ..NOTHING
    },
    Case {
        name: "halt on what is left of a call",
        program: &[push!(1@L0), push!(3@L0), call!(0, true), Operation::Halt],
        fuel: 9,
        end: End::Idle,
        steps: 3,
        stack: &[number!(1@L0), frame!((3, true)@L0)],
        ..NOTHING
    },
    Case {
        name: "no fuel",
        program: &[push!(7@L0)],
        fuel: 0,
        end: End::Running(0, L0),
        steps: 0,
        ..NOTHING
    },
];

// The stop of an operation on one number too few, a zero for each that there is.
macro_rules! too_few {
    ($name:literal, $operation:expr, [$($zero:literal),*], $place:literal) => {
        Case {
            name: $name,
            program: &[$(push!($zero@L0),)* $operation],
            fuel: 99,
            end: End::Shut(22, $place),
            steps: $place,
            stack: &[$(number!($zero@L0)),*],
            ..NOTHING
        }
    };
}

// The same above a frame, with a number below it.
macro_rules! too_few_above_a_frame {
    ($name:literal, $operation:expr, [$($zero:literal),*], $place:literal) => {
        Case {
            name: $name,
            program: &[
                push!(1@L0),
                push!(3@L0),
                call!(0, false),
                $(push!($zero@L0),)*
                $operation
            ],
            fuel: 99,
            end: End::Shut(22, $place),
            steps: $place,
            stack: &[number!(1@L0), frame!((3, false)@L0) $(, number!($zero@L0))*],
            ..NOTHING
        }
    };
}

static TOO_FEW: [Case<'static, Level>; 24] = [
    too_few!("22: pop", Operation::Pop, [], 0),
    too_few!("22: add", Operation::Add, [0], 1),
    too_few!("22: sub", Operation::Sub, [0], 1),
    too_few!("22: less", Operation::Less, [0], 1),
    too_few!("22: load", Operation::Load, [], 0),
    too_few!("22: store", Operation::Store, [0], 1),
    too_few!("22: jump", Operation::Jump, [], 0),
    too_few!("22: bnz", Operation::Bnz(1), [], 0),
    too_few!("22: call 0", call!(0, false), [], 0),
    too_few!("22: call 1", call!(1, false), [0], 1),
    too_few!("22: call 2", call!(2, true), [0, 0], 2),
    too_few!("22: output", Operation::Output, [], 0),
    too_few_above_a_frame!("22: pop above a frame", Operation::Pop, [], 3),
    too_few_above_a_frame!("22: add above a frame", Operation::Add, [0], 4),
    too_few_above_a_frame!("22: sub above a frame", Operation::Sub, [0], 4),
    too_few_above_a_frame!("22: less above a frame", Operation::Less, [0], 4),
    too_few_above_a_frame!("22: load above a frame", Operation::Load, [], 3),
    too_few_above_a_frame!("22: store above a frame", Operation::Store, [0], 4),
    too_few_above_a_frame!("22: jump above a frame", Operation::Jump, [], 3),
    too_few_above_a_frame!("22: bnz above a frame", Operation::Bnz(1), [], 3),
    too_few_above_a_frame!("22: call 0 above a frame", call!(0, false), [], 3),
    too_few_above_a_frame!("22: call 1 above a frame", call!(1, false), [0], 4),
    too_few_above_a_frame!("22: call 2 above a frame", call!(2, true), [0, 0], 5),
    too_few_above_a_frame!("22: output above a frame", Operation::Output, [], 3),
];

static ENOUGH: [Case<'static, Level>; 4] = [
    Case {
        name: "pop on a number",
        program: &[push!(1@L0), Operation::Pop, Operation::Noop],
        fuel: 2,
        end: End::Running(2, L0),
        steps: 2,
        ..NOTHING
    },
    Case {
        name: "pop on a number above a frame",
        program: &[
            push!(3@L0),
            call!(0, false),
            Operation::Noop,
            push!(1@L0),
            Operation::Pop,
            Operation::Noop,
        ],
        fuel: 4,
        end: End::Running(5, L0),
        steps: 4,
        stack: &[frame!((2, false)@L0)],
        ..NOTHING
    },
    Case {
        name: "call 0 on a number",
        program: &[push!(0@L0), call!(0, true)],
        fuel: 2,
        end: End::Running(0, L0),
        steps: 2,
        stack: &[frame!((2, true)@L0)],
        ..NOTHING
    },
    Case {
        name: "call 2 on three numbers",
        program: &[push!(5@L1), push!(6@L2), push!(0@L0), call!(2, true)],
        fuel: 4,
        end: End::Running(0, L0),
        steps: 4,
        stack: &[frame!((4, true)@L0), number!(5@L1), number!(6@L2)],
        ..NOTHING
    },
];

#[test]
fn rounds_are_stopped_at_their_edges(rt: HostRuntime) -> Result<(), Fail> {
    for case in &STOPS {
        case.run(&rt, &mut Direct::new::<Level>())?;
    }
    for case in &TOO_FEW {
        case.run(&rt, &mut Direct::new::<Level>())?;
    }
    for case in &ENOUGH {
        case.run(&rt, &mut Direct::new::<Level>())?;
    }
    Ok(())
}
