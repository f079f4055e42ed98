// Two stations of levels, each with the calls of a round, as an observer at level 1 is told of them.
use compare::{Compared, Exchange, Lent, Looks, Plan, Report, Unmade, compare};
use labels::Level;
use labels::Level::{L0, L1, L2};
use machine::{Call, Entry, Labelled, Operation, Part, Refusal};
use rules::{Cached, Direct, RowTable};
use sites::{Parts, Reply};
use std::alloc::{AllocError, Global};
use std::test::Fail;

const fn at(value: i32, label: Level) -> Labelled<Level> {
    Labelled { value, label }
}

// Puts out what is in cell 0 and what is in cell 1.
fn program(heap: Global) -> Result<Vec<Operation<Level>>, AllocError> {
    let operations = vec![in heap;
        Operation::Push(at(0, L0)),
        Operation::Load,
        Operation::Output,
        Operation::Push(at(1, L0)),
        Operation::Load,
        Operation::Output,
        Operation::Halt,
    ]?;
    Ok(operations)
}

fn parts(heap: Global, cells: usize) -> Result<Parts<Level>, AllocError> {
    Ok(Parts {
        program: program(heap)?,
        memory: vec![in heap; at(0, L0); cells]?,
        stack: vec![in heap; Entry::Number(at(0, L0)); 4]?,
        log: vec![in heap; at(0, L0); 4]?,
    })
}

// A round on what is entered into cell 0, at level 1, and into cell 1, at level 2.
fn round(heap: Global, open: i32, hidden: i32) -> Result<Vec<Exchange<Level>>, AllocError> {
    let calls = vec![in heap;
        Exchange::of(Call::Enter {
            cell: 0,
            number: at(open, L1)
        }),
        Exchange::of(Call::Enter {
            cell: 1,
            number: at(hidden, L2)
        }),
        Exchange::of(Call::Start),
        Exchange::of(Call::Go { fuel: 100 }),
    ]?;
    Ok(calls)
}

fn plan(
    heap: Global,
    cells: usize,
    exchanges: Vec<Exchange<Level>>,
) -> Result<Plan<Direct, Level>, AllocError> {
    Ok(Plan {
        parts: parts(heap, cells)?,
        policy: Direct::new::<Level>(),
        exchanges,
    })
}

// What the observer is told where nothing differs and every look has the same answer.
const ALIKE: Report = Report {
    programs: None,
    memories: None,
    calls: None,
    commands: None,
    looks: Looks::Same,
};

fn told<P: Drop, Q: Drop, L: Drop>(
    compared: Result<Compared<P, Q, L>, Unmade>,
) -> Result<Report, Unmade> {
    compared.map(|compared| compared.report)
}

// The same calls on two stations, which hold other numbers above the observer's level, under two policies.
#[test]
fn hidden_numbers_differ(rt: HostRuntime) -> Result<(), Fail> {
    let heap = rt.alloc();
    let one = plan(heap, 2, round(heap, 40, 1)?)?;
    let two = Plan {
        parts: parts(heap, 2)?,
        policy: Cached::new(RowTable::new::<Level>()),
        exchanges: round(heap, 40, 2)?,
    };
    assert_eq!(rt; told(compare(L1, one, two)), Ok(ALIKE));
    Ok(())
}

// A number at the level differs: that is told of the calls, the commands and the looks.
#[test]
fn open_numbers_differ(rt: HostRuntime) -> Result<(), Fail> {
    let heap = rt.alloc();
    let one = plan(heap, 2, round(heap, 40, 1)?)?;
    let two = plan(heap, 2, round(heap, 41, 1)?)?;
    let differ = Report {
        calls: Some(0),
        commands: Some(0),
        looks: Looks::DifferAt(0),
        ..ALIKE
    };
    assert_eq!(rt; told(compare(L1, one, two)), Ok(differ));
    Ok(())
}

// One station has a cell more and an operation less, and its round does not come to its end.
#[test]
fn stations_differ(rt: HostRuntime) -> Result<(), Fail> {
    let heap = rt.alloc();
    let one = plan(heap, 2, round(heap, 40, 1)?)?;
    let mut two = plan(heap, 3, round(heap, 40, 1)?)?;
    let _halt = two.parts.program.pop();
    let differ = Report {
        programs: Some(6),
        memories: Some(2),
        looks: Looks::NotDue,
        ..ALIKE
    };
    assert_eq!(rt; told(compare(L1, one, two)), Ok(differ));
    Ok(())
}

// An enter that hands in one cell of two is refused, and does not count; one that hands in two cells of
// others is not made.
#[test]
fn others_parts_are_handed_in(rt: HostRuntime) -> Result<(), Fail> {
    let heap = rt.alloc();
    let enter = Call::Enter {
        cell: 0,
        number: at(7, L0),
    };
    let mut exchanges = round(heap, 40, 1)?;
    for cells in 1..=2 {
        exchanges.push(Exchange {
            call: enter,
            lent: Lent::Others(parts(heap, cells)?),
            reply: None,
        })?;
    }
    let one = plan(heap, 2, exchanges)?;
    let two = plan(heap, 2, round(heap, 40, 2)?)?;
    let compared = compare(L1, one, two);
    let Ok(Compared { one, report, .. }) = compared else {
        return Err(Fail::new("a station could not be made"));
    };
    assert_eq!(rt; report, ALIKE);
    let replies = one.exchanges.as_slice().get(4..).unwrap_or(&[]);
    let refused = Some(Reply::Refused(Refusal::Length(Part::Memory)));
    assert_eq!(rt; replies.first().and_then(|told| told.reply), refused);
    assert_eq!(rt;
        replies.last().and_then(|told| told.reply),
        Some(Reply::NotLent)
    );
    Ok(())
}

// A station that cannot be made is told, the first before the second.
#[test]
fn stations_are_not_made(rt: HostRuntime) -> Result<(), Fail> {
    let heap = rt.alloc();
    for (one, two, unmade) in [
        (2, 0, Unmade::Second(Refusal::Limits(Part::Memory))),
        (0, 0, Unmade::First(Refusal::Limits(Part::Memory))),
    ] {
        let one = plan(heap, one, round(heap, 40, 1)?)?;
        let two = plan(heap, two, round(heap, 40, 1)?)?;
        assert_eq!(rt; told(compare(L1, one, two)), Err(unmade));
    }
    Ok(())
}
