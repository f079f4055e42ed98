// The C functions. A slice is passed as a pointer and then a length; the heap takes no argument.
ghost use Rattle.std.specs.Prelude.{◌≡◌, ◌⊎◌};
ghost use Rattle.boundary.specs.Exports.{Chosen, CodesNoReport, Comparison, ReportsAs, RunsAll};
ghost use Rattle.boundary.specs.Exports.{RunsLists, fault_end, written};

use crate::calls::{CallCode, ReplyCode, refused_part};
use crate::choices::PolicyCode;
use crate::faults::Fault;
use crate::kinds::KindCode;
use crate::parts::{EntryCode, NumberCode, OperationCode};
use crate::plans::{BLANK, End, PlanCode, RanCode};
use crate::reports::{self, ReportCode};
use compare::Unmade;
use std::alloc::Global;

/// Makes a station of the parts, makes the calls on it, and leaves the parts, the replies and the end as
/// these leave them. Where that is not done the end says why, and all else stays as it was.
#[unsafe(no_mangle)]
pub extern "C" fn senggubat_run(
    heap: Global,
    kind: u32,
    policy: u32,
    program: &[OperationCode],
    memory: &mut [NumberCode],
    stack: &mut [EntryCode],
    log: &mut [NumberCode],
    calls: &[CallCode],
    replies: &mut [ReplyCode],
    end: &mut End,
)
    ensures { RunsLists kind policy program.now calls.now
        (record { memory = memory.old; stack = stack.old; log = log.old; replies = replies.old })
        (record { memory = memory.new; stack = stack.new; log = log.new; replies = replies.new })
        end.new }
{
    let plan = PlanCode {
        program,
        memory,
        stack,
        log,
        calls,
    };
    match run(heap, kind, policy, plan, replies.len()) {
        Ok(ran) => {
            write_over(memory, ran.memory.as_slice());
            write_over(stack, ran.stack.as_slice());
            write_over(log, ran.commands.as_slice());
            write_over(replies, ran.replies.as_slice());
            *end = ran.end;
        }
        Err(fault) => *end = fault_end(fault),
    }
}

// Runs the plan, if there is a reply for each call, with the kind and the policy of these numbers.
fn run(
    heap: Global,
    kind: u32,
    policy: u32,
    plan: PlanCode<'_>,
    replies: usize,
) -> Result<RanCode, Fault>
    ensures { RunsAll kind policy replies plan.entry result }
{
    if replies != plan.calls.len() {
        return Err(Fault::NoCode);
    }
    let Some(kind) = KindCode::numbered(kind) else {
        return Err(Fault::NoCode);
    };
    let Some(policy) = PolicyCode::numbered(policy) else {
        return Err(Fault::NoCode);
    };
    kind.run(heap, policy, plan)
}

// Writes values over the first places, as many as there are.
fn write_over<T: Copy>(places: &mut [T], values: &[T])
    ensures { places.new ≡ written values.now places.old }
{
    let count = places.len().min(values.len());
    places[..count].copy_from_slice(&values[..count]);
}

// The end that says why a plan was not run.
fn fault_end(fault: Fault) -> End
    ensures { result ≡ fault_end fault }
{
    match fault {
        Fault::NoCode => End { code: 2, ..BLANK },
        Fault::OutOfMemory => End { code: 3, ..BLANK },
        Fault::Unmade(why) => End {
            code: 1,
            refusal: u32::from(u8::from(why)),
            part: refused_part(why),
            ..BLANK
        },
    }
}

/// Runs two plans, each with a stack and a log of these lengths and a policy of its own of this name, and
/// tells what an observer at the level is given that differs, or why there is nothing to tell.
#[unsafe(no_mangle)]
pub extern "C" fn senggubat_compare(
    heap: Global,
    kind: u32,
    policy: u32,
    level: u32,
    stack: usize,
    log: usize,
    program: &[OperationCode],
    memory: &[NumberCode],
    calls: &[CallCode],
    other_program: &[OperationCode],
    other_memory: &[NumberCode],
    other_calls: &[CallCode],
    report: &mut ReportCode,
)
    ensures { Comparison kind policy level stack log
        (record { program = program.now; memory = memory.now; calls = calls.now })
        (record { program = other_program.now; memory = other_memory.now; calls = other_calls.now })
        report.new
        ⊎ (report.new.code ≡ 4) }
{
    let zero = NumberCode { value: 0, label: 0 };
    let entry = EntryCode {
        number: 0,
        label: 0,
        form: 0,
    };
    let Ok(stack) = Vec::from_elem(heap, entry, stack) else {
        *report = no_report(Fault::OutOfMemory);
        return;
    };
    let Ok(log) = Vec::from_elem(heap, zero, log) else {
        *report = no_report(Fault::OutOfMemory);
        return;
    };
    let one = PlanCode {
        program,
        memory,
        stack: stack.as_slice(),
        log: log.as_slice(),
        calls,
    };
    let two = PlanCode {
        program: other_program,
        memory: other_memory,
        calls: other_calls,
        ..one
    };
    *report = match compare(heap, kind, policy, level, one, two) {
        Ok(told) => told,
        Err(fault) => no_report(fault),
    };
}

// Compares the plans with the kind and the policy of these numbers.
fn compare(
    heap: Global,
    kind: u32,
    policy: u32,
    level: u32,
    one: PlanCode<'_>,
    two: PlanCode<'_>,
) -> Result<ReportCode, Fault>
    ensures { Chosen kind policy (λ k p. ReportsAs k p level one.entry two.entry) result }
{
    let Some(kind) = KindCode::numbered(kind) else {
        return Err(Fault::NoCode);
    };
    let Some(policy) = PolicyCode::numbered(policy) else {
        return Err(Fault::NoCode);
    };
    kind.compare(heap, policy, level, one, two)
}

// A report that says why there is none.
fn no_report(fault: Fault) -> ReportCode
    ensures { CodesNoReport fault result }
{
    match fault {
        Fault::NoCode => ReportCode {
            code: 3,
            ..reports::BLANK
        },
        Fault::OutOfMemory => ReportCode {
            code: 4,
            ..reports::BLANK
        },
        Fault::Unmade(why) => ReportCode::unmade(Unmade::First(why)),
    }
}
