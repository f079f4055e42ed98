// The operations: each gives the registers after it, or the end.
//
// Each is lent just the parts that it reaches, and of the stack the entries in use as a slice of their own: there is no
// depth to require anything of, and nothing that a struct of all parts would keep; it would lend each operation more
// than it reaches.
ghost use Rattle.std.specs.Prelude.{◌≡◌, ◌+◌, ◌<◌, true, false, length, ℤ, pos, ◌+ℤ◌, FitsSigned};
ghost use Rattle.std.specs.Int.{w32};
ghost use Rattle.rules.specs.Tables.{request as request_of};
ghost use Rattle.machine.specs.Steps.{◌at◌, tried, arithmetic, return_to};
ghost use Rattle.machine.specs.declared.parts.Operation.TheVariants.{Push, Pop, Noop, Load, Store};
ghost use Rattle.machine.specs.declared.parts.Operation.TheVariants.{Jump, Bnz, Call, Return, Output};
ghost use Rattle.steps.specs.Operations.{registers_at, placed, starting, Rules, Heeded, AsksPolicy};
ghost use Rattle.steps.specs.Operations.{Operates, with_memory, with_stack, with_used, with_log};
ghost use Rattle.steps.specs.Walks.{newest};

use crate::registers::{Fetched, Registers};
use crate::walks::{
    Found, find_cell, has_numbers, insert_under, nearest_frame, top_number, top_two, write,
    write_entry,
};
use labels::Label;
use machine::{End, Entry, Frame, Labelled, Stop};
use rules::{Opcode, Policy, Request, Verdict};

// The same number with another label.
#[inline(always)]
fn relabelled<L: Copy>(number: Labelled<L>, label: L) -> Labelled<L>
    ensures { result ≡ (number.value at label) }
{
    Labelled { label, ..number }
}

// Asks the policy. It is inlined into each operation, where all but that operation's own rule falls away.
#[inline(always)]
fn ask<P: Policy<L>, L: Label>(policy: &mut P, request: Request<L>) -> Result<Verdict<L>, End>
    ensures { AsksPolicy P.Policy policy.old policy.new (Heeded result) (λ table. Rules (table request) result) }
{
    policy.rule(request).ok_or(End::Stopped(Stop::Forbidden))
}

// What the policy is asked about an operation on no labels: the labels that an operation leaves out are bottom.
#[inline(always)]
fn request<L: Label>(pc: L, op: Opcode) -> Request<L>
    ensures { result ≡ request_of op pc L.Label.kind.bottom L.Label.kind.bottom L.Label.kind.bottom }
{
    let none = L::bottom();
    Request {
        op,
        pc,
        a: none,
        b: none,
        c: none,
    }
}

impl<L: Label> Fetched<L> {
    // The registers at a place, with this label and so many entries in use.
    #[inline(always)]
    fn goto(self, pc: i64, pc_label: L, depth: usize) -> Registers<L>
        ensures { result ≡ registers_at pc pc_label depth self.window }
    {
        Registers {
            pc,
            pc_label,
            depth,
            window: self.window,
        }
    }

    // On to the next place.
    #[inline(always)]
    fn next(self, pc_label: L, depth: usize) -> Registers<L>
        ensures { result ≡ registers_at (self.pc.number +ℤ pos 1) pc_label depth self.window }
    {
        self.goto(self.pc.next(), pc_label, depth)
    }

    pub(crate) fn push<P: Policy<L>>(
        self,
        number: &Labelled<L>,
        depth: usize,
        stack: &mut [Entry<L>],
        policy: &mut P,
    ) -> Result<Registers<L>, End>
        ensures { Operates P.Policy policy.old policy.new
            (with_stack stack.old)
            (with_stack stack.new)
            (placed self depth) result
            (λ table setup. tried L.Label.kind table setup (Push number.now)) }
    {
        if depth >= stack.len() {
            return Err(End::Stopped(Stop::StackFull));
        }
        let verdict = ask(
            policy,
            Request {
                a: number.label,
                ..request(self.pc_label, Opcode::Push)
            },
        )?;
        write_entry(&mut stack[depth], relabelled(*number, verdict.result));
        Ok(self.next(verdict.pc, depth + 1))
    }

    // pop, bnz and jump begin with the same two calls. A function for them would be no shorter.
    pub(crate) fn pop<P: Policy<L>>(
        self,
        used: &[Entry<L>],
        policy: &mut P,
    ) -> Result<Registers<L>, End>
        ensures { Operates P.Policy policy.old policy.new
            (with_used used.now)
            (with_used used.now)
            (placed self (length used.now)) result
            (λ table setup. tried L.Label.kind table setup Pop) }
    {
        let a = top_number(used)?;
        let verdict = ask(
            policy,
            Request {
                a: a.label,
                ..request(self.pc_label, Opcode::Pop)
            },
        )?;
        Ok(self.next(verdict.pc, used.len() - 1))
    }

    pub(crate) fn noop<P: Policy<L>>(
        self,
        depth: usize,
        policy: &mut P,
    ) -> Result<Registers<L>, End>
        ensures { Operates P.Policy policy.old policy.new
            (λ rest. rest)
            (λ rest. rest)
            (placed self depth) result
            (λ table setup. tried L.Label.kind table setup Noop) }
    {
        let verdict = ask(policy, request(self.pc_label, Opcode::Noop))?;
        Ok(self.next(verdict.pc, depth))
    }

    // An operation that combines two numbers to one; it is given the lower one first.
    pub(crate) fn arithmetic<P: Policy<L>, F: FnOnce(i32, i32) -> i32>(
        self,
        op: Opcode,
        combine: F,
        used: &mut [Entry<L>],
        policy: &mut P,
    ) -> Result<Registers<L>, End>
        requires { F.IsAlwaysCallable combine }
        ensures { (applied : ℤ → ℤ → ℤ)
            → ((b a r : ℤ) → FitsSigned w32 b → FitsSigned w32 a → F.post combine b a r → r ≡ applied b a)
            → Operates P.Policy policy.old policy.new (with_used used.old) (with_used used.new)
            (placed self (length used.old)) result
            (λ table setup. arithmetic L.Label.kind table setup op applied) }
    {
        let (b, a) = top_two(used)?;
        let depth = used.len() - 1;
        let verdict = ask(
            policy,
            Request {
                a: a.label,
                b: b.label,
                ..request(self.pc_label, op)
            },
        )?;
        let result = Labelled {
            value: combine(b.value, a.value),
            label: verdict.result,
        };
        // By its index: the entry is there, and `last_mut` would ask again whether it is.
        write_entry(&mut used[depth - 1], result);
        Ok(self.next(verdict.pc, depth))
    }

    pub(crate) fn load<P: Policy<L>>(
        self,
        memory: &[Labelled<L>],
        used: &mut [Entry<L>],
        policy: &mut P,
    ) -> Result<Registers<L>, End>
        ensures { Operates P.Policy policy.old policy.new
            (λ rest. with_memory memory.now (with_used used.old rest))
            (λ rest. with_memory memory.now (with_used used.new rest))
            (placed self (length used.old)) result
            (λ table setup. tried L.Label.kind table setup Load) }
    {
        let a = top_number(used)?;
        let Found { element: cell, .. } = find_cell(memory, a)?;
        let verdict = ask(
            policy,
            Request {
                a: a.label,
                b: cell.label,
                ..request(self.pc_label, Opcode::Load)
            },
        )?;
        let depth = used.len();
        // By its index: the entry is there, and `last_mut` would ask again whether it is.
        write_entry(&mut used[depth - 1], relabelled(cell, verdict.result));
        Ok(self.next(verdict.pc, depth))
    }

    pub(crate) fn store<P: Policy<L>>(
        self,
        memory: &mut [Labelled<L>],
        used: &[Entry<L>],
        policy: &mut P,
    ) -> Result<Registers<L>, End>
        ensures { Operates P.Policy policy.old policy.new
            (λ rest. with_memory memory.old (with_used used.now rest))
            (λ rest. with_memory memory.new (with_used used.now rest))
            (placed self (length used.now)) result
            (λ table setup. tried L.Label.kind table setup Store) }
    {
        let (b, a) = top_two(used)?;
        let Found {
            index,
            element: cell,
        } = find_cell(memory, a)?;
        let verdict = ask(
            policy,
            Request {
                a: a.label,
                b: b.label,
                c: cell.label,
                ..request(self.pc_label, Opcode::Store)
            },
        )?;
        write(&mut memory[index], relabelled(b, verdict.result));
        Ok(self.next(verdict.pc, used.len() - 2))
    }

    pub(crate) fn bnz<P: Policy<L>>(
        self,
        by: i32,
        used: &[Entry<L>],
        policy: &mut P,
    ) -> Result<Registers<L>, End>
        ensures { Operates P.Policy policy.old policy.new
            (with_used used.now)
            (with_used used.now)
            (placed self (length used.now)) result
            (λ table setup. tried L.Label.kind table setup (Bnz by)) }
    {
        let a = top_number(used)?;
        let verdict = ask(
            policy,
            Request {
                a: a.label,
                ..request(self.pc_label, Opcode::Bnz)
            },
        )?;
        Ok(self.goto(self.pc.branch(by, a.value), verdict.pc, used.len() - 1))
    }

    pub(crate) fn call<P: Policy<L>>(
        self,
        count: u8,
        due: bool,
        used: &mut [Entry<L>],
        policy: &mut P,
    ) -> Result<Registers<L>, End>
        ensures { Operates P.Policy policy.old policy.new
            (with_used used.old)
            (with_used used.new)
            (placed self (length used.old)) result
            (λ table setup. tried L.Label.kind table setup (Call count due)) }
    {
        let a = top_number(used)?;
        let depth = used.len();
        let arguments = usize::from(count);
        if !has_numbers(&used[..depth - 1], arguments) {
            return Err(End::Stopped(Stop::TooFewNumbers));
        }
        let verdict = ask(
            policy,
            Request {
                a: a.label,
                ..request(self.pc_label, Opcode::Call)
            },
        )?;
        let frame = Frame {
            place: self.pc.next(),
            due,
            label: verdict.result,
        };
        insert_under(used, arguments, Entry::Frame(frame));
        Ok(self.goto(i64::from(a.value), verdict.pc, depth))
    }

    // The log is lent whole, with the window over it, since it has a fixed length.
    pub(crate) fn output<P: Policy<L>>(
        self,
        used: &[Entry<L>],
        log: &mut [Labelled<L>],
        policy: &mut P,
    ) -> Result<Registers<L>, End>
        ensures { Operates P.Policy policy.old policy.new
            (λ rest. with_log log.old (with_used used.now rest))
            (λ rest. with_log log.new (with_used used.now rest))
            (placed self (length used.now)) result
            (λ table setup. tried L.Label.kind table setup Output) }
    {
        let a = top_number(used)?;
        if self.window.is_full(log) {
            return Err(End::Stopped(Stop::LogFull));
        }
        let verdict = ask(
            policy,
            Request {
                a: a.label,
                ..request(self.pc_label, Opcode::Output)
            },
        )?;
        let window = self.window.push(log, relabelled(a, verdict.result));
        let logged = Fetched { window, ..self };
        Ok(logged.next(verdict.pc, used.len() - 1))
    }
}

// The operations that go to another place whatever this one is.
impl<L: Label> Registers<L> {
    pub(crate) fn jump<P: Policy<L>>(
        self,
        used: &[Entry<L>],
        policy: &mut P,
    ) -> Result<Registers<L>, End>
        ensures { Operates P.Policy policy.old policy.new
            (with_used used.now)
            (with_used used.now)
            (starting self (length used.now)) result
            (λ table setup. tried L.Label.kind table setup Jump) }
    {
        let a = top_number(used)?;
        let verdict = ask(
            policy,
            Request {
                a: a.label,
                ..request(self.pc_label, Opcode::Jump)
            },
        )?;
        Ok(Registers {
            pc: i64::from(a.value),
            pc_label: verdict.pc,
            depth: used.len() - 1,
            ..self
        })
    }

    pub(crate) fn return_to_frame<P: Policy<L>>(
        self,
        used: &mut [Entry<L>],
        policy: &mut P,
    ) -> Result<Registers<L>, End>
        ensures { Operates P.Policy policy.old policy.new
            (with_used used.old)
            (with_used used.new)
            (starting self (length used.old)) result
            (λ table setup. tried L.Label.kind table setup Return) }
    {
        let Found {
            index,
            element: frame,
        } = nearest_frame(used)?;
        if frame.due {
            self.return_number(index, frame, used, policy)
        } else {
            self.return_nothing(index, frame, used, policy)
        }
    }

    fn return_number<P: Policy<L>>(
        self,
        index: usize,
        frame: Frame<L>,
        used: &mut [Entry<L>],
        policy: &mut P,
    ) -> Result<Registers<L>, End>
        requires { index < length used.old }
        ensures { Operates P.Policy policy.old policy.new
            (with_used used.old)
            (with_used used.new)
            (starting self (length used.old)) result
            (λ table setup. return_to L.Label.kind table setup true frame (newest index used.old)) }
    {
        let a = top_number(used)?;
        let verdict = ask(
            policy,
            Request {
                a: frame.label,
                b: a.label,
                ..request(self.pc_label, Opcode::Return)
            },
        )?;
        write_entry(&mut used[index], relabelled(a, verdict.result));
        Ok(Registers {
            pc: frame.place,
            pc_label: verdict.pc,
            depth: index + 1,
            ..self
        })
    }

    fn return_nothing<P: Policy<L>>(
        self,
        index: usize,
        frame: Frame<L>,
        used: &[Entry<L>],
        policy: &mut P,
    ) -> Result<Registers<L>, End>
        requires { index < length used.now }
        ensures { Operates P.Policy policy.old policy.new
            (with_used used.now)
            (with_used used.now)
            (starting self (length used.now)) result
            (λ table setup. return_to L.Label.kind table setup false frame (newest index used.now)) }
    {
        let verdict = ask(
            policy,
            Request {
                a: frame.label,
                ..request(self.pc_label, Opcode::Return)
            },
        )?;
        Ok(Registers {
            pc: frame.place,
            pc_label: verdict.pc,
            depth: index,
            ..self
        })
    }
}
