// One step: what the operation at the program counter comes to.
ghost use Rattle.std.specs.Prelude.{◌<◌, ◌≤◌, length, IsOk};
ghost use Rattle.machine.specs.Numbers.{most};
ghost use Rattle.machine.specs.Steps.{contents, step, tried};
ghost use Rattle.machine.specs.declared.answers.Part.TheVariants.{Program};
ghost use Rattle.steps.specs.Operations.{Operates, Steps, with_memory, with_stack, with_log};
ghost use Rattle.steps.specs.Places.{InProgram};
ghost use Rattle.steps.specs.Steps.{Fetches, Halts, Unfuelled, Waits};

use crate::place::Place;
use crate::registers::{Fetched, Registers};
use crate::walks::find;
use labels::Label;
use machine::{End, Entry, Labelled, Operation, Stop};
use rules::{Opcode, Policy};

impl<L: Label> Registers<L> {
    // The operation at the program counter.
    #[inline(always)]
    fn fetch(self, program: &[Operation<L>]) -> Result<&Operation<L>, End>
        requires program_fits { length program.now ≤ most Program }
        ensures { Fetches program.now self.pc result }
    {
        match find(program, self.pc) {
            Some(found) => Ok(found.element),
            None => Err(End::Stopped(Stop::OutsideProgram)),
        }
    }

    // How a halt ends the round: finished if the label of the program counter is bottom.
    fn halted(self) -> End
        ensures { Halts L.Label.kind self result }
    {
        if self.pc_label.flows_to(L::bottom()) {
            End::Finished
        } else {
            End::Stopped(Stop::HaltAboveBottom)
        }
    }

    // The end that an operation comes to without fuel: a halt is decided, and any other waits.
    fn without_fuel(self, op: &Operation<L>) -> End
        ensures { Unfuelled L.Label.kind op.now self result }
    {
        match op {
            Operation::Halt => self.halted(),
            _ => End::OutOfFuel,
        }
    }

    // What an operation comes to that is tried, whatever the program is.
    #[inline(always)]
    fn operate<P: Policy<L>>(
        self,
        op: &Operation<L>,
        memory: &mut [Labelled<L>],
        stack: &mut [Entry<L>],
        log: &mut [Labelled<L>],
        policy: &mut P,
    ) -> Result<Registers<L>, End>
        requires in_program { InProgram self.pc }
        requires stack_holds { self.depth ≤ length stack.old }
        requires log_holds { self.window.count ≤ length log.old }
        ensures { Operates P.Policy policy.old policy.new
            (λ rest. with_memory memory.old (with_stack stack.old (with_log log.old rest)))
            (λ rest. with_memory memory.new (with_stack stack.new (with_log log.new rest)))
            self result (λ table setup. tried L.Label.kind table setup op.now) }
    {
        let fetched = Fetched {
            pc: Place { number: self.pc },
            pc_label: self.pc_label,
            window: self.window,
        };
        let (used, _) = stack.split_at_mut(self.depth);
        // The match is the interpreter: each operation reaches other parts, so a table of functions would have to lend
        // all to each. What combines two numbers is a closure, since a proof knows nothing of what `i32::wrapping_add`
        // gives when it is passed by that name.
        match op {
            Operation::Halt => Err(self.halted()),
            Operation::Push(number) => fetched.push(number, self.depth, stack, policy),
            Operation::Pop => fetched.pop(used, policy),
            Operation::Noop => fetched.noop(self.depth, policy),
            Operation::Add => {
                fetched.arithmetic(Opcode::Add, |b, a| b.wrapping_add(a), used, policy)
            }
            Operation::Sub => {
                fetched.arithmetic(Opcode::Sub, |b, a| b.wrapping_sub(a), used, policy)
            }
            Operation::Less => {
                fetched.arithmetic(Opcode::Less, |b, a| i32::from(b < a), used, policy)
            }
            Operation::Load => fetched.load(memory, used, policy),
            Operation::Store => fetched.store(memory, used, policy),
            Operation::Jump => self.jump(used, policy),
            Operation::Bnz(by) => fetched.bnz(*by, used, policy),
            Operation::Call { count, due } => fetched.call(*count, *due, used, policy),
            Operation::Return => self.return_to_frame(used, policy),
            Operation::Output => fetched.output(used, log, policy),
        }
    }

    /// One step with so much fuel left: the registers after the operation that was done, or the end. A station
    /// holds none of its four parts: program, memory, stack and log are lent to each step, so they are
    /// parameters.
    pub fn step<P: Policy<L>>(
        self,
        program: &[Operation<L>],
        memory: &mut [Labelled<L>],
        stack: &mut [Entry<L>],
        log: &mut [Labelled<L>],
        policy: &mut P,
        fuel: u32,
    ) -> Result<Registers<L>, End>
        requires program_fits { length program.now ≤ most Program }
        requires stack_holds { self.depth ≤ length stack.old }
        requires log_holds { self.window.count ≤ length log.old }
        ensures steps { Steps P.Policy policy.old policy.new
            (contents program.now memory.old stack.old log.old)
            (contents program.now memory.new stack.new log.new)
            self result (λ table setup. step L.Label.kind table setup fuel) }
        ensures fuelled { IsOk result → 0 < fuel }
    {
        let op = self.fetch(program)?;
        if fuel == 0 {
            return Err(self.without_fuel(op));
        }
        self.operate(op, memory, stack, log, policy)
    }

    /// One step with no fuel left, which does no operation: the end that it comes to. A halt is decided, and any other
    /// operation waits. It is a function of its own so that a loop that counts its fuel down need not ask before each
    /// operation whether any is left. It is cold and not inlined, so that the loop has the processor's registers
    /// to itself.
    #[cold]
    #[inline(never)]
    pub fn step_without_fuel(self, program: &[Operation<L>]) -> End
        requires program_fits { length program.now ≤ most Program }
        ensures { Waits L.Label.kind program.now self result }
    {
        match self.fetch(program) {
            Ok(op) => self.without_fuel(op),
            Err(end) => end,
        }
    }
}
