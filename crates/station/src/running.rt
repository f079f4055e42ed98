// A station in a round: a go takes steps until its round finishes, is stopped or has no fuel left.
ghost use Rattle.std.specs.Prelude.{◌≡◌, ◌≤◌, None};
ghost use Rattle.machine.specs.Numbers.{outside_limits};

use crate::any::Station;
use crate::commands::next_command;
use crate::idle::Idle;
use crate::lengths::{check_lengths, sizes_of};
use crate::shut::Shut;
use labels::Label;
use machine::{End, Entry, Labelled, Operation, Refusal, Sizes};
use rules::Policy;
use std::marker::PhantomData;
use steps::Registers;

/// A station in a round: it takes goes. It holds how long its parts were when it was made, and the registers of the
/// round; the parts are lent at each call.
#[derive(Debug, Drop)]
pub struct Running<L> {
    pub(crate) sizes: Sizes,
    pub(crate) registers: Registers<L>,
    pub ghost within_limits: { outside_limits sizes ≡ None },
    pub ghost stack_holds: { registers.depth ≤ sizes.stack },
    pub ghost log_holds: { registers.window.count ≤ sizes.log },
}

/// What a go that was not refused leaves: the station, idle, running or shut, and the steps that it took.
#[derive(Debug, Drop)]
pub struct Gone<L> {
    pub station: Station<L>,
    pub steps: u32,
}

/// A go that was refused: why, and the running station, as it was.
#[derive(Debug, Drop)]
pub struct Refused<L> {
    pub why: Refusal,
    pub station: Running<L>,
}

// The same registers, taken field by field: a copy of the whole would carry the bytes between the fields
// through every step.
#[inline(always)]
fn by_fields<L: Copy>(registers: Registers<L>) -> Registers<L>
    ensures { result ≡ registers }
{
    let Registers {
        pc,
        pc_label,
        depth,
        window,
    } = registers;
    Registers {
        pc,
        pc_label,
        depth,
        window,
    }
}

impl<L: Label> Running<L> {
    ghost use Rattle.std.specs.Prelude.{◌≡◌, ◌<◌, ◌+◌, IsOk, OnErr};
    ghost use Rattle.machine.specs.Stations.{found};
    ghost use Rattle.machine.specs.Steps.{contents, lengths, step};
    ghost use Rattle.machine.specs.declared.calls.Call.TheVariants.{NextCommand};
    ghost use Rattle.steps.specs.Operations.{AtMost, StaysTrue, Steps, with_log};
    ghost use Rattle.station.specs.Calls.{Serves, answered};
    ghost use Rattle.station.specs.Goes.{Goes};
    ghost use Rattle.station.specs.Turns.{Runs, Settles, advanced};
    ghost use Rattle.station.specs.Views.{running_with, made_sizes};

    /// Takes steps with so much fuel. Refused for the first part that is not as long as when the station was made; it
    /// then gives the station back and has changed nothing.
    pub fn go<P: Policy<L>>(
        self,
        program: &[Operation<L>],
        memory: &mut [Labelled<L>],
        stack: &mut [Entry<L>],
        log: &mut [Labelled<L>],
        policy: &mut P,
        fuel: u32,
    ) -> Result<Gone<L>, Refused<L>>
        ensures { Goes P.Policy policy.old policy.new L.Label.kind
            (contents program.now memory.old stack.old log.old)
            (contents program.now memory.new stack.new log.new)
            fuel self result }
    {
        if let Err(why) = check_lengths(sizes_of(program, memory, stack, log), self.sizes) {
            return Err(Refused { why, station: self });
        }
        let mut station = self;
        Ok(station.run(program, memory, stack, log, policy, fuel))
    }

    /// The place in the log of the first command, from a place on, that is at or below the clearance. Refused for a log
    /// of another length than when the station was made.
    pub fn next_command(
        &self,
        log: &[Labelled<L>],
        from: usize,
        clearance: L,
    ) -> Result<Option<usize>, Refusal>
        ensures { Serves L.Label.kind self.now.sizes (NextCommand from clearance)
            (running_with self.now) (with_log log.now)
            (running_with self.now) (with_log log.now)
            (answered found result) }
    {
        next_command(self.sizes, self.registers.window, log, from, clearance)
    }

    // Takes steps until one comes to an end, and settles the station by it.
    fn run<P: Policy<L>>(
        &mut self,
        program: &[Operation<L>],
        memory: &mut [Labelled<L>],
        stack: &mut [Entry<L>],
        log: &mut [Labelled<L>],
        policy: &mut P,
        fuel: u32,
    ) -> Gone<L>
        requires as_made { self.old.sizes ≡ lengths (contents program.now memory.old stack.old log.old) }
        ensures runs { Runs P.Policy L.Label.kind policy.old
            (contents program.now memory.old stack.old log.old)
            (contents program.now memory.new stack.new log.new)
            fuel self.old result }
        ensures still { StaysTrue P.Policy policy.old policy.new }
        ensures asks { AtMost P.Policy (result.steps + 1) policy.old policy.new }
        ensures sizes { made_sizes result.station ≡ self.old.sizes }
    {
        let mut left = fuel;
        while left > 0 {
            if let Err(end) = self.advance(program, memory, stack, log, policy, left) {
                return Gone {
                    station: self.settle(end),
                    steps: fuel - left,
                };
            }
            left -= 1;
        }
        let end = self.registers.step_without_fuel(program);
        Gone {
            station: self.settle(end),
            steps: fuel,
        }
    }

    // Takes one step, and stands after it, or where it stood if that is an end.
    #[inline(always)]
    fn advance<P: Policy<L>>(
        &mut self,
        program: &[Operation<L>],
        memory: &mut [Labelled<L>],
        stack: &mut [Entry<L>],
        log: &mut [Labelled<L>],
        policy: &mut P,
        fuel: u32,
    ) -> Result<(), End>
        requires as_made { self.old.sizes ≡ lengths (contents program.now memory.old stack.old log.old) }
        ensures steps { Steps P.Policy policy.old policy.new
            (contents program.now memory.old stack.old log.old)
            (contents program.now memory.new stack.new log.new)
            self.old.registers (advanced result self.new)
            (λ table setup. step L.Label.kind table setup fuel) }
        ensures fuelled { IsOk result → 0 < fuel }
        ensures kept { OnErr result (self.new ≡ self.old) }
        ensures sizes { self.new.sizes ≡ self.old.sizes }
    {
        let registers = self
            .registers
            .step(program, memory, stack, log, policy, fuel)?;
        *self = Running {
            sizes: self.sizes,
            registers: by_fields(registers),
        };
        Ok(())
    }

    // The station after a go that ended so.
    fn settle(&self, end: End) -> Station<L>
        ensures settled { Settles self.now end result }
        ensures sizes { made_sizes result ≡ self.now.sizes }
    {
        match end {
            End::Finished => Station::Idle(Idle {
                sizes: self.sizes,
                window: self.registers.window,
                labels: PhantomData,
            }),
            End::OutOfFuel => Station::Running(Running {
                sizes: self.sizes,
                registers: by_fields(self.registers),
            }),
            End::Stopped(stop) => Station::Shut(Shut {
                sizes: self.sizes,
                window: self.registers.window,
                stop,
                place: self.registers.pc,
                labels: PhantomData,
            }),
        }
    }
}

impl<L: Copy> Running<L> {
    ghost use Rattle.std.specs.Prelude.{◌≡◌};

    /// The place and label of the program counter, how many entries of the stack are in use, and the window
    /// over the log.
    pub fn registers(&self) -> Registers<L>
        ensures { result ≡ self.now.registers }
    {
        self.registers
    }
}
