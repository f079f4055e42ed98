// A station at rest: making gives one, enters and looks leave it idle, a start begins a round.
ghost use Rattle.std.specs.Prelude.{◌≡◌, ◌≤◌, None};
ghost use Rattle.machine.specs.Numbers.{outside_limits};

use crate::commands::next_command;
use crate::lengths::{check_cell, check_length, check_limits, sizes_of};
use crate::running::Running;
use labels::Label;
use machine::{Entry, Labelled, Operation, Part, Refusal, Sizes};
use std::marker::PhantomData;
use steps::{Registers, Window};

/// A station at rest: it takes enters and looks, and a start. It holds none of its four parts, only how long they were
/// when it was made and what is in use of the log; the parts are lent at each call.
#[derive(Debug, Drop)]
pub struct Idle<L> {
    pub(crate) sizes: Sizes,
    pub(crate) window: Window,
    pub(crate) labels: PhantomData<L>,
    pub ghost within_limits: { outside_limits sizes ≡ None },
    pub ghost log_holds: { window.count ≤ sizes.log },
}

impl<L: Label> Idle<L> {
    ghost use Rattle.std.specs.Prelude.{◌≡◌};
    ghost use Rattle.machine.specs.Observer.{Noninterference};
    ghost use Rattle.machine.specs.Stations.{granted, shows, found};
    ghost use Rattle.machine.specs.Steps.{contents};
    ghost use Rattle.machine.specs.declared.calls.Call.TheVariants.{Enter, Look, Start, NextCommand};
    ghost use Rattle.steps.specs.Operations.{with_memory, with_log};
    ghost use Rattle.station.specs.Calls.{Makes, Serves, answered};
    ghost use Rattle.station.specs.Views.{idle_with, running_with};

    /// Makes a station of its four parts, which stay as they are. Refused if one of them is outside its limits.
    pub fn make(
        program: &[Operation<L>],
        memory: &[Labelled<L>],
        stack: &[Entry<L>],
        log: &[Labelled<L>],
    ) -> Result<Idle<L>, Refusal>
        ensures made { Makes (contents program.now memory.now stack.now log.now) result }
        ensures secrecy { Noninterference L.Label.kind }
    {
        let sizes = sizes_of(program, memory, stack, log);
        check_limits(sizes)?;
        Ok(Idle {
            sizes,
            window: Window::empty(),
            labels: PhantomData,
        })
    }

    /// Puts a labelled number into a cell, whatever label was there. Refused for a memory of another length than when
    /// the station was made, and for a cell outside it.
    pub fn enter(
        &self,
        memory: &mut [Labelled<L>],
        cell: usize,
        number: Labelled<L>,
    ) -> Result<(), Refusal>
        ensures { Serves L.Label.kind self.now.sizes (Enter cell number)
            (idle_with self.now) (with_memory memory.old)
            (idle_with self.now) (with_memory memory.new)
            (answered (λ _. granted) result) }
    {
        check_length(Part::Memory, memory.len(), self.sizes.memory)?;
        check_cell(memory.len(), cell)?;
        memory[cell] = number;
        Ok(())
    }

    /// Shows a cell. Refused for a memory of another length than when the station was made, for a cell outside it, and
    /// for a label that is not at or below the clearance.
    pub fn look(
        &self,
        memory: &[Labelled<L>],
        cell: usize,
        clearance: L,
    ) -> Result<Labelled<L>, Refusal>
        ensures { Serves L.Label.kind self.now.sizes (Look cell clearance)
            (idle_with self.now) (with_memory memory.now)
            (idle_with self.now) (with_memory memory.now)
            (answered shows result) }
    {
        check_length(Part::Memory, memory.len(), self.sizes.memory)?;
        check_cell(memory.len(), cell)?;
        let shown = memory[cell];
        if shown.label.flows_to(clearance) {
            Ok(shown)
        } else {
            Err(Refusal::Clearance)
        }
    }

    /// Begins a round. The commands go on from round to round.
    pub fn start(self) -> Running<L>
        ensures starts { Serves L.Label.kind self.sizes Start
            (idle_with self) (λ rest. rest)
            (running_with result) (λ rest. rest)
            granted }
        ensures sizes { result.sizes ≡ self.sizes }
    {
        Running {
            sizes: self.sizes,
            registers: Registers {
                pc: 0,
                pc_label: L::bottom(),
                depth: 0,
                window: self.window,
            },
        }
    }

    /// The place in the log of the first command, from a place on, that is at or below the clearance. Refused for a log
    /// of another length than when the station was made.
    pub fn next_command(
        &self,
        log: &[Labelled<L>],
        from: usize,
        clearance: L,
    ) -> Result<Option<usize>, Refusal>
        ensures { Serves L.Label.kind self.now.sizes (NextCommand from clearance)
            (idle_with self.now) (with_log log.now)
            (idle_with self.now) (with_log log.now)
            (answered found result) }
    {
        next_command(self.sizes, self.window, log, from, clearance)
    }
}

impl<L> Idle<L> {
    ghost use Rattle.std.specs.Prelude.{◌≡◌};

    /// How many commands there are in the log.
    pub fn commands(&self) -> usize
        ensures { result ≡ self.now.window.count }
    {
        self.window.count()
    }
}
