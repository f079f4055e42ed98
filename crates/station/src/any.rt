// A station in whatever state: what every state takes.
use crate::idle::Idle;
use crate::running::Running;
use crate::shut::Shut;
use labels::Label;
use machine::{Labelled, Refusal, State};
use steps::Window;

/// A station in any state. Each state is a type of its own that is moved from call to call, so a call that a state does
/// not take does not compile.
#[derive(Debug, Drop)]
pub enum Station<L> {
    Idle(Idle<L>),
    Running(Running<L>),
    Shut(Shut<L>),
}

impl<L: Label> Station<L> {
    ghost use Rattle.machine.specs.Stations.{found};
    ghost use Rattle.machine.specs.declared.calls.Call.TheVariants.{NextCommand};
    ghost use Rattle.steps.specs.Operations.{with_log};
    ghost use Rattle.station.specs.Calls.{Serves, answered};
    ghost use Rattle.station.specs.Views.{station_with, made_sizes};

    /// The place in the log of the first command, from a place on, that is at or below the clearance. Refused for a log
    /// of another length than when the station was made.
    pub fn next_command(
        &self,
        log: &[Labelled<L>],
        from: usize,
        clearance: L,
    ) -> Result<Option<usize>, Refusal>
        ensures { Serves L.Label.kind (made_sizes self.now) (NextCommand from clearance)
            (station_with self.now) (with_log log.now)
            (station_with self.now) (with_log log.now)
            (answered found result) }
    {
        match self {
            Station::Idle(idle) => idle.next_command(log, from, clearance),
            Station::Running(running) => running.next_command(log, from, clearance),
            Station::Shut(shut) => shut.next_command(log, from, clearance),
        }
    }
}

impl<L> Station<L> {
    ghost use Rattle.std.specs.Prelude.{◌≡◌};
    ghost use Rattle.station.specs.Views.{window_of, IsIn};

    /// The state that it is in.
    pub fn state(&self) -> State
        ensures { IsIn self.now result }
    {
        match self {
            Station::Idle(_) => State::Idle,
            Station::Running(_) => State::Running,
            Station::Shut(shut) => State::Shut {
                stop: shut.stop,
                place: shut.place,
            },
        }
    }

    /// What is in use of the log.
    pub fn window(&self) -> Window
        ensures { result ≡ window_of self.now }
    {
        match self {
            Station::Idle(idle) => idle.window,
            Station::Running(running) => running.registers.window,
            Station::Shut(shut) => shut.window,
        }
    }

    /// How many commands there are in the log.
    pub fn commands(&self) -> usize
        ensures { result ≡ (window_of self.now).count }
    {
        self.window().count()
    }
}
