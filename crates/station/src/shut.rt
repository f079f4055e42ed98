// A station that is shut: it answers what shut it, and the question for the next command.
ghost use Rattle.std.specs.Prelude.{◌≡◌, ◌≤◌, None};
ghost use Rattle.machine.specs.Numbers.{outside_limits};

use crate::commands::next_command;
use labels::Label;
use machine::{Labelled, Refusal, Sizes, Stop};
use std::marker::PhantomData;
use steps::Window;

/// A station shut by a stop, for good: it takes only the question for the next command.
#[derive(Debug, Drop)]
pub struct Shut<L> {
    pub(crate) sizes: Sizes,
    pub(crate) window: Window,
    pub(crate) stop: Stop,
    pub(crate) place: i64,
    pub(crate) labels: PhantomData<L>,
    pub ghost within_limits: { outside_limits sizes ≡ None },
    pub ghost log_holds: { window.count ≤ sizes.log },
}

impl<L: Label> Shut<L> {
    ghost use Rattle.machine.specs.Stations.{found};
    ghost use Rattle.machine.specs.declared.calls.Call.TheVariants.{NextCommand};
    ghost use Rattle.steps.specs.Operations.{with_log};
    ghost use Rattle.station.specs.Calls.{Serves, answered};
    ghost use Rattle.station.specs.Views.{shut_with};

    /// The place in the log of the first command, from a place on, that is at or below the clearance. Refused for a log
    /// of another length than when the station was made.
    pub fn next_command(
        &self,
        log: &[Labelled<L>],
        from: usize,
        clearance: L,
    ) -> Result<Option<usize>, Refusal>
        ensures { Serves L.Label.kind self.now.sizes (NextCommand from clearance)
            (shut_with self.now) (with_log log.now)
            (shut_with self.now) (with_log log.now)
            (answered found result) }
    {
        next_command(self.sizes, self.window, log, from, clearance)
    }
}

impl<L> Shut<L> {
    ghost use Rattle.std.specs.Prelude.{◌≡◌};

    /// How many commands there are in the log.
    pub fn commands(&self) -> usize
        ensures { result ≡ self.now.window.count }
    {
        self.window.count()
    }

    /// The stop that shut it.
    pub fn stop(&self) -> Stop
        ensures { result ≡ self.now.stop }
    {
        self.stop
    }

    /// Where the program counter was.
    pub fn place(&self) -> i64
        ensures { result ≡ self.now.place }
    {
        self.place
    }
}
