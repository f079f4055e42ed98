// The calls of a station, and the states that take them.
ghost use Rattle.std.specs.Prelude.{◌≡◌};
ghost use Rattle.machine.specs.Calls.{is_input, is_taken};

use crate::{Labelled, Stop};

/// A call on a station, as its caller writes it: without the parts and the policy that the station is lent at it.
#[derive(Clone, Copy, Debug, PartialEq, Eq, Hash)]
pub enum Call<L> {
    /// Puts a labelled number into a cell.
    Enter { cell: usize, number: Labelled<L> },
    /// Shows a cell, if its label is at or below the clearance.
    Look { cell: usize, clearance: L },
    /// Begins a round.
    Start,
    /// Takes steps of the round, of which each uses a unit of fuel.
    Go { fuel: u32 },
    /// Finds the first command, from a place in the log on, that is at or below the clearance.
    NextCommand { from: usize, clearance: L },
}

/// The state of a station, without what the station holds.
#[derive(Clone, Copy, Debug, PartialEq, Eq, Hash)]
pub enum State {
    /// At rest between rounds.
    Idle,
    /// In a round.
    Running,
    /// Shut for good by a stop, with the place where it was.
    Shut { stop: Stop, place: i64 },
}

impl<L> Call<L> {
    /// Whether a station in this state takes the call.
    pub fn is_taken_in(&self, state: State) -> bool
        ensures { result ≡ is_taken self.now state }
    {
        match self {
            Call::Enter { .. } | Call::Look { .. } | Call::Start => state == State::Idle,
            Call::Go { .. } => state == State::Running,
            Call::NextCommand { .. } => true,
        }
    }

    /// Whether the call is an enter or a start to an observer.
    pub fn is_input(&self) -> bool
        ensures { result ≡ is_input self.now }
    {
        matches!(self, Call::Enter { .. } | Call::Start)
    }
}
