// The parts of a station, and how they are lent to it.
ghost use Rattle.std.specs.Prelude.{◌≡◌, ◌↔◌, IfOk, IsTrue, None, ⊤};
ghost use Rattle.machine.specs.Calls.{misfit};
ghost use Rattle.machine.specs.declared.calls.Call.TheVariants.{NextCommand, Enter, Go, Look, Start};
ghost use Rattle.steps.specs.Operations.{StaysTrue};
ghost use Rattle.station.specs.Views.{made_sizes};
ghost use Rattle.sites.specs.Sites.{LeavesUntaken, Hands, Offers, Unasked, Untouched, held, sizes_of};

use crate::Reply;
use labels::Label;
use machine::{Call, Entry, Labelled, Operation};
use rules::Policy;
use station::{Gone, Refused, Station};
use std::alloc::{AllocError, Global};

/// The four parts of a station.
#[derive(Debug, Drop)]
pub struct Parts<L> {
    pub program: Vec<Operation<L>>,
    pub memory: Vec<Labelled<L>>,
    pub stack: Vec<Entry<L>>,
    pub log: Vec<Labelled<L>>,
}

impl<L: Label> Parts<L> {
    // Hands these parts, which are others', to a station with parts of its own: the station, which has not changed, and
    // the reply.
    pub(crate) fn offer<P: Policy<L>>(
        &mut self,
        own: &Parts<L>,
        policy: &mut P,
        station: Station<L>,
        call: Call<L>,
    ) -> (Station<L>, Reply<L>)
        requires { made_sizes station ≡ sizes_of own.now }
        ensures offers { Offers (held own.now) station (sizes_of self.old) call result }
        ensures untouched { Untouched self.old self.new }
        ensures policy { policy.new ≡ policy.old }
    {
        if !call.is_taken_in(station.state()) {
            return declined(station);
        }
        if self.pass_for(own, call) {
            return (station, Reply::NotLent);
        }
        self.lend(policy, station, call)
    }

    // Whether the parts that a call hands in are as long as the station's own.
    fn pass_for(&self, own: &Parts<L>, call: Call<L>) -> bool
        ensures { IsTrue result ↔ (misfit (sizes_of own.now) call (sizes_of self.now) ≡ None) }
    {
        let program = self.program.len() == own.program.len();
        let memory = self.memory.len() == own.memory.len();
        let stack = self.stack.len() == own.stack.len();
        let log = self.log.len() == own.log.len();
        match call {
            Call::Enter { .. } | Call::Look { .. } => memory,
            Call::Start => true,
            Call::Go { .. } => program && memory && stack && log,
            Call::NextCommand { .. } => log,
        }
    }

    // Lends the parts and the policy to a station for a call: the station as the call leaves it, and the reply.
    #[tactic(auto, using(crate::proofs::Handing::any_policy))]
    pub(crate) fn lend<P: Policy<L>>(
        &mut self,
        policy: &mut P,
        station: Station<L>,
        call: Call<L>,
    ) -> (Station<L>, Reply<L>)
        ensures hands { Hands L.Label.kind (P.Policy.faithful policy.old)
            (held self.old) (held self.new) station call result }
        ensures still { StaysTrue P.Policy policy.old policy.new }
        ensures unasked { Unasked (held self.old) station call → policy.new ≡ policy.old }
    {
        match call {
            Call::Enter { cell, number } => self.enter(station, cell, number),
            Call::Look { cell, clearance } => {
                let reply = self.look(&station, cell, clearance);
                (station, reply)
            }
            Call::Start => self.start(station),
            Call::Go { fuel } => self.go(policy, station, fuel),
            Call::NextCommand { from, clearance } => {
                let reply = self.next_command(&station, from, clearance);
                (station, reply)
            }
        }
    }

    fn enter(
        &mut self,
        station: Station<L>,
        cell: usize,
        number: Labelled<L>,
    ) -> (Station<L>, Reply<L>)
        ensures { Hands L.Label.kind (λ _. ⊤) (held self.old) (held self.new) station (Enter cell number) result }
    {
        match station {
            Station::Idle(idle) => {
                match idle.enter(self.memory.as_mut_slice(), cell, number) {
                    Ok(()) => (Station::Idle(idle), Reply::Entered),
                    Err(why) => (Station::Idle(idle), Reply::Refused(why)),
                }
            }
            other => declined(other),
        }
    }

    pub(crate) fn look(&self, station: &Station<L>, cell: usize, clearance: L) -> Reply<L>
        ensures { Hands L.Label.kind (λ _. ⊤) (held self.now) (held self.now) station.now (Look cell clearance)
            (station.now, result) }
    {
        match station {
            Station::Idle(idle) => {
                match idle.look(self.memory.as_slice(), cell, clearance) {
                    Ok(number) => Reply::Shown(number),
                    Err(why) => Reply::Refused(why),
                }
            }
            other => Reply::NotTaken(other.state()),
        }
    }

    fn start(&self, station: Station<L>) -> (Station<L>, Reply<L>)
        ensures { Hands L.Label.kind (λ _. ⊤) (held self.now) (held self.now) station Start result }
    {
        match station {
            Station::Idle(idle) => (Station::Running(idle.start()), Reply::Started),
            other => declined(other),
        }
    }

    fn go<P: Policy<L>>(
        &mut self,
        policy: &mut P,
        station: Station<L>,
        fuel: u32,
    ) -> (Station<L>, Reply<L>)
        ensures hands { Hands L.Label.kind (P.Policy.faithful policy.old)
            (held self.old) (held self.new) station (Go fuel) result }
        ensures still { StaysTrue P.Policy policy.old policy.new }
        ensures unasked { Unasked (held self.old) station (Go fuel) → policy.new ≡ policy.old }
    {
        match station {
            Station::Running(running) => {
                match running.go(
                    self.program.as_slice(),
                    self.memory.as_mut_slice(),
                    self.stack.as_mut_slice(),
                    self.log.as_mut_slice(),
                    policy,
                    fuel,
                ) {
                    Ok(Gone { station, steps }) => {
                        let state = station.state();
                        (station, Reply::Gone { steps, state })
                    }
                    Err(Refused { why, station }) => {
                        (Station::Running(station), Reply::Refused(why))
                    }
                }
            }
            other => declined(other),
        }
    }

    pub(crate) fn next_command(&self, station: &Station<L>, from: usize, clearance: L) -> Reply<L>
        ensures { Hands L.Label.kind (λ _. ⊤) (held self.now) (held self.now) station.now (NextCommand from clearance)
            (station.now, result) }
    {
        match station.next_command(self.log.as_slice(), from, clearance) {
            Ok(place) => Reply::Found(place),
            Err(why) => Reply::Refused(why),
        }
    }
}

impl<L: Copy> Parts<L> {
    /// A copy of the parts.
    pub fn copied(&self, heap: Global) -> Result<Parts<L>, AllocError>
        ensures { IfOk result (Untouched self.now) }
    {
        Ok(Parts {
            program: copied(heap, self.program.as_slice())?,
            memory: copied(heap, self.memory.as_slice())?,
            stack: copied(heap, self.stack.as_slice())?,
            log: copied(heap, self.log.as_slice())?,
        })
    }
}

fn copied<T: Copy>(heap: Global, list: &[T]) -> Result<Vec<T>, AllocError>
    ensures { IfOk result (λ copy. copy.items ≡ list.now) }
{
    list.iter().copied().collect(heap)
}

// The station as it was, and the reply that its state takes no such call.
fn declined<L>(station: Station<L>) -> (Station<L>, Reply<L>)
    ensures { LeavesUntaken station result }
{
    let state = station.state();
    (station, Reply::NotTaken(state))
}
