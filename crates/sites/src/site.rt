// A station where it is installed, with the parts and the policy that it is lent at each call.
ghost use Rattle.std.specs.Prelude.{◌≡◌, ◌↔◌, IfOk, IsTrue, length, ⊤};
ghost use Rattle.machine.specs.Stations.{Idle as IsIdle, commands_of, memory_of, state_of};
ghost use Rattle.machine.specs.declared.calls.Call.TheVariants.{NextCommand, Look};
ghost use Rattle.steps.specs.Operations.{StaysTrue};
ghost use Rattle.station.specs.Views.{made_sizes};
ghost use Rattle.sites.specs.Calls.{Asking, Does, Refuses};
ghost use Rattle.sites.specs.Rehearsals.{Rehearses};
ghost use Rattle.sites.specs.Sites.{Installed, Installs, Untouched, held, sited, sizes_of};

use crate::{Parts, Rehearsal, Reply};
use labels::Label;
use machine::{Call, Labelled, Operation, Refusal, State};
use rules::Policy;
use station::{Idle, Station};
use std::alloc::{AllocError, Global};
use std::marker::Model;

/// A station with its own parts and its policy. Every call is lent the station's own parts, as the call before
/// left them, and the station's policy. Contracts see the station with its parts as the definitions have it,
/// and the policy.
#[derive(Drop)]
pub struct Site<P, L> {
    station: Station<L>,
    parts: Parts<L>,
    policy: P,
}

impl<P, L> Model for Site<P, L> {
    ghost Value = { Installed P L };

    ghost view = { λ s. record { sited = sited s.station (held s.parts); policy = s.policy } };

    ghost invariant = { λ s. made_sizes s.station ≡ sizes_of s.parts };
}

impl<P: Policy<L> + Drop, L: Label> Site<P, L> {
    /// Makes a station of these parts. Refused if one of them is outside its limits.
    pub fn make(parts: Parts<L>, policy: P) -> Result<Site<P, L>, Refusal>
        ensures { Installs parts policy result }
    {
        let idle = Idle::make(
            parts.program.as_slice(),
            parts.memory.as_slice(),
            parts.stack.as_slice(),
            parts.log.as_slice(),
        )?;
        Ok(Site {
            station: Station::Idle(idle),
            parts,
            policy,
        })
    }

    /// Makes a call on the station: the site as the call leaves it, and the reply. A call that the state does not take
    /// changes nothing, and the reply says so.
    pub fn call(self, call: Call<L>) -> (Site<P, L>, Reply<L>)
        ensures does { Does L.Label.kind (P.Policy.faithful self.policy) self.sited call result.0.sited result.1 }
        ensures still { StaysTrue P.Policy self.policy result.0.policy }
        ensures unasked { (Asking self.sited.station call → ⊥) → result.0.policy ≡ self.policy }
    {
        let Site {
            station,
            mut parts,
            mut policy,
        } = self;
        let (station, reply) = parts.lend(&mut policy, station, call);
        let site = Site {
            station,
            parts,
            policy,
        };
        (site, reply)
    }

    /// Makes a call that hands in others' parts in place of the station's own: the site, which has not changed, and the
    /// reply. It is made only to be refused for a part of another length.
    pub fn call_with(self, others: &mut Parts<L>, call: Call<L>) -> (Site<P, L>, Reply<L>)
        ensures refuses { Refuses self.sited (sizes_of others.old) call result.0.sited result.1 }
        ensures untouched { Untouched others.old others.new }
        ensures policy { result.0.policy ≡ self.policy }
    {
        let Site {
            station,
            parts,
            mut policy,
        } = self;
        let (station, reply) = others.offer(&parts, &mut policy, station, call);
        let site = Site {
            station,
            parts,
            policy,
        };
        (site, reply)
    }
}

impl<P, L: Label> Site<P, L> {
    /// Looks at a cell, which changes nothing.
    pub fn look(&self, cell: usize, clearance: L) -> Reply<L>
        ensures { Does L.Label.kind (λ _. ⊤) self.now.sited (Look cell clearance) self.now.sited result }
    {
        self.parts.look(&self.station, cell, clearance)
    }

    /// Asks for the next command, which changes nothing.
    pub fn next_command(&self, from: usize, clearance: L) -> Reply<L>
        ensures { Does L.Label.kind (λ _. ⊤) self.now.sited (NextCommand from clearance) self.now.sited result }
    {
        self.parts.next_command(&self.station, from, clearance)
    }

    /// The round of a running station, to be stepped on copies of its parts, or none if it runs none.
    pub fn rehearse(&self, heap: Global) -> Result<Option<Rehearsal<L>>, AllocError>
        ensures { IfOk result (Rehearses self.now.sited) }
    {
        let Station::Running(running) = &self.station else {
            return Ok(None);
        };
        Ok(Some(Rehearsal {
            registers: running.registers(),
            parts: self.parts.copied(heap)?,
        }))
    }
}

impl<P, L> Site<P, L> {
    /// The station's program.
    pub fn program(&self) -> &[Operation<L>]
        ensures { result.now ≡ self.now.sited.setup.program }
    {
        self.parts.program.as_slice()
    }

    /// The station's memory.
    pub fn memory(&self) -> &[Labelled<L>]
        ensures is { result.now ≡ memory_of self.now.sited.station }
        ensures as_made { length result.now ≡ self.now.sited.setup.sizes.memory }
    {
        self.parts.memory.as_slice()
    }

    /// The commands so far, the oldest first.
    pub fn commands(&self) -> &[Labelled<L>]
        ensures { result.now ≡ commands_of self.now.sited.station }
    {
        self.station.window().commands(self.parts.log.as_slice())
    }

    /// Whether the station is idle.
    pub fn is_idle(&self) -> bool
        ensures { IsTrue result ↔ IsIdle self.now.sited.station }
    {
        matches!(self.station, Station::Idle(_))
    }

    /// The state that the station is in.
    pub fn state(&self) -> State
        ensures { result ≡ state_of self.now.sited.station }
    {
        self.station.state()
    }
}
