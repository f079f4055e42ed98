// The policy that works the published rows out.
ghost use Rattle.std.specs.Prelude.{◌≡◌};
ghost use Rattle.rules.specs.Policies.{DirectFaithful, DirectAsked, direct_policy, Named};
ghost use Rattle.rules.specs.Tables.{Obeys, published};

use crate::{Opcode, Policy, Request, Verdict};
use labels::Label;

/// The policy that works the published rows out at each request.
#[derive(Clone, Copy, Debug, PartialEq, Eq, Hash)]
pub struct Direct {}

impl Direct {
    /// The policy, true to the published rows for labels of kind `L`.
    pub fn new<L: Label>() -> Direct
        ensures faithful { DirectFaithful L.Label.kind result (published L.Label.kind) }
        ensures named { Named ⟦<Direct as Policy<L>>⟧ (direct_policy L.Label.kind) }
    {
        Direct {}
    }
}

impl<L: Label> Policy<L> for Direct {
    ghost faithful = { DirectFaithful L.Label.kind };

    ghost asked = { DirectAsked L.Label.kind };

    #[inline(always)]
    fn rule(&mut self, request: Request<L>) -> Option<Verdict<L>>
        ensures obeys { Obeys (DirectFaithful L.Label.kind) self.old request result self.new }
        ensures asked { DirectAsked L.Label.kind self.old request result self.new }
    {
        work_out(request)
    }
}

// The published rows, in one match: a table of closures would only wrap its arms.
fn work_out<L: Label>(request: Request<L>) -> Option<Verdict<L>>
    ensures { result ≡ published L.Label.kind request }
{
    if request.is_forbidden() {
        return None;
    }
    let Request {
        op,
        pc: p,
        a,
        b,
        c: _,
    } = request;
    let (pc, result) = match op {
        Opcode::Push => (p, a),
        Opcode::Pop | Opcode::Noop => (p, L::bottom()),
        Opcode::Add | Opcode::Sub | Opcode::Less | Opcode::Load => (p, a.join(b)),
        Opcode::Store => (p, a.join(b).join(p)),
        Opcode::Jump | Opcode::Bnz => (a.join(p), L::bottom()),
        Opcode::Call => (a.join(p), p),
        Opcode::Return => (a, b.join(p)),
        Opcode::Output => (p, a.join(p)),
    };
    Some(Verdict { pc, result })
}
