// One type for whichever policy is named.
ghost use Rattle.std.specs.Prelude.{◌≡◌};
ghost use Rattle.policies.specs.AnyPolicy.{AnyFaithful, AnyAsked, any_policy, IsPicked};
ghost use Rattle.rules.specs.Policies.{Named};
ghost use Rattle.rules.specs.Tables.{Obeys, published};

use crate::PolicyName;
use labels::Label;
use rules::{Cached, Direct, Policy, Request, RowTable, Verdict};

/// Whichever policy a name picks. Code over it is compiled once for each kind of label, and not
/// once more for each policy.
#[derive(Debug, Drop)]
pub enum AnyPolicy<L> {
    Direct(Direct),
    Rows(RowTable),
    Cached(Cached<RowTable, L>),
}

impl<L: Label> AnyPolicy<L> {
    /// The policy with this name, as new, and true to the published rows.
    pub fn named(name: PolicyName) -> AnyPolicy<L>
        ensures picked { IsPicked name result }
        ensures faithful { AnyFaithful L.Label.kind result (published L.Label.kind) }
        ensures named { Named ⟦<AnyPolicy<L> as Policy<L>>⟧ (any_policy L.Label.kind) }
    {
        match name {
            PolicyName::Direct => AnyPolicy::Direct(Direct::new::<L>()),
            PolicyName::Rows => AnyPolicy::Rows(RowTable::new::<L>()),
            PolicyName::Cached => AnyPolicy::Cached(Cached::new(RowTable::new::<L>())),
        }
    }
}

impl<L: Label> Policy<L> for AnyPolicy<L> {
    ghost faithful = { AnyFaithful L.Label.kind };

    ghost asked = { AnyAsked L.Label.kind };

    fn rule(&mut self, request: Request<L>) -> Option<Verdict<L>>
        ensures obeys { Obeys (AnyFaithful L.Label.kind) self.old request result self.new }
        ensures asked { AnyAsked L.Label.kind self.old request result self.new }
    {
        match self {
            AnyPolicy::Direct(policy) => policy.rule(request),
            AnyPolicy::Rows(policy) => policy.rule(request),
            AnyPolicy::Cached(policy) => policy.rule(request),
        }
    }
}
