// The policy that remembers the last request and its answer.
ghost use Rattle.std.specs.Prelude.{◌≡◌, None};
ghost use Rattle.rules.specs.Policies.{CachedFaithful, CachedAsked, cached_policy, Named};
ghost use Rattle.rules.specs.Tables.{Table, Obeys};

use crate::{Policy, Request, Verdict};
use labels::Label;

/// A request and what was answered.
#[derive(Clone, Copy, Debug, PartialEq, Eq, Hash)]
pub struct Memory<L> {
    pub request: Request<L>,
    pub answer: Option<Verdict<L>>,
}

/// A cache of one line over any policy, itself included: it remembers its last request and answer.
#[derive(Debug, Drop)]
pub struct Cached<P, L> {
    pub(crate) below: P,
    pub(crate) last: Option<Memory<L>>,
}

impl<P: Policy<L>, L: Label> Cached<P, L> {
    /// A cache that remembers nothing yet, true to whatever table the policy below is true to.
    pub fn new(below: P) -> Cached<P, L>
        ensures below { result.below ≡ below }
        ensures empty { result.last ≡ None }
        ensures named { Named ⟦<Cached<P, L> as Policy<L>>⟧ (cached_policy P.Policy) }
        ensures faithful { (t : Table L) → P.Policy.faithful below t
            → CachedFaithful P.Policy.faithful result t }
    {
        Cached { below, last: None }
    }
}

impl<P: Policy<L>, L: Label> Policy<L> for Cached<P, L> {
    ghost faithful = { CachedFaithful P.Policy.faithful };

    ghost asked = { CachedAsked P.Policy.asked };

    #[inline(always)]
    fn rule(&mut self, request: Request<L>) -> Option<Verdict<L>>
        ensures obeys { Obeys (CachedFaithful P.Policy.faithful) self.old request result self.new }
        ensures asked { CachedAsked P.Policy.asked self.old request result self.new }
    {
        match self.last {
            Some(memory) if memory.request.same_as(request) => memory.answer,
            _ => {
                let answer = self.below.rule(request);
                self.last = Some(Memory { request, answer });
                answer
            }
        }
    }
}
