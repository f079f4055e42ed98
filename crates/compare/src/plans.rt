// A station to be made with a list of calls, and what is left once they were made.
ghost use Rattle.std.specs.Prelude.{◌≡◌};
ghost use Rattle.compare.specs.Runs.{Plays, RunsTo};

use crate::exchanges::Exchange;
use labels::Label;
use machine::Refusal;
use rules::Policy;
use sites::{Parts, Site};

/// What a station is made of, its policy, and the calls to be made on it, one after the other.
#[derive(Drop)]
pub struct Plan<P, L> {
    pub parts: Parts<L>,
    pub policy: P,
    pub exchanges: Vec<Exchange<L>>,
}

/// The station as the last call left it, and the calls with their replies.
#[derive(Drop)]
pub struct Ran<P, L> {
    pub site: Site<P, L>,
    pub exchanges: Vec<Exchange<L>>,
}

impl<P: Policy<L> + Drop, L: Label> Plan<P, L> {
    /// Makes the station and then the calls. Refused if the station is not made.
    /// A call that the station's state does not take is not made.
    pub fn run(self) -> Result<Ran<P, L>, Refusal>
        ensures { RunsTo L.Label.kind P.Policy self result }
    {
        let Plan {
            parts,
            policy,
            mut exchanges,
        } = self;
        let site = Site::make(parts, policy)?;
        let site = make_all(site, exchanges.as_mut_slice());
        Ok(Ran { site, exchanges })
    }
}

// Makes the calls on a site, one after the other, and keeps the replies.
fn make_all<P: Policy<L> + Drop, L: Label>(
    site: Site<P, L>,
    exchanges: &mut [Exchange<L>],
) -> Site<P, L>
    ensures { Plays L.Label.kind P.Policy site exchanges.old exchanges.new result }
{
    let mut site = site;
    for exchange in exchanges.iter_mut() {
        site = exchange.make_on(site);
    }
    site
}
