// Calls in a list: each with what it is lent and, once it was its turn, the reply.
ghost use Rattle.std.specs.Prelude.{◌≡◌};
ghost use Rattle.compare.specs.Runs.{Exchanged, counts, own_call};

use labels::Label;
use machine::{Call, Refusal};
use rules::Policy;
use sites::{Parts, Reply, Site};

/// What a call is lent: the station's own parts, or others in their place.
#[derive(Debug, Drop)]
pub enum Lent<L> {
    Own,
    Others(Parts<L>),
}

/// A call of a list, with what it is lent and the reply.
#[derive(Debug, Drop)]
pub struct Exchange<L> {
    pub call: Call<L>,
    pub lent: Lent<L>,
    /// The reply, once the call was made or declined.
    pub reply: Option<Reply<L>>,
}

impl<L: Label> Exchange<L> {
    /// A call that is lent the station's own parts, before it is made.
    pub fn of(call: Call<L>) -> Exchange<L>
        ensures { result ≡ own_call call }
    {
        Exchange {
            call,
            lent: Lent::Own,
            reply: None,
        }
    }

    // Makes the call on a site and keeps the reply.
    pub(crate) fn make_on<P: Policy<L> + Drop>(&mut self, site: Site<P, L>) -> Site<P, L>
        ensures { Exchanged L.Label.kind P.Policy site self.old result self.new }
    {
        let call = self.call;
        let (site, reply) = match &mut self.lent {
            Lent::Own => site.call(call),
            Lent::Others(parts) => site.call_with(parts, call),
        };
        self.reply = Some(reply);
        site
    }

    /// Whether the call counts when two lists are compared: an enter or a start that was made,
    /// and not refused for a part.
    pub fn counts(&self) -> bool
        ensures { result ≡ counts self.now }
    {
        let stands = !matches!(
            self.reply,
            None | Some(Reply::NotTaken(_) | Reply::NotLent | Reply::Refused(Refusal::Length(_)))
        );
        stands && self.call.is_input()
    }
}
