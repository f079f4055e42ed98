// Stations where they are installed, each with its own parts and its policy, and replies as they are written.
#![tactic(auto)]

mod lending;
mod rehearsal;
mod replies;
mod site;

pub use lending::Parts;
pub use rehearsal::Rehearsal;
pub use replies::{Answered, Making, Reply};
pub use site::Site;
