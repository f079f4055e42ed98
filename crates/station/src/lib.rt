// A station and its calls: make, enter, look, start, go and the question for the next command.
#![tactic(auto)]

mod any;
mod commands;
mod idle;
mod lengths;
mod running;
mod shut;

pub use any::Station;
pub use idle::Idle;
pub use running::{Gone, Refused, Running};
pub use shut::Shut;
