// Station sheets: plain text that gives the parts of a station and the calls that are made on it,
// read into these.
#![tactic(auto)]

mod fault;
mod kind;
mod lines;
mod names;
mod numbers;
mod reader;
mod settings;
mod sheet;

pub use fault::{Due, Fault, Header, Problem};
pub use kind::{Kind, KindName, NotAKind};
pub use settings::kind_of;
pub use sheet::{Sheet, text_of};
