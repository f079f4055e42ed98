// The rule policies by name, and one type for whichever of them is named.
#![tactic(auto)]

mod any;
mod name;

pub use any::AnyPolicy;
pub use name::{NotAPolicy, PolicyName};
