// Lists of calls made on stations from making to the end, and two such runs compared as an observer sees them.
#![tactic(auto)]

mod comparers;
mod differences;
mod exchanges;
mod plans;
mod reports;

pub use exchanges::{Exchange, Lent};
pub use plans::{Plan, Ran};
pub use reports::{Compared, Looks, Report, Unmade, compare, same_below};
