// One step of a running station: registers, the window over the log, walks over the lent parts, operations.
#![tactic(auto)]

mod operations;
mod place;
mod registers;
mod step;
mod walks;
mod window;

pub use registers::Registers;
pub use window::Window;
