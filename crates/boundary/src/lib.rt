// The engine behind C functions on numbers, for programs that are not written in Rattle.
#![tactic(auto)]

mod calls;
mod choices;
mod codes;
mod exports;
mod faults;
mod kinds;
mod lists;
mod parts;
mod plans;
mod reports;
