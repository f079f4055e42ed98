// What a station is made of and what it means: its parts, operations, calls and answers; and the theorems about them.
#![tactic(auto)]

mod answers;
mod calls;
mod parts;
mod texts;
mod theorems;

pub use answers::{End, Part, Refusal, Stop};
pub use calls::{Call, State};
pub use parts::{Entry, Frame, Labelled, Operation, Sizes};
pub use theorems::{
    commands_grow, entered_is_shown, forbidden_does_nothing, fuel_spent, goes_add_up,
    looking_changes_nothing, memory_keeps_length, next_is_first, noninterference,
    refused_changes_nothing, shut_for_good, within_sizes, worked_calls, worked_pair,
    worked_requests, worked_steps, worked_tests,
};
