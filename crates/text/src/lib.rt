// What installers write and read: the words of a line, rule questions and their answers.
#![tactic(auto)]

mod questions;
mod words;

pub use questions::{Answer, Fault, answer_line, label_named, read_request};
pub use words::{before_comment, next_word};
