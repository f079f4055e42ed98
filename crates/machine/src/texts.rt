// How labelled numbers, calls, states and refusals are written.
ghost use Rattle.std.specs.Prelude.{◌≡◌, Some};
ghost use Rattle.machine.specs.Texts.{call_text, number_text, part_name, refusal_text, state_text};

use crate::{Call, Labelled, Part, Refusal, State};
use labels::Label;
use std::fmt;

/// A labelled number is written n@l.
impl<L: Label> fmt::Display for Labelled<L> {
    ghost output = { λ n. Some (number_text L.Label.text n) };

    fn fmt<W: fmt::Write>(&self, f: &mut fmt::Formatter<W>) -> fmt::Result {
        let Labelled { value, label } = self;
        write!(f, "{value}@{label}")
    }
}

/// A call is written as its word and what goes with it.
impl<L: Label> fmt::Display for Call<L> {
    ghost output = { λ call. Some (call_text L.Label.text call) };

    fn fmt<W: fmt::Write>(&self, f: &mut fmt::Formatter<W>) -> fmt::Result {
        match *self {
            Call::Enter { cell, number } => write!(f, "enter {cell} {number}"),
            Call::Look { cell, clearance } => write!(f, "look {cell} {clearance}"),
            Call::Start => write!(f, "start"),
            Call::Go { fuel } => write!(f, "go {fuel}"),
            Call::NextCommand { from, clearance } => write!(f, "command {from} {clearance}"),
        }
    }
}

/// A state is written in a word, and where it is shut with the stop and its place.
impl fmt::Display for State {
    ghost output = { λ state. Some (state_text state) };

    fn fmt<W: fmt::Write>(&self, f: &mut fmt::Formatter<W>) -> fmt::Result {
        match *self {
            State::Idle => write!(f, "idle"),
            State::Running => write!(f, "running"),
            State::Shut { stop, place } => {
                write!(f, "shut with {} at place {place}", u8::from(stop))
            }
        }
    }
}

/// A refusal is written as its number, and where a part is outside its limits with that part's name.
impl fmt::Display for Refusal {
    ghost output = { λ why. Some (refusal_text why) };

    fn fmt<W: fmt::Write>(&self, f: &mut fmt::Formatter<W>) -> fmt::Result {
        let number = u8::from(*self);
        match *self {
            Refusal::Limits(part) => write!(f, "{number}, {}", part.name()),
            _ => write!(f, "{number}"),
        }
    }
}

impl Part {
    /// The part's name, in a word.
    pub fn name(self) -> &'static str
        ensures { result.now ≡ part_name self }
    {
        match self {
            Part::Program => "program",
            Part::Memory => "memory",
            Part::Stack => "stack",
            Part::Log => "log",
        }
    }
}
