// The replies to the calls of a station as they are written, a line each: the call's own words, a colon, the reply.
ghost use Rattle.std.specs.Prelude.{Some};
ghost use Rattle.sites.specs.Texts.{answered_text, ending_text, making_text, reply_text};

use labels::Label;
use machine::{Call, Labelled, Refusal, State};
use std::fmt;

/// What a call is answered.
#[derive(Clone, Copy, Debug, PartialEq, Eq)]
pub enum Reply<L> {
    Entered,
    Shown(Labelled<L>),
    Started,
    /// How many steps a go took, and the state that it left.
    Gone { steps: u32, state: State },
    /// The place of the next command, if there is one.
    Found(Option<usize>),
    Refused(Refusal),
    /// The station's state takes no such call.
    NotTaken(State),
    /// The call is not made, since it hands in parts that are as long as the station's own and are not its own.
    NotLent,
}

/// A call with its reply.
#[derive(Clone, Copy, Debug, PartialEq, Eq)]
pub struct Answered<L> {
    pub call: Call<L>,
    pub reply: Reply<L>,
}

/// How making is told: whether it was refused, and why.
#[derive(Clone, Copy, Debug, PartialEq, Eq)]
pub struct Making(pub Option<Refusal>);

// How a go ended, by the state that it left.
#[derive(Clone, Copy)]
struct Ending(State);

impl<L: Label> fmt::Display for Reply<L> {
    ghost output = { λ reply. Some (reply_text L.Label.text reply) };

    fn fmt<W: fmt::Write>(&self, f: &mut fmt::Formatter<W>) -> fmt::Result {
        match *self {
            Reply::Entered => write!(f, "done"),
            Reply::Shown(number) => write!(f, "{number}"),
            Reply::Started => write!(f, "running"),
            Reply::Gone { steps, state } => write!(f, "{} after {steps} steps", Ending(state)),
            Reply::Found(Some(place)) => write!(f, "place {place}"),
            Reply::Found(None) => write!(f, "none"),
            Reply::Refused(why) => write!(f, "refused with {why}"),
            Reply::NotTaken(state) => write!(f, "not taken, the station is {state}"),
            Reply::NotLent => write!(f, "not made, the parts are not the station's own"),
        }
    }
}

impl<L: Label> fmt::Display for Answered<L> {
    ghost output = { λ x. Some (answered_text L.Label.text x) };

    fn fmt<W: fmt::Write>(&self, f: &mut fmt::Formatter<W>) -> fmt::Result {
        write!(f, "{}: {}", self.call, self.reply)
    }
}

impl fmt::Display for Making {
    ghost output = { λ making. Some (making_text making.0) };

    fn fmt<W: fmt::Write>(&self, f: &mut fmt::Formatter<W>) -> fmt::Result {
        match self.0 {
            None => write!(f, "make: made"),
            Some(why) => write!(f, "make: refused with {why}"),
        }
    }
}

impl fmt::Display for Ending {
    ghost output = { λ ending. Some (ending_text ending.0) };

    fn fmt<W: fmt::Write>(&self, f: &mut fmt::Formatter<W>) -> fmt::Result {
        match self.0 {
            State::Idle => write!(f, "finished"),
            State::Running => write!(f, "running"),
            State::Shut { stop, place } => {
                write!(f, "stopped with {} at place {place}", u8::from(stop))
            }
        }
    }
}
