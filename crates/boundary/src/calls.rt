// Calls, replies and states as structs of numbers.
ghost use Rattle.std.specs.Prelude.{◌≡◌, IfOk};
ghost use Rattle.sites.specs.Sites.{sizes_of};
ghost use Rattle.boundary.specs.Calls.{CodesCall, CodesExchange, part_code, refused_part, reply_code};
ghost use Rattle.boundary.specs.Calls.{state_code, state_place};
ghost use Rattle.boundary.specs.Decoding.{Decodes, DecodesOnHeap};

use crate::codes::Coded;
use crate::faults::Fault;
use crate::parts::yes_or_no;
use compare::{Exchange, Lent};
use labels::Label;
use machine::{Call, Entry, Labelled, Operation, Part, Refusal, State};
use sites::{Parts, Reply};
use std::alloc::{AllocError, Global};

/// A call: its number and what goes with it, and whether others' parts are lent in place of
/// the station's own, of which lengths. Fields that a call does not use say nothing.
#[repr(C)]
#[derive(Clone, Copy)]
pub struct CallCode {
    /// the cell, the place or the fuel
    pub index: u64,
    pub code: u32,
    pub value: i32,
    pub label: u32,
    pub lent: u32,
    pub program: u32,
    pub memory: u32,
    pub stack: u32,
    pub log: u32,
}

/// A reply. Fields that a reply does not use are 0, and so are all where there is none.
#[repr(C)]
#[derive(Clone, Copy)]
pub struct ReplyCode {
    /// the number shown, or the place of a stop
    pub number: i64,
    /// the place of a command that was found
    pub place: u64,
    pub code: u32,
    pub label: u32,
    pub steps: u32,
    pub state: u32,
    pub refusal: u32,
    pub part: u32,
}

impl CallCode {
    // The call that the numbers code, if they code one.
    fn call<L: Coded>(self) -> Option<Call<L>>
        ensures { Decodes result (CodesCall L.Coded.code self) }
    {
        match self.code {
            0 => Some(Call::Enter {
                cell: self.index as usize,
                number: Labelled {
                    value: self.value,
                    label: L::of_code(self.label)?,
                },
            }),
            1 => Some(Call::Look {
                cell: self.index as usize,
                clearance: L::of_code(self.label)?,
            }),
            2 => Some(Call::Start),
            3 => Some(Call::Go {
                fuel: u32::try_from(self.index).ok()?,
            }),
            4 => Some(Call::NextCommand {
                from: self.index as usize,
                clearance: L::of_code(self.label)?,
            }),
            _ => None,
        }
    }

    /// The call, to be made, with the parts that it is lent. Others'
    /// parts hold nothing of use: they are not the station's.
    pub fn exchange<L: Coded>(self, heap: Global) -> Result<Exchange<L>, Fault>
        ensures { DecodesOnHeap result (CodesExchange L.Coded.code self) }
    {
        let Some(call) = self.call() else {
            return Err(Fault::NoCode);
        };
        let lent = match yes_or_no(self.lent) {
            Some(false) => Lent::Own,
            Some(true) => Lent::Others(self.others(heap)?),
            None => return Err(Fault::NoCode),
        };
        Ok(Exchange {
            call,
            lent,
            reply: None,
        })
    }

    // Parts of the lengths that the numbers say.
    fn others<L: Label>(self, heap: Global) -> Result<Parts<L>, AllocError>
        ensures { IfOk result (λ parts. sizes_of parts
            ≡ record { program = self.program; memory = self.memory; stack = self.stack; log = self.log }) }
    {
        let zero = Labelled {
            value: 0,
            label: L::bottom(),
        };
        Ok(Parts {
            program: Vec::from_elem(heap, Operation::Noop, self.program as usize)?,
            memory: Vec::from_elem(heap, zero, self.memory as usize)?,
            stack: Vec::from_elem(heap, Entry::Number(zero), self.stack as usize)?,
            log: Vec::from_elem(heap, zero, self.log as usize)?,
        })
    }
}

const BLANK: ReplyCode = ReplyCode {
    number: 0,
    place: 0,
    code: 0,
    label: 0,
    steps: 0,
    state: 0,
    refusal: 0,
    part: 0,
};

impl ReplyCode {
    /// What a reply is coded by, or that there is none.
    pub fn of<L: Coded>(reply: Option<Reply<L>>) -> ReplyCode
        ensures { result ≡ reply_code L.Coded.code reply }
    {
        let Some(reply) = reply else {
            return BLANK;
        };
        match reply {
            Reply::Entered => ReplyCode { code: 1, ..BLANK },
            Reply::Shown(number) => ReplyCode {
                code: 2,
                number: i64::from(number.value),
                label: number.label.code(),
                ..BLANK
            },
            Reply::Started => ReplyCode { code: 3, ..BLANK },
            Reply::Gone { steps, state } => ReplyCode {
                code: 4,
                steps,
                state: state_code(state),
                number: state_place(state),
                ..BLANK
            },
            Reply::Found(Some(place)) => ReplyCode {
                code: 5,
                place: place as u64,
                ..BLANK
            },
            Reply::Found(None) => ReplyCode { code: 6, ..BLANK },
            Reply::Refused(why) => ReplyCode {
                code: 7,
                refusal: u32::from(u8::from(why)),
                part: refused_part(why),
                ..BLANK
            },
            Reply::NotTaken(state) => ReplyCode {
                code: 8,
                state: state_code(state),
                number: state_place(state),
                ..BLANK
            },
            Reply::NotLent => ReplyCode { code: 9, ..BLANK },
        }
    }
}

/// The number of a state: 0 idle, 1 running, or the number of the stop.
pub fn state_code(state: State) -> u32
    ensures { result ≡ state_code state }
{
    match state {
        State::Idle => 0,
        State::Running => 1,
        State::Shut { stop, .. } => u32::from(u8::from(stop)),
    }
}

/// The place of the stop, or 0 where there was none.
pub fn state_place(state: State) -> i64
    ensures { result ≡ state_place state }
{
    match state {
        State::Idle | State::Running => 0,
        State::Shut { place, .. } => place,
    }
}

/// The number of the part that a refusal is for, or 0 if it is for none.
pub fn refused_part(why: Refusal) -> u32
    ensures { result ≡ refused_part why }
{
    match why.part() {
        Some(part) => part_code(part),
        None => 0,
    }
}

// The number of a part, from 1 on.
fn part_code(part: Part) -> u32
    ensures { result ≡ part_code part }
{
    match part {
        Part::Program => 1,
        Part::Memory => 2,
        Part::Stack => 3,
        Part::Log => 4,
    }
}
