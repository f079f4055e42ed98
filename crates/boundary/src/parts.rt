// The parts of a station as structs of numbers.
ghost use Rattle.std.specs.Prelude.{◌≡◌, cond};
ghost use Rattle.boundary.specs.Decoding.{Decodes};
ghost use Rattle.boundary.specs.Parts.{CodesEntry, CodesNumber, CodesOperation, entry_code};
ghost use Rattle.boundary.specs.Parts.{number_code};

use crate::codes::Coded;
use machine::{Entry, Frame, Labelled, Operation};

/// A labelled number.
#[repr(C)]
#[derive(Clone, Copy)]
pub struct NumberCode {
    pub value: i32,
    pub label: u32,
}

/// An operation of a program: its number and what goes with it. Fields that an operation does not
/// use say nothing.
#[repr(C)]
#[derive(Clone, Copy)]
pub struct OperationCode {
    pub code: u32,
    pub value: i32,
    pub label: u32,
    pub due: u32,
}

/// An entry of the stack.
#[repr(C)]
#[derive(Clone, Copy)]
pub struct EntryCode {
    pub number: i64,
    pub label: u32,
    pub form: u32,
}

impl NumberCode {
    /// What a number is coded by.
    pub fn of<L: Coded>(number: Labelled<L>) -> NumberCode
        ensures { result ≡ number_code L.Coded.code number }
    {
        NumberCode {
            value: number.value,
            label: number.label.code(),
        }
    }

    /// The number that these code, if they code one.
    pub fn number<L: Coded>(self) -> Option<Labelled<L>>
        ensures { Decodes result (CodesNumber L.Coded.code self) }
    {
        Some(Labelled {
            value: self.value,
            label: L::of_code(self.label)?,
        })
    }
}

impl OperationCode {
    /// The operation that these code, if they code one.
    pub fn operation<L: Coded>(self) -> Option<Operation<L>>
        ensures { Decodes result (CodesOperation L.Coded.code self) }
    {
        match self.code {
            0 => Some(Operation::Push(Labelled {
                value: self.value,
                label: L::of_code(self.label)?,
            })),
            1 => Some(Operation::Pop),
            2 => Some(Operation::Noop),
            3 => Some(Operation::Add),
            4 => Some(Operation::Sub),
            5 => Some(Operation::Less),
            6 => Some(Operation::Load),
            7 => Some(Operation::Store),
            8 => Some(Operation::Jump),
            9 => Some(Operation::Bnz(self.value)),
            10 => Some(Operation::Call {
                count: u8::try_from(self.value).ok()?,
                due: yes_or_no(self.due)?,
            }),
            11 => Some(Operation::Return),
            12 => Some(Operation::Output),
            13 => Some(Operation::Halt),
            _ => None,
        }
    }
}

impl EntryCode {
    /// What an entry is coded by.
    pub fn of<L: Coded>(entry: Entry<L>) -> EntryCode
        ensures { result ≡ entry_code L.Coded.code entry }
    {
        match entry {
            Entry::Number(number) => EntryCode {
                number: i64::from(number.value),
                label: number.label.code(),
                form: 0,
            },
            Entry::Frame(frame) => EntryCode {
                number: frame.place,
                label: frame.label.code(),
                form: if frame.due { 2 } else { 1 },
            },
        }
    }

    /// The entry that these code, if they code one.
    pub fn entry<L: Coded>(self) -> Option<Entry<L>>
        ensures { Decodes result (CodesEntry L.Coded.code self) }
    {
        let label = L::of_code(self.label)?;
        let place = self.number;
        match self.form {
            0 => Some(Entry::Number(Labelled {
                value: i32::try_from(place).ok()?,
                label,
            })),
            1 => Some(Entry::Frame(Frame {
                place,
                due: false,
                label,
            })),
            2 => Some(Entry::Frame(Frame {
                place,
                due: true,
                label,
            })),
            _ => None,
        }
    }
}

/// A yes or no, coded as 1 or 0, if the number is one of these.
pub fn yes_or_no(code: u32) -> Option<bool>
    ensures { Decodes result (λ b. code ≡ cond b 1 0) }
{
    match code {
        0 => Some(false),
        1 => Some(true),
        _ => None,
    }
}
