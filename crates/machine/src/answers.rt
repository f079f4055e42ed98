// The parts of a station, why a call is refused, what stops a round, and what ends a go, each with its number.
ghost use Rattle.std.specs.Prelude.{◌≡◌};
ghost use Rattle.machine.specs.Numbers.{most, refusal_number, refusal_part, stop_number};

/// The four parts of a station, in the order in which they are tested.
#[derive(Clone, Copy, Debug, PartialEq, Eq, Hash)]
pub enum Part {
    Program,
    Memory,
    Stack,
    Log,
}

impl Part {
    /// How long a part may be at most; every part has at least one element.
    pub fn most(self) -> usize
        ensures { result ≡ most self }
    {
        match self {
            Part::Program | Part::Log => 4096,
            Part::Memory | Part::Stack => 1024,
        }
    }
}

/// Why a call is refused. A refused call changes nothing.
#[derive(Clone, Copy, Debug, PartialEq, Eq, Hash)]
pub enum Refusal {
    /// Making, with a part outside its limits.
    Limits(Part),
    /// A part not as long as when the station was made.
    Length(Part),
    /// A cell outside the memory.
    Cell,
    /// A look at a label that is not at or below the clearance.
    Clearance,
}

impl Refusal {
    /// The part that the call is refused for, if it is for one.
    pub fn part(self) -> Option<Part>
        ensures { result ≡ refusal_part self }
    {
        match self {
            Refusal::Limits(part) | Refusal::Length(part) => Some(part),
            Refusal::Cell | Refusal::Clearance => None,
        }
    }
}

/// Why a round is stopped, which shuts the station.
#[derive(Clone, Copy, Debug, PartialEq, Eq, Hash)]
pub enum Stop {
    /// The program counter is outside the program.
    OutsideProgram,
    /// Too few numbers above the nearest frame.
    TooFewNumbers,
    /// The stack is full.
    StackFull,
    /// An address outside the memory.
    OutsideMemory,
    /// The policy forbids the operation.
    Forbidden,
    /// A return without a frame.
    NoFrame,
    /// The log is full.
    LogFull,
    /// A halt above the bottom label.
    HaltAboveBottom,
}

/// Why a go takes no further step.
#[derive(Clone, Copy, Debug, PartialEq, Eq, Hash)]
pub enum End {
    /// The round is finished.
    Finished,
    /// The round runs on later, for want of fuel.
    OutOfFuel,
    /// The round is stopped.
    Stopped(Stop),
}

/// The number that a refusal is told by.
impl From<Refusal> for u8 {
    ghost from_gives = { λ refusal n. n ≡ refusal_number refusal };

    fn from(refusal: Refusal) -> u8 {
        match refusal {
            Refusal::Limits(_) => 1,
            Refusal::Length(_) => 2,
            Refusal::Cell => 3,
            Refusal::Clearance => 4,
        }
    }
}

/// The number that a stop is told by. Not by numbers of the variants, which those of a refusal could not have:
/// two hold a part.
impl From<Stop> for u8 {
    ghost from_gives = { λ stop n. n ≡ stop_number stop };

    fn from(stop: Stop) -> u8 {
        match stop {
            Stop::OutsideProgram => 21,
            Stop::TooFewNumbers => 22,
            Stop::StackFull => 23,
            Stop::OutsideMemory => 24,
            Stop::Forbidden => 25,
            Stop::NoFrame => 26,
            Stop::LogFull => 27,
            Stop::HaltAboveBottom => 28,
        }
    }
}
