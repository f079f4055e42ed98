// What the four parts of a station hold: operations, labelled numbers, stack entries.

/// A number with its label, written n@l.
#[derive(Clone, Copy, Debug, PartialEq, Eq, Hash)]
pub struct Labelled<L> {
    pub value: i32,
    pub label: L,
}

/// Where a call came from: the place to return to, whether a result is due there, and the label that the policy
/// gave the frame.
#[derive(Clone, Copy, Debug, PartialEq, Eq, Hash)]
pub struct Frame<L> {
    pub place: i64,
    pub due: bool,
    pub label: L,
}

/// An entry of the stack.
#[derive(Clone, Copy, Debug, PartialEq, Eq, Hash)]
pub enum Entry<L> {
    Number(Labelled<L>),
    Frame(Frame<L>),
}

/// An operation of a program. `Bnz` branches by so many places, `Call` hands over so many numbers and says whether a
/// result is due.
#[derive(Clone, Copy, Debug, PartialEq, Eq, Hash)]
pub enum Operation<L> {
    Push(Labelled<L>),
    Pop,
    Noop,
    Add,
    Sub,
    Less,
    Load,
    Store,
    Jump,
    Bnz(i32),
    Call { count: u8, due: bool },
    Return,
    Output,
    Halt,
}

/// How long the four parts are.
#[derive(Clone, Copy, Debug, PartialEq, Eq, Hash)]
pub struct Sizes {
    pub program: usize,
    pub memory: usize,
    pub stack: usize,
    pub log: usize,
}
