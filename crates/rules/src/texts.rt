// How operations, requests and verdicts read.
ghost use Rattle.std.specs.Prelude.{◌≡◌, Some, codes};
ghost use Rattle.rules.specs.Texts.{name, NameRead, request_text, verdict_text};

use crate::{Opcode, Request, Verdict};
use labels::Label;
use std::error::Error;
use std::fmt;
use std::str::FromStr;

// Every operation. An enum has no list of its variants.
const ALL: [Opcode; 13] = [
    Opcode::Push,
    Opcode::Pop,
    Opcode::Noop,
    Opcode::Add,
    Opcode::Sub,
    Opcode::Less,
    Opcode::Load,
    Opcode::Store,
    Opcode::Jump,
    Opcode::Bnz,
    Opcode::Call,
    Opcode::Return,
    Opcode::Output,
];

impl Opcode {
    /// The operation's name, in small letters.
    pub fn name(self) -> &'static str
        ensures { result.now ≡ name self }
    {
        match self {
            Opcode::Push => "push",
            Opcode::Pop => "pop",
            Opcode::Noop => "noop",
            Opcode::Add => "add",
            Opcode::Sub => "sub",
            Opcode::Less => "less",
            Opcode::Load => "load",
            Opcode::Store => "store",
            Opcode::Jump => "jump",
            Opcode::Bnz => "bnz",
            Opcode::Call => "call",
            Opcode::Return => "return",
            Opcode::Output => "output",
        }
    }
}

impl fmt::Display for Opcode {
    ghost output = { λ op. Some (name op) };

    fn fmt<W: fmt::Write>(&self, f: &mut fmt::Formatter<W>) -> fmt::Result {
        f.write_str(self.name())
    }
}

/// What a word that is no operation's name is read as.
#[derive(Clone, Copy, Debug, PartialEq, Eq, Hash)]
pub struct NotAnOperation;

impl FromStr for Opcode {
    type Err = NotAnOperation;

    ghost from_str_gives = { NameRead name };

    /// The operation of that name. Refuses every word that is no operation's name.
    fn from_str(word: &str) -> Result<Opcode, NotAnOperation> {
        ALL.iter()
            .find(|op| op.name() == word)
            .copied()
            .ok_or(NotAnOperation)
    }
}

impl fmt::Display for NotAnOperation {
    ghost output = { λ _. Some (codes "no operation has this name") };

    fn fmt<W: fmt::Write>(&self, f: &mut fmt::Formatter<W>) -> fmt::Result {
        f.write_str("no operation has this name")
    }
}

impl Error for NotAnOperation {}

impl<L: Label> fmt::Display for Request<L> {
    ghost output = { λ q. Some (request_text L.Label.text q) };

    fn fmt<W: fmt::Write>(&self, f: &mut fmt::Formatter<W>) -> fmt::Result {
        let Request { op, pc, a, b, c } = self;
        write!(f, "{op} {pc} {a} {b} {c}")
    }
}

impl<L: Label> fmt::Display for Verdict<L> {
    ghost output = { λ v. Some (verdict_text L.Label.text v) };

    fn fmt<W: fmt::Write>(&self, f: &mut fmt::Formatter<W>) -> fmt::Result {
        let Verdict { pc, result } = self;
        write!(f, "pc {pc}, result {result}")
    }
}
