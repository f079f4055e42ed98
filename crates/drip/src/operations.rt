// Operations as they stand in a sheet.
use labels::Label;
use machine::Operation;
use std::fmt;

/// An operation as it stands in a sheet, as `push 5@0001`.
#[derive(Clone, Copy)]
pub struct Spelled<L>(pub Operation<L>);

impl<L: Label> fmt::Display for Spelled<L> {
    fn fmt<W: fmt::Write>(&self, f: &mut fmt::Formatter<W>) -> fmt::Result {
        match self.0 {
            Operation::Push(number) => write!(f, "push {number}"),
            Operation::Pop => write!(f, "pop"),
            Operation::Noop => write!(f, "noop"),
            Operation::Add => write!(f, "add"),
            Operation::Sub => write!(f, "sub"),
            Operation::Less => write!(f, "less"),
            Operation::Load => write!(f, "load"),
            Operation::Store => write!(f, "store"),
            Operation::Jump => write!(f, "jump"),
            Operation::Bnz(distance) => write!(f, "bnz {distance}"),
            Operation::Call { count, due } => write!(f, "call {count} {}", u8::from(due)),
            Operation::Return => write!(f, "return"),
            Operation::Output => write!(f, "output"),
            Operation::Halt => write!(f, "halt"),
        }
    }
}
