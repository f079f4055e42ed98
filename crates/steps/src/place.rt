// Places of a program.
ghost use Rattle.std.specs.Prelude.{◌≡◌, pos, ◌+ℤ◌};
ghost use Rattle.machine.specs.Steps.{branch};
ghost use Rattle.steps.specs.Places.{InProgram};

/// A program counter that is in the program.
#[derive(Clone, Copy, Debug, PartialEq, Eq)]
pub struct Place {
    pub number: i64,
    ghost in_program: { InProgram number },
}

impl Place {
    /// The place after this one.
    pub fn next(self) -> i64
        ensures { result ≡ self.number +ℤ pos 1 }
    {
        self.number + 1
    }

    /// Where a branch by so many places goes: on to the next place at 0.
    pub fn branch(self, by: i32, number: i32) -> i64
        ensures { result ≡ branch self.number by number }
    {
        if number == 0 {
            self.next()
        } else {
            self.number + i64::from(by)
        }
    }
}
