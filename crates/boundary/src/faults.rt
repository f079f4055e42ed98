// Why a plan in numbers is not run.
ghost use Rattle.std.specs.Prelude.{◌≡◌};
ghost use Rattle.boundary.specs.declared.faults.Fault.TheVariants.{OutOfMemory};

use machine::Refusal;
use std::alloc::{AllocError, AllocFailed};

/// Why a plan in numbers is not run or not compared.
#[derive(Clone, Copy, PartialEq, Eq)]
pub enum Fault {
    /// a number codes nothing
    NoCode,
    OutOfMemory,
    Unmade(Refusal),
}

impl From<AllocError> for Fault {
    ghost from_gives = { λ _ fault. fault ≡ OutOfMemory };

    fn from(_: AllocError) -> Fault {
        Fault::OutOfMemory
    }
}

impl<T: Drop> From<AllocFailed<T>> for Fault {
    ghost from_gives = { λ _ fault. fault ≡ OutOfMemory };

    fn from(_: AllocFailed<T>) -> Fault {
        Fault::OutOfMemory
    }
}
