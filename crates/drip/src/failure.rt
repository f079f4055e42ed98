// How the program ends where it does not end well.
use std::alloc::{AllocError, AllocFailed};
use std::io;

/// Why the program ends with status 1.
#[derive(Drop)]
pub enum Failure {
    /// What is wrong was told.
    Told,
    /// The arguments are no text, there was no memory, or nothing could be written.
    Io(io::Error),
}

impl From<io::Error> for Failure {
    fn from(e: io::Error) -> Failure {
        Failure::Io(e)
    }
}

impl From<AllocError> for Failure {
    fn from(e: AllocError) -> Failure {
        Failure::Io(io::Error::from(e))
    }
}

impl<T: Drop> From<AllocFailed<T>> for Failure {
    fn from(_e: AllocFailed<T>) -> Failure {
        Failure::from(AllocError)
    }
}
