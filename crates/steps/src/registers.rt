// What a running station has besides its parts, and what an operation starts from.
use crate::place::Place;
use crate::window::Window;

/// The place and label of the program counter, how many entries of the stack are in use, and the window over the log.
/// Stack and log are lent slices of fixed length that no station holds.
#[derive(Clone, Copy, Debug, PartialEq, Eq)]
pub struct Registers<L> {
    pub pc: i64,
    pub depth: usize,
    pub window: Window,
    pub pc_label: L,
}

/// The registers at an operation of the program. The entries in use are handed to the operation, so their
/// number is left out.
#[derive(Clone, Copy, Debug, PartialEq, Eq)]
pub struct Fetched<L> {
    pub pc: Place,
    pub pc_label: L,
    pub window: Window,
}
