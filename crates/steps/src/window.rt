// What of the log is in use.
ghost use Rattle.std.specs.Prelude.{◌≡◌, ◌+◌, ◌<◌, ◌≤◌, [], ◌∷◌, ◌++◌, length, nat_le};

use crate::walks::write;
use machine::Labelled;

/// What of a log is in use: its first so many places, with the oldest command first. The log is a lent slice of fixed
/// length that no station holds, so what is in use of it is counted here.
#[derive(Clone, Copy, Debug, PartialEq, Eq)]
pub struct Window {
    count: usize,
}

impl Window {
    ghost use Rattle.steps.specs.Windows.{logged};

    /// A window with no command.
    pub fn empty() -> Window
        ensures { result.count ≡ 0 }
    {
        Window { count: 0 }
    }

    /// How many commands there are.
    pub fn count(self) -> usize
        ensures { result ≡ self.count }
    {
        self.count
    }

    /// Whether the log has no room for another command.
    #[inline(always)]
    pub fn is_full<L>(self, log: &[Labelled<L>]) -> bool
        ensures { result ≡ nat_le (length log.now) self.count }
    {
        self.count >= log.len()
    }

    /// Adds a command, the newest: the window over the log with it.
    #[inline(always)]
    pub fn push<L: Copy>(self, log: &mut [Labelled<L>], command: Labelled<L>) -> Window
        requires room { self.count < length log.old }
        ensures pushed { logged result log.new ≡ logged self log.old ++ command ∷ [] }
        ensures count { result.count ≡ self.count + 1 }
    {
        write(&mut log[self.count], command);
        Window {
            count: self.count + 1,
        }
    }

    /// The commands, the oldest first.
    pub fn commands<L>(self, log: &[Labelled<L>]) -> &[Labelled<L>]
        requires within { self.count ≤ length log.now }
        ensures { result.now ≡ logged self log.now }
    {
        &log[..self.count]
    }
}
