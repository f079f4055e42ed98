// How labels are coded by numbers.
ghost use Rattle.std.specs.Prelude.{◌≡◌, ℕ, ◌<◌};
ghost use Rattle.boundary.specs.Decoding.{Decodes};
ghost use Rattle.boundary.specs.Labels.{growers_code, level_code, pair_code};
ghost use Rattle.std.proofs.Common.{rules};

use labels::{Growers, Label, Level, Pair};

/// A kind of label whose labels have numbers of 32 bits.
pub trait Coded: Label {
    ghost code: { Self → ℕ };

    /// The number of the label.
    fn code(self) -> u32
        ensures { result ≡ code self };

    /// The label with this number, if there is one.
    fn of_code(number: u32) -> Option<Self>
        ensures { Decodes result (λ a. number ≡ code a) };
}

/// A kind whose labels' numbers have 16 bits, so that two make a pair's.
pub trait Half: Coded {
    ghost halved: { (a : Self) → Self.code a < 65536 };
}

impl Coded for Level {
    ghost code = { level_code };

    fn code(self) -> u32 {
        self as u32
    }

    fn of_code(number: u32) -> Option<Level> {
        match number {
            0 => Some(Level::L0),
            1 => Some(Level::L1),
            2 => Some(Level::L2),
            3 => Some(Level::L3),
            4 => Some(Level::L4),
            5 => Some(Level::L5),
            6 => Some(Level::L6),
            7 => Some(Level::L7),
            _ => None,
        }
    }
}

impl Coded for Growers {
    ghost code = { growers_code };

    fn code(self) -> u32 {
        u32::from(self.mask)
    }

    fn of_code(number: u32) -> Option<Growers> {
        let mask = u16::try_from(number).ok()?;
        Some(Growers { mask })
    }
}

impl Half for Level {
    ghost halved = { Prim.search rules };
}

impl Half for Growers {
    ghost halved = { Prim.search rules };
}

impl<A: Half, B: Half> Coded for Pair<A, B> {
    ghost code = { pair_code A.Coded.code B.Coded.code };

    fn code(self) -> u32 {
        self.left.code() * 65536 + self.right.code()
    }

    fn of_code(number: u32) -> Option<Pair<A, B>> {
        let left = A::of_code(number / 65536)?;
        let right = B::of_code(number % 65536)?;
        Some(Pair { left, right })
    }
}
