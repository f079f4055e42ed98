// The type of a set of growers, apart from its methods since specs name it.
ghost use Rattle.std.specs.Prelude.{◌<◌};

/// A set of the sixteen growers by its mask: grower 0 is the lowest bit.
#[derive(Clone, Copy, Debug, PartialEq, Eq, Hash)]
pub struct Growers {
    pub mask: u16,
    ghost fits: { mask < 65536 },
}
