// Sets of growers as labels, ordered by inclusion, joined by union, four hexadecimal digits each.
ghost use Rattle.std.specs.Prelude.{◌≡◌, ◌↔◌, ℕ, ◌<◌, IsTrue, ◌==◌, bit_or, Some, refl};
ghost use Rattle.labels.specs.Growers.{grower_sets, grower_text, In, IsSubset, Unites, hex, HexDigit};
ghost use Rattle.labels.specs.Masks.{grower_laws};
ghost use Rattle.labels.specs.PrefixFree.{growers_prefix_free};

use crate::Label;
use std::fmt;

mod mask;

pub use mask::Growers;

impl Label for Growers {
    ghost kind = { grower_sets };

    ghost text = { grower_text };

    ghost lawful = { grower_laws };

    ghost unambiguous = { growers_prefix_free };

    ghost shown = { λ _. refl };

    fn flows_to(self, other: Growers) -> bool
        ensures below { result ≡ grower_sets.below self other }
        ensures inclusion { IsTrue result ↔ IsSubset self other }
    {
        included(self.mask, other.mask)
    }

    fn bottom() -> Growers
        ensures bottom { result ≡ grower_sets.bottom }
        ensures empty { (g : ℕ) → In g result → ⊥ }
    {
        Growers { mask: 0 }
    }

    fn join(self, other: Growers) -> Growers
        ensures join { result ≡ grower_sets.join self other }
        ensures union { Unites self other result }
    {
        Growers {
            mask: union(self.mask, other.mask),
        }
    }

    fn read(bytes: &[u8]) -> Option<(Growers, &[u8])> {
        let [a, b, c, d, rest @ ..] = bytes else {
            return None;
        };
        let high = hex_value(*a)? * 16 + hex_value(*b)?;
        let low = hex_value(*c)? * 16 + hex_value(*d)?;
        let mask = high * 256 + low;
        Some((Growers { mask }, rest))
    }
}

impl fmt::Display for Growers {
    ghost output = { λ x. Some (grower_text x) };

    // Digit by digit, and not by `{:04x}` or twice by `{:02x}`: by the latter a pair of sets took 1.7
    // times as long to write.
    fn fmt<W: fmt::Write>(&self, f: &mut fmt::Formatter<W>) -> fmt::Result {
        let a = hex_digit(self.mask / 4096);
        let b = hex_digit(self.mask / 256 % 16);
        let c = hex_digit(self.mask / 16 % 16);
        let d = hex_digit(self.mask % 16);
        write!(f, "{a}{b}{c}{d}")
    }
}

// Whether adding the members of `a` to `b` adds none.
fn included(a: u16, b: u16) -> bool
    ensures { result ≡ (bit_or a b == b) }
{
    union(a, b) == b
}

// The members of either set.
fn union(a: u16, b: u16) -> u16
    ensures { result ≡ bit_or a b }
{
    a | b
}

// The lower-case hexadecimal digit of a number below 16.
fn hex_digit(n: u16) -> char
    requires { n < 16 }
    ensures { result ≡ hex n }
{
    let digit = if n < 10 { 48 + n } else { 87 + n };
    char::from(digit as u8)
}

// The number of a lower-case hexadecimal digit. Not by `char::to_digit`, which takes capitals too.
fn hex_value(byte: u8) -> Option<u16>
    ensures { HexDigit byte result }
{
    match byte {
        b'0'..=b'9' => Some(u16::from(byte - b'0')),
        b'a'..=b'f' => Some(u16::from(byte - b'a' + 10)),
        _ => None,
    }
}
