// The names of the policies.
ghost use Rattle.std.specs.Prelude.{◌≡◌, Some, codes};
ghost use Rattle.policies.specs.Names.{name};
ghost use Rattle.rules.specs.Texts.{NameRead};

use std::error::Error;
use std::fmt;
use std::str::FromStr;

/// A policy by name: the rows worked out directly, the rows read off a table, or a cache over that
/// table.
#[derive(Clone, Copy, Debug, PartialEq, Eq, Hash)]
pub enum PolicyName {
    Direct,
    Rows,
    Cached,
}

impl PolicyName {
    /// The policy's name, in small letters.
    pub fn name(self) -> &'static str
        ensures { result.now ≡ name self }
    {
        match self {
            PolicyName::Direct => "direct",
            PolicyName::Rows => "rows",
            PolicyName::Cached => "cached",
        }
    }
}

impl fmt::Display for PolicyName {
    ghost output = { λ policy. Some (name policy) };

    fn fmt<W: fmt::Write>(&self, f: &mut fmt::Formatter<W>) -> fmt::Result {
        f.write_str(self.name())
    }
}

/// What a word that is no policy's name is read as.
#[derive(Clone, Copy, Debug, PartialEq, Eq, Hash)]
pub struct NotAPolicy;

impl FromStr for PolicyName {
    type Err = NotAPolicy;

    ghost from_str_gives = { NameRead name };

    /// The policy of that name. Refuses every word that is no policy's name.
    fn from_str(word: &str) -> Result<PolicyName, NotAPolicy> {
        match word {
            "direct" => Ok(PolicyName::Direct),
            "rows" => Ok(PolicyName::Rows),
            "cached" => Ok(PolicyName::Cached),
            _ => Err(NotAPolicy),
        }
    }
}

impl fmt::Display for NotAPolicy {
    ghost output = { λ _. Some (codes "no policy has this name") };

    fn fmt<W: fmt::Write>(&self, f: &mut fmt::Formatter<W>) -> fmt::Result {
        f.write_str("no policy has this name")
    }
}

impl Error for NotAPolicy {}
