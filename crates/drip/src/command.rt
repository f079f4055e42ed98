// The command line.
use crate::kinds::Named;
use policies::PolicyName;
use sheets::{Kind, KindName};
use std::alloc::{AllocFailed, Global};
use std::error::Error;
use std::fmt;

/// What is asked of the program.
#[derive(Clone, Copy)]
pub enum Command<'a> {
    Run(OneSheet<'a>),
    Key(OneSheet<'a>),
    Trace(OneSheet<'a>),
    Compare(TwoSheets<'a>),
    Rules(Rules<'a>),
    /// `drip demo --policy POLICY`
    Demo(PolicyName),
    /// the page of a command
    Help(Name),
    Version,
}

/// `drip run SHEET --policy POLICY`, and so `drip key` and `drip trace`
#[derive(Clone, Copy)]
pub struct OneSheet<'a> {
    pub file: &'a str,
    pub policy: PolicyName,
}

/// `drip compare SHEET SHEET LABEL --policy POLICY`
#[derive(Clone, Copy, Debug)]
pub struct TwoSheets<'a> {
    pub first: &'a str,
    pub second: &'a str,
    pub label: &'a str,
    pub policy: PolicyName,
}

/// `drip rules KIND FILE --policy POLICY`
#[derive(Clone, Copy)]
pub struct Rules<'a> {
    pub kind: Kind,
    pub policy: PolicyName,
    pub file: &'a str,
}

/// A command by its name.
#[derive(Clone, Copy, Debug)]
pub enum Name {
    Run,
    Key,
    Trace,
    Compare,
    Rules,
    Demo,
    Help,
    Version,
}

/// What is wrong with a command line. Displayed it says what is wrong and what was expected.
#[derive(Clone, Copy, Debug)]
pub enum Misuse<'a> {
    UnknownCommand(&'a str),
    UnknownKind { file: &'a str, word: &'a str },
    UnknownPolicy(&'a str),
    UnknownOption(&'a str),
    NoPolicy,
    TooFew(Name),
    TooMany(Name, &'a str),
    InputTwice,
    KindsDiffer(TwoSheets<'a>, Kind, Kind),
    WrongLabel(&'a str, Kind),
    Memory,
}

// The words behind a command's name: the plain ones, and the policy that the options name.
#[derive(Drop)]
struct Words<'a> {
    command: Name,
    plain: Vec<&'a str>,
    policy: PolicyName,
}

impl Command<'_> {
    /// The command that the words after the program's own name give, or what is wrong with them.
    pub fn parse(heap: Global, words: &[String]) -> Result<Command<'_>, Misuse<'_>> {
        let [word, rest @ ..] = words else {
            return Ok(Command::Help(Name::Help));
        };
        let name = Name::parse(word.as_str())?;
        match name {
            Name::Run => Ok(Command::Run(Words::parse(heap, name, rest)?.one_sheet()?)),
            Name::Key => Ok(Command::Key(Words::parse(heap, name, rest)?.one_sheet()?)),
            Name::Trace => Ok(Command::Trace(Words::parse(heap, name, rest)?.one_sheet()?)),
            Name::Compare => Ok(Command::Compare(Words::parse(heap, name, rest)?.two_sheets()?)),
            Name::Rules => Ok(Command::Rules(Words::parse(heap, name, rest)?.rules()?)),
            Name::Demo => Ok(Command::Demo(Words::parse(heap, name, rest)?.nothing()?)),
            Name::Help => help(rest),
            Name::Version => version(rest),
        }
    }
}

// `drip help`, or `drip help COMMAND`
fn help(words: &[String]) -> Result<Command<'_>, Misuse<'_>> {
    match words {
        [] => Ok(Command::Help(Name::Help)),
        [topic] => Ok(Command::Help(Name::parse(topic.as_str())?)),
        [_, extra, ..] => Err(Misuse::TooMany(Name::Help, extra)),
    }
}

// `drip --version`
fn version(words: &[String]) -> Result<Command<'_>, Misuse<'_>> {
    match words {
        [] => Ok(Command::Version),
        [extra, ..] => Err(Misuse::TooMany(Name::Version, extra)),
    }
}

impl Name {
    // The command with this name, or with the option that stands for it.
    fn parse(word: &str) -> Result<Name, Misuse<'_>> {
        match word {
            "run" => Ok(Name::Run),
            "key" => Ok(Name::Key),
            "trace" => Ok(Name::Trace),
            "compare" => Ok(Name::Compare),
            "rules" => Ok(Name::Rules),
            "demo" => Ok(Name::Demo),
            "help" | "--help" | "-h" => Ok(Name::Help),
            "--version" => Ok(Name::Version),
            other => Err(Misuse::UnknownCommand(other)),
        }
    }

    // What stands behind the name.
    fn operands(self) -> &'static str {
        match self {
            Name::Run | Name::Key | Name::Trace => "one station sheet",
            Name::Compare => "two station sheets and a label",
            Name::Rules => "a kind of label and a file",
            Name::Demo => "nothing after demo but --policy",
            Name::Help => "at most one command after help",
            Name::Version => "nothing after --version",
        }
    }
}

impl<'a> Words<'a> {
    // The options may stand anywhere, so the loop takes them
    // out, each with its value, and keeps the plain words.
    fn parse(heap: Global, command: Name, words: &'a [String]) -> Result<Words<'a>, Misuse<'a>> {
        let mut plain = Vec::new(heap);
        let mut policy = PolicyName::Cached;
        let mut words = words.iter();
        while let Some(word) = words.next() {
            match word.as_str() {
                "--policy" => {
                    let name = words.next().ok_or(Misuse::NoPolicy)?.as_str();
                    policy = name.parse().map_err(|_| Misuse::UnknownPolicy(name))?;
                }
                option if option.starts_with("--") => return Err(Misuse::UnknownOption(option)),
                word => plain.push(word)?,
            }
        }
        Ok(Words {
            command,
            plain,
            policy,
        })
    }

    // No word but the options: the policy.
    fn nothing(self) -> Result<PolicyName, Misuse<'a>> {
        match self.plain.as_slice() {
            [] => Ok(self.policy),
            [extra, ..] => Err(Misuse::TooMany(self.command, extra)),
        }
    }

    // One sheet and the policy.
    fn one_sheet(self) -> Result<OneSheet<'a>, Misuse<'a>> {
        match self.plain.as_slice() {
            [] => Err(Misuse::TooFew(self.command)),
            [file] => Ok(OneSheet {
                file,
                policy: self.policy,
            }),
            [_, extra, ..] => Err(Misuse::TooMany(self.command, extra)),
        }
    }

    // Two sheets, a label and the policy. Standard input can be one of them alone.
    fn two_sheets(self) -> Result<TwoSheets<'a>, Misuse<'a>> {
        match self.plain.as_slice() {
            [] | [_] | [_, _] => Err(Misuse::TooFew(self.command)),
            ["-", "-", _] => Err(Misuse::InputTwice),
            [first, second, label] => Ok(TwoSheets {
                first,
                second,
                label,
                policy: self.policy,
            }),
            [_, _, _, extra, ..] => Err(Misuse::TooMany(self.command, extra)),
        }
    }

    // A kind of label, a file of questions and the policy.
    fn rules(self) -> Result<Rules<'a>, Misuse<'a>> {
        let policy = self.policy;
        match self.plain.as_slice() {
            [] | [_] => Err(Misuse::TooFew(self.command)),
            [word, file] => {
                let kind = Kind::One(kind_named(file, word)?);
                Ok(Rules { kind, policy, file })
            }
            [left, right, file] => {
                let kind = Kind::Pair(kind_named(file, left)?, kind_named(file, right)?);
                Ok(Rules { kind, policy, file })
            }
            [_, _, _, extra, ..] => Err(Misuse::TooMany(self.command, extra)),
        }
    }
}

// The kind of label that a word names; one that is unknown is told with the file.
fn kind_named<'a>(file: &'a str, word: &'a str) -> Result<KindName, Misuse<'a>> {
    word.parse().map_err(|_| Misuse::UnknownKind { file, word })
}

impl fmt::Display for Name {
    fn fmt<W: fmt::Write>(&self, f: &mut fmt::Formatter<W>) -> fmt::Result {
        f.write_str(match *self {
            Name::Run => "run",
            Name::Key => "key",
            Name::Trace => "trace",
            Name::Compare => "compare",
            Name::Rules => "rules",
            Name::Demo => "demo",
            Name::Help => "help",
            Name::Version => "--version",
        })
    }
}

// By hand, as every text here: the crates stand on the
// standard library alone, which has no derive for it.
impl fmt::Display for Misuse<'_> {
    fn fmt<W: fmt::Write>(&self, f: &mut fmt::Formatter<W>) -> fmt::Result {
        match *self {
            Misuse::UnknownCommand(word) => write!(
                f,
                "drip: {word:?} is no command; expected run, key, trace, compare, rules, demo or help"
            ),
            Misuse::UnknownKind { file, word } => write!(
                f,
                "{file}:0: {word:?} is no kind of label; expected levels, growers, or two of them for a pair"
            ),
            Misuse::UnknownPolicy(word) => write!(
                f,
                "drip: {word:?} is no policy; expected direct, rows or cached"
            ),
            Misuse::UnknownOption(word) => {
                write!(f, "drip: {word:?} is no option; expected --policy")
            }
            Misuse::NoPolicy => write!(
                f,
                "drip: nothing after --policy; expected direct, rows or cached"
            ),
            Misuse::TooFew(command) => write!(
                f,
                "drip: too few words after {command}; expected {}",
                command.operands()
            ),
            Misuse::TooMany(command, word) => write!(
                f,
                "drip: {word:?} is one word too many; expected {}",
                command.operands()
            ),
            Misuse::InputTwice => write!(
                f,
                "drip: - stands for both sheets; expected standard input for at most one"
            ),
            Misuse::KindsDiffer(sheets, first, second) => write!(
                f,
                "drip: the labels of {} are {}, those of {} are {}; expected the same kind in both",
                sheets.first,
                Named(first),
                sheets.second,
                Named(second)
            ),
            Misuse::WrongLabel(word, kind) => write!(
                f,
                "drip: {word:?} is no label of this kind; expected {kind}"
            ),
            Misuse::Memory => write!(f, "drip: out of memory; expected a shorter command line"),
        }
    }
}

impl Error for Misuse<'_> {}

impl<T: Drop> From<AllocFailed<T>> for Misuse<'_> {
    fn from(_e: AllocFailed<T>) -> Self {
        Misuse::Memory
    }
}
