// The lines before a program.
ghost use Rattle.std.specs.Prelude.{IfOk};
ghost use Rattle.text.specs.Words.{words};
ghost use Rattle.sheets.specs.Kinds.{HasKind, KindRead, ReadsKind};
ghost use Rattle.sheets.specs.Lines.{SaysSetting};
ghost use Rattle.sheets.specs.Numbers.{CountRead};
ghost use Rattle.sheets.specs.Sheets.{line_words};
ghost use Rattle.sheets.specs.Words.{ReadsWith};

use crate::lines::{Line, Words};
use crate::numbers::unsigned;
use crate::{Due, Fault, Header, Kind, KindName, Problem};

/// What a line before the program says. The number of a cell is
/// read later, when the places that it may name are known.
#[derive(Clone, Copy)]
pub enum Setting<'a> {
    Labels(Kind),
    Memory(usize),
    Stack(usize),
    Log(usize),
    Cell { cell: usize, number: &'a str },
}

// The most cells of a memory, entries of a stack and commands of a log that a sheet can ask for.
const MOST: u32 = 65_535;

impl<'a> Setting<'a> {
    /// What the line says. Refuses a line that does not begin with the
    /// name of a setting, or goes on otherwise than that setting does.
    pub fn read(line: &Line<'a>) -> Result<Setting<'a>, Problem<'a>>
        ensures { IfOk result (SaysSetting (line_words line.now)) }
    {
        let mut rest = line.rest;
        let setting = match line.first {
            "labels" => Setting::Labels(read_kind(&mut rest)?),
            "memory" => Setting::Memory(read_count(&mut rest)?),
            "stack" => Setting::Stack(read_count(&mut rest)?),
            "log" => Setting::Log(read_count(&mut rest)?),
            "cell" => {
                let cell = read_index(&mut rest)?;
                let number = rest.due(Due::Labelled)?;
                Setting::Cell { cell, number }
            }
            word => return Err(Problem::NoSetting(word)),
        };
        rest.end()?;
        Ok(setting)
    }
}

/// The kind of label that a sheet's text gives. Refuses a text with no line
/// that gives it before the program, or with a wrong line before that one.
pub fn kind_of(text: &str) -> Result<Kind, Fault<'_>>
    ensures { IfOk result (HasKind text.now) }
{
    let mut number = 0u64;
    for line in text.lines() {
        number = number.saturating_add(1);
        let Some(line) = Line::new(number, line) else {
            continue;
        };
        if line.first == "program" {
            break;
        }
        let setting = Setting::read(&line).map_err(|problem| problem.at(number))?;
        if let Setting::Labels(kind) = setting {
            return Ok(kind);
        }
    }
    Err(Problem::NoHeader(Header::Labels).nowhere())
}

// Takes the words of a kind of label.
fn read_kind<'a>(rest: &mut Words<'a>) -> Result<Kind, Problem<'a>>
    ensures { ReadsKind (words rest.old.0.now) result (words rest.new.0.now) }
{
    let left = kind_named(rest.due(Due::Kind)?)?;
    match rest.next() {
        None => Ok(Kind::One(left)),
        Some(word) => Ok(Kind::Pair(left, kind_named(word)?)),
    }
}

// The simple kind that a word names.
fn kind_named(word: &str) -> Result<KindName, Problem<'_>>
    ensures { KindRead word.now result }
{
    word.parse().map_err(|_| Problem::NoKind(word))
}

// Takes how many cells, entries or commands there are to be.
fn read_count<'a>(rest: &mut Words<'a>) -> Result<usize, Problem<'a>>
    ensures { ReadsWith (CountRead 65535) (words rest.old.0.now) result (words rest.new.0.now) }
{
    let word = rest.due(Due::Number(0, i64::from(MOST)))?;
    Ok(unsigned(word, MOST)? as usize)
}

/// Takes the number of a cell or of a place.
pub fn read_index<'a>(rest: &mut Words<'a>) -> Result<usize, Problem<'a>>
    ensures { ReadsWith (CountRead 4294967295)
        (words rest.old.0.now) result (words rest.new.0.now) }
{
    Ok(read_wide(rest)? as usize)
}

/// Takes a number of 32 bits.
pub fn read_wide<'a>(rest: &mut Words<'a>) -> Result<u32, Problem<'a>>
    ensures { ReadsWith (CountRead 4294967295)
        (words rest.old.0.now) result (words rest.new.0.now) }
{
    let word = rest.due(Due::Number(0, i64::from(u32::MAX)))?;
    unsigned(word, u32::MAX)
}
