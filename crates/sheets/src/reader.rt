// Reading the lines of a sheet, where they may name places of its program.
ghost use Rattle.std.specs.Prelude.{◌≡◌, ◌<◌, ◌≤◌, ◌-ℤ◌, IfOk, None, Some, codes, length, map};
ghost use Rattle.std.specs.Prelude.{unwrap_or};
ghost use Rattle.std.specs.List.{slice_index_or, slice_set};
ghost use Rattle.std.specs.Option.{IfSome};
ghost use Rattle.text.specs.Words.{words};
ghost use Rattle.sheets.specs.Lines.{SaysCount, SaysCall, SaysOperation, SaysOperands};
ghost use Rattle.sheets.specs.Numbers.{GivesLabel, GivesNumber, GivesValue, LabelRead, NumberRead};
ghost use Rattle.sheets.specs.Parts.{zero_at};
ghost use Rattle.sheets.specs.Settings.{AddsSetting, SaysSettings, FillsIn, SomeLine};
ghost use Rattle.sheets.specs.Sheets.{Adds, ReadsCalls, ReadsProgram, SaysCalls, SaysProgram};
ghost use Rattle.sheets.specs.Sheets.{line_words};
ghost use Rattle.sheets.specs.Words.{ReadsWith};

use crate::lines::{Line, Words};
use crate::names::{Names, is_name};
use crate::numbers::{NumberFault, signed, unsigned};
use crate::settings::{Setting, read_index, read_wide};
use crate::{Due, Fault, Header, Kind, Problem};
use labels::Label;
use machine::{Call, Labelled, Operation};
use std::alloc::Global;
use text::label_named;

/// What the lines are read by: the kind of label, which is told to whoever wrote another, and the
/// names of places.
#[derive(Drop)]
pub struct Reader<'a> {
    pub heap: Global,
    pub kind: Kind,
    pub names: Names<'a>,
}

// What the lines before the program have given so far.
#[derive(Drop)]
struct Given<L> {
    labels: Option<Kind>,
    memory: Option<usize>,
    stack: Option<usize>,
    log: Option<usize>,
    cells: Vec<Option<Labelled<L>>>,
}

/// What the lines before the program come to: the memory, and how long the stack and the log are.
#[derive(Drop)]
pub struct Settings<L> {
    pub memory: Vec<Labelled<L>>,
    pub stack: usize,
    pub log: usize,
}

// How long the stack and the log are if it is left out.
const LENGTH: usize = 64;

impl<'a> Reader<'a> {
    /// What the lines before the program come to together. Refuses a wrong line.
    // Lines that leave out what has to stand there or say it twice are refused too; of these no clause speaks.
    pub fn settings<L: Label>(&self, lines: &[Line<'a>]) -> Result<Settings<L>, Fault<'a>>
        ensures { IfOk result (λ s. SaysSettings L.Label.text L.Label.kind.bottom
            (map line_words lines.now) s.memory.items s.stack s.log) }
    {
        let memory = memory_size(lines);
        let mut cells = Vec::new(self.heap);
        cells.resize(memory.unwrap_or(0), None)?;
        let mut given = Given {
            labels: None,
            memory: None,
            stack: None,
            log: None,
            cells,
        };
        for line in lines {
            let number = line.number;
            self.setting(line, memory, &mut given)
                .map_err(|problem| problem.at(number))?;
        }
        self.settled(memory, given).map_err(Problem::nowhere)
    }

    // Adds what a line says. The size of the memory is known before its
    // line comes, so that each cell can be refused in its line.
    fn setting<L: Label>(
        &self,
        line: &Line<'a>,
        memory: Option<usize>,
        given: &mut Given<L>,
    ) -> Result<(), Problem<'a>>
        requires sized { length given.old.cells.items ≡ unwrap_or memory 0 }
        requires few { length given.old.cells.items ≤ 65535 }
        ensures { IfOk result
            (λ _. AddsSetting L.Label.text (line_words line.now) given.old given.new) }
    {
        match Setting::read(line)? {
            Setting::Labels(kind) => give(&mut given.labels, kind, Header::Labels),
            Setting::Memory(count) => give(&mut given.memory, count, Header::Memory),
            Setting::Stack(count) => give(&mut given.stack, count, Header::Stack),
            Setting::Log(count) => give(&mut given.log, count, Header::Log),
            Setting::Cell { cell, number } => {
                let number = self.labelled(number)?;
                match memory {
                    None => Ok(()),
                    Some(memory) => give_cell(&mut given.cells, memory, cell, number),
                }
            }
        }
    }

    // What the lines gave, and what stands for the rest. Refuses lines that gave no kind of label
    // or no memory.
    fn settled<L: Label>(
        &self,
        memory: Option<usize>,
        given: Given<L>,
    ) -> Result<Settings<L>, Problem<'a>>
        ensures { IfOk result (FillsIn L.Label.kind.bottom memory given) }
    {
        if given.labels.is_none() {
            return Err(Problem::NoHeader(Header::Labels));
        }
        if memory.is_none() {
            return Err(Problem::NoHeader(Header::Memory));
        }
        let memory = given
            .cells
            .iter()
            .map(|cell| cell.unwrap_or(zero()))
            .collect(self.heap)?;
        Ok(Settings {
            memory,
            stack: given.stack.unwrap_or(LENGTH),
            log: given.log.unwrap_or(LENGTH),
        })
    }

    /// The operations of a program, whose first line is `program`. Refuses no lines at all, and a
    /// wrong line.
    pub fn program<L: Label>(&self, lines: &[Line<'a>]) -> Result<Vec<Operation<L>>, Fault<'a>>
        ensures { IfOk result (λ all. ReadsProgram L.Label.text lines.now all.items) }
    {
        let [header, lines @ ..] = lines else {
            return Err(Problem::NoHeader(Header::Program).nowhere());
        };
        let number = header.number;
        header.rest.end().map_err(|problem| problem.at(number))?;
        self.operations(lines)
    }

    // The operations that the lines behind `program` say.
    fn operations<L: Label>(&self, lines: &[Line<'a>]) -> Result<Vec<Operation<L>>, Fault<'a>>
        ensures { IfOk result
            (λ all. SaysProgram L.Label.text (map line_words lines.now) all.items) }
    {
        let mut program = Vec::new(self.heap);
        for line in lines {
            let number = line.number;
            self.program_line(line, &mut program)
                .map_err(|problem| problem.at(number))?;
        }
        Ok(program)
    }

    // Adds the operation that a line says, if it does not name a place.
    fn program_line<L: Label>(
        &self,
        line: &Line<'a>,
        program: &mut Vec<Operation<L>>,
    ) -> Result<(), Problem<'a>>
        ensures { IfOk result
            (λ _. Adds L.Label.text (line_words line.now) program.old.items program.new.items) }
    {
        match line.first.strip_suffix(':') {
            Some(name) => {
                line.rest.end()?;
                self.names.check(name, line.number)
            }
            None => {
                let place = i32::try_from(program.len()).map_err(|_| Problem::TooLong)?;
                program.push(self.operation(line, place)?)?;
                Ok(())
            }
        }
    }

    // The operation that a line says, which is to stand at that place.
    fn operation<L: Label>(&self, line: &Line<'a>, place: i32) -> Result<Operation<L>, Problem<'a>>
        ensures { IfOk result (SaysOperation L.Label.text (line_words line.now)) }
    {
        let mut rest = line.rest;
        let operation = match line.first {
            "push" => Operation::Push(self.read_labelled(&mut rest)?),
            "pop" => Operation::Pop,
            "noop" => Operation::Noop,
            "add" => Operation::Add,
            "sub" => Operation::Sub,
            "less" => Operation::Less,
            "load" => Operation::Load,
            "store" => Operation::Store,
            "jump" => Operation::Jump,
            "bnz" => Operation::Bnz(self.distance(rest.due(Due::Value)?, place)?),
            "call" => {
                let (count, due) = read_operands(&mut rest)?;
                Operation::Call { count, due }
            }
            "return" => Operation::Return,
            "output" => Operation::Output,
            "halt" => Operation::Halt,
            "program" => return Err(Problem::HeaderTwice(Header::Program)),
            word => return Err(Problem::NoOperation(word)),
        };
        rest.end()?;
        Ok(operation)
    }

    /// The calls, if there is a line `calls`, which is then the first. Refuses a wrong line.
    pub fn calls<L: Label>(&self, lines: &[Line<'a>]) -> Result<Vec<Call<L>>, Fault<'a>>
        ensures { IfOk result (λ all. ReadsCalls L.Label.text lines.now all.items) }
    {
        let [header, lines @ ..] = lines else {
            return Ok(Vec::new(self.heap));
        };
        let number = header.number;
        header.rest.end().map_err(|problem| problem.at(number))?;
        self.calls_said(lines)
    }

    // The calls that the lines behind `calls` say.
    fn calls_said<L: Label>(&self, lines: &[Line<'a>]) -> Result<Vec<Call<L>>, Fault<'a>>
        ensures { IfOk result (λ all. SaysCalls L.Label.text (map line_words lines.now) all.items) }
    {
        let mut calls = Vec::new(self.heap);
        for line in lines {
            let number = line.number;
            let call = self.call(line).map_err(|problem| problem.at(number))?;
            calls.push(call)?;
        }
        Ok(calls)
    }

    // The call that a line says.
    fn call<L: Label>(&self, line: &Line<'a>) -> Result<Call<L>, Problem<'a>>
        ensures { IfOk result (SaysCall L.Label.text (line_words line.now)) }
    {
        let mut rest = line.rest;
        let call = match line.first {
            "enter" => Call::Enter {
                cell: read_index(&mut rest)?,
                number: self.read_labelled(&mut rest)?,
            },
            "look" => Call::Look {
                cell: read_index(&mut rest)?,
                clearance: self.read_label(&mut rest)?,
            },
            "start" => Call::Start,
            "go" => Call::Go {
                fuel: read_wide(&mut rest)?,
            },
            "command" => Call::NextCommand {
                from: read_index(&mut rest)?,
                clearance: self.read_label(&mut rest)?,
            },
            "program" => return Err(Problem::HeaderTwice(Header::Program)),
            "calls" => return Err(Problem::HeaderTwice(Header::Calls)),
            word => return Err(Problem::NoCall(word)),
        };
        rest.end()?;
        Ok(call)
    }

    // Takes a number with its label.
    fn read_labelled<L: Label>(&self, rest: &mut Words<'a>) -> Result<Labelled<L>, Problem<'a>>
        ensures { ReadsWith (NumberRead L.Label.text)
            (words rest.old.0.now) result (words rest.new.0.now) }
    {
        self.labelled(rest.due(Due::Labelled)?)
    }

    // Takes a label.
    fn read_label<L: Label>(&self, rest: &mut Words<'a>) -> Result<L, Problem<'a>>
        ensures { ReadsWith (LabelRead L.Label.text)
            (words rest.old.0.now) result (words rest.new.0.now) }
    {
        self.label(rest.due(Due::Label(self.kind))?)
    }

    // The number and the label that a word has before and behind its `@`.
    fn labelled<L: Label>(&self, word: &'a str) -> Result<Labelled<L>, Problem<'a>>
        ensures { GivesNumber L.Label.text word.now result }
    {
        let Some((number, label)) = word.split_once('@') else {
            return Err(Problem::NoLabel(word));
        };
        let value = self.value(number, Due::Labelled)?;
        let label = self.label(label)?;
        Ok(Labelled { value, label })
    }

    // The label that a word is the text of.
    fn label<L: Label>(&self, word: &'a str) -> Result<L, Problem<'a>>
        ensures { GivesLabel L.Label.text word.now result }
    {
        label_named(word).ok_or(Problem::WrongLabel(word, self.kind))
    }

    // The number that a word is, or the place that it names.
    fn value(&self, word: &'a str, due: Due) -> Result<i32, Problem<'a>>
        ensures { GivesValue word.now result }
    {
        match signed(word) {
            Err(NumberFault::NotDigits) if is_name(word) => self.names.place(word),
            Err(why) => Err(why.problem(word, due)),
            Ok(number) => Ok(number),
        }
    }

    // The number that a word is, or how far it is from a place to the one that it names.
    fn distance(&self, word: &'a str, place: i32) -> Result<i32, Problem<'a>>
        ensures { GivesValue word.now result }
    {
        match signed(word) {
            Err(NumberFault::NotDigits) if is_name(word) => distance(
                place,
                self.names.place(word)?,
            ),
            Err(why) => Err(why.problem(word, Due::Value)),
            Ok(number) => Ok(number),
        }
    }
}

// How far it is from one place to another.
fn distance<'a>(from: i32, to: i32) -> Result<i32, Problem<'a>>
    ensures { IfOk result (λ far. far ≡ to -ℤ from) }
{
    to.checked_sub(from).ok_or(Problem::TooLong)
}

// The size of the memory, if a line gives it.
fn memory_size(lines: &[Line<'_>]) -> Option<usize>
    ensures { IfSome result (λ n. SomeLine (map line_words lines.now)
        (λ line. SaysCount 65535 line (codes "memory") n)) }
{
    for line in lines {
        if let Ok(Setting::Memory(count)) = Setting::read(line) {
            return Some(count);
        }
    }
    None
}

// Fills a slot that is still empty. Refuses a line that is given for the second time.
fn give<'a, T: Drop>(slot: &mut Option<T>, value: T, header: Header) -> Result<(), Problem<'a>>
    ensures empty { IfOk result (λ _. slot.old ≡ None) }
    ensures filled { IfOk result (λ _. slot.new ≡ Some value) }
{
    if slot.is_some() {
        return Err(Problem::HeaderTwice(header));
    }
    *slot = Some(value);
    Ok(())
}

// Fills a cell that nothing was given for yet. Refuses a cell outside the memory, and one that is
// given twice.
fn give_cell<'a, L: Label>(
    cells: &mut Vec<Option<Labelled<L>>>,
    memory: usize,
    cell: usize,
    number: Labelled<L>,
) -> Result<(), Problem<'a>>
    ensures inside { IfOk result (λ _. cell < length cells.old.items) }
    ensures empty { IfOk result (λ _. slice_index_or cells.old.items cell None ≡ None) }
    ensures filled { IfOk result
        (λ _. cells.new.items ≡ slice_set cells.old.items cell (Some number)) }
{
    match cells.get_mut(cell) {
        None => Err(Problem::CellOutside { cell, memory }),
        Some(Some(_)) => Err(Problem::CellTwice(cell)),
        Some(slot) => {
            *slot = Some(number);
            Ok(())
        }
    }
}

/// 0 with the label that everybody may know.
pub fn zero<L: Label>() -> Labelled<L>
    ensures { result ≡ zero_at L.Label.kind.bottom }
{
    Labelled {
        value: 0,
        label: L::bottom(),
    }
}

// Takes how many numbers a call hands over, and whether a result is due.
fn read_operands<'a>(rest: &mut Words<'a>) -> Result<(u8, bool), Problem<'a>>
    ensures { SaysOperands (words rest.old.0.now) result (words rest.new.0.now) }
{
    let count = unsigned(rest.due(Due::Number(0, 255))?, 255)?;
    let due = unsigned(rest.due(Due::Number(0, 1))?, 1)?;
    Ok((count as u8, due == 1))
}
