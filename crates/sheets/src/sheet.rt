// A sheet that was read, and the parts of a station that it gives.
ghost use Rattle.std.specs.Prelude.{◌≡◌, replicate, IfOk, MatchResult};
ghost use Rattle.std.specs.Str.{IsUtf8};
ghost use Rattle.sheets.specs.Parts.{GivesParts};
ghost use Rattle.sheets.specs.Sheets.{ReadsLines, ReadsSheet};

use crate::lines::{Line, lines_of, split_at_word};
use crate::names::Names;
use crate::reader::{Reader, Settings, zero};
use crate::{Fault, Kind, Problem};
use labels::Label;
use machine::{Call, Entry, Labelled, Operation};
use sites::Parts;
use std::alloc::{AllocError, Global};
use std::str;

/// What a sheet gives: a program, a memory, how long the stack and the log are, and calls.
#[derive(Debug, Drop)]
pub struct Sheet<L> {
    pub program: Vec<Operation<L>>,
    pub memory: Vec<Labelled<L>>,
    pub stack: usize,
    pub log: usize,
    pub calls: Vec<Call<L>>,
}

impl<L: Label> Sheet<L> {
    /// The sheet that a text gives, or the first thing that is wrong with it. The
    /// kind is that of L, and is told to whoever wrote another label.
    pub fn parse(heap: Global, text: &str, kind: Kind) -> Result<Sheet<L>, Fault<'_>>
        ensures { IfOk result (ReadsSheet L.Label.text L.Label.kind.bottom text.now) }
    {
        let lines = lines_of(heap, text)?;
        Self::read(heap, lines.as_slice(), kind)
    }

    // The sheet that the lines with words give.
    fn read<'a>(heap: Global, lines: &[Line<'a>], kind: Kind) -> Result<Sheet<L>, Fault<'a>>
        ensures { IfOk result (ReadsLines L.Label.text L.Label.kind.bottom lines.now) }
    {
        let (settings, rest) = split_at_word(lines, "program");
        let (program, calls) = split_at_word(rest, "calls");
        let names = Names::of(heap, program)?;
        let reader = Reader { heap, kind, names };
        let Settings { memory, stack, log } = reader.settings(settings)?;
        Ok(Sheet {
            memory,
            stack,
            log,
            program: reader.program(program)?,
            calls: reader.calls(calls)?,
        })
    }

    /// The parts, with a stack and a log that hold 0 with the label that everybody may know, and
    /// the calls.
    pub fn into_parts(self, heap: Global) -> Result<(Parts<L>, Vec<Call<L>>), AllocError>
        ensures { IfOk result (λ x. GivesParts L.Label.kind.bottom self x.0 x.1.items) }
    {
        let parts = Parts {
            program: self.program,
            memory: self.memory,
            stack: filled(heap, Entry::Number(zero()), self.stack)?,
            log: filled(heap, zero(), self.log)?,
        };
        Ok((parts, self.calls))
    }
}

// So many times the same. `Vec::from_elem` clones, and of labels
// of any kind it is not known that a clone is the same.
fn filled<T: Copy>(heap: Global, value: T, count: usize) -> Result<Vec<T>, AllocError>
    ensures { IfOk result (λ all. all.items ≡ replicate count value) }
{
    let mut all = Vec::new(heap);
    for _ in 0..count {
        all.push(value)?;
    }
    Ok(all)
}

/// The text that the bytes of a sheet are. Refuses bytes that are not UTF-8.
pub fn text_of(bytes: &[u8]) -> Result<&str, Fault<'_>>
    ensures { MatchResult result (λ text. text.now ≡ bytes.now) (λ _. ¬ (IsUtf8 bytes.now)) }
{
    str::from_utf8(bytes).map_err(|e| Problem::NotText.at(line_at(bytes, e.valid_up_to())))
}

// The number of the line in which a byte stands.
fn line_at(bytes: &[u8], index: usize) -> u64 {
    let before = bytes.iter().take(index).filter(|byte| **byte == b'\n');
    (before.count() as u64).saturating_add(1)
}
