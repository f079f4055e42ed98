// Station sheets from files and standard input.
ghost use Rattle.std.specs.Prelude.{◌≡◌, Ok, IfOk, map};
ghost use Rattle.rules.specs.Tables.{published};
ghost use Rattle.policies.specs.AnyPolicy.{AnyFaithful};
ghost use Rattle.compare.specs.Runs.{own_call};
ghost use Rattle.sheets.specs.Parts.{GivesParts};
ghost use Rattle.sheets.specs.Sheets.{ReadsSheet};

use crate::{Console, Failure};
use compare::{Exchange, Plan};
use labels::Label;
use machine::Call;
use policies::{AnyPolicy, PolicyName};
use sheets::{Fault, Kind, Sheet, kind_of, text_of};
use std::alloc::{AllocError, Global};
use std::{fmt, io};

/// A sheet's text, the file that it was read from, and its kind of label.
#[derive(Clone, Copy)]
pub struct SheetFile<'a> {
    pub name: &'a str,
    pub text: &'a str,
    pub kind: Kind,
}

// What is wrong with a sheet, as it is told on standard error.
#[derive(Clone, Copy)]
struct Wrong<'a> {
    file: &'a str,
    fault: Fault<'a>,
}

// A sheet that cannot be read at all.
#[derive(Clone, Copy)]
struct Unread<'a> {
    file: &'a str,
    why: &'a io::Error,
}

/// All bytes of a sheet. Refuses a file that cannot be read.
pub fn read(file: &str, console: &mut Console<'_>) -> Result<Vec<u8>, Failure> {
    match console.read(file) {
        Ok(bytes) => Ok(bytes),
        Err(why) => Err(console.complain(Unread { file, why: &why })),
    }
}

impl<'a> SheetFile<'a> {
    /// The sheet that these bytes of a file are. Refuses bytes that are no text or name no kind of
    /// label.
    pub fn new(
        name: &'a str,
        bytes: &'a [u8],
        console: &mut Console<'_>,
    ) -> Result<SheetFile<'a>, Failure> {
        let text = well(name, text_of(bytes), console)?;
        let kind = well(name, kind_of(text), console)?;
        Ok(SheetFile { name, text, kind })
    }

    /// What the sheet gives, read with labels of its kind. Refuses a sheet with something wrong.
    pub fn parse<L: Label>(self, console: &mut Console<'_>) -> Result<Sheet<L>, Failure>
        ensures { IfOk result (ReadsSheet L.Label.text L.Label.kind.bottom self.entry.text.now) }
    {
        let sheet = Sheet::parse(console.heap(), self.text, self.kind);
        well(self.name, sheet, console)
    }
}

/// The station of a sheet, to be made with this policy, which is
/// true to the published rows, and the sheet's calls on it.
pub fn plan_of<L: Label>(
    heap: Global,
    sheet: Sheet<L>,
    policy: PolicyName,
) -> Result<Plan<AnyPolicy<L>, L>, AllocError>
    ensures faithful { IfOk result
        (λ plan. AnyFaithful L.Label.kind plan.policy (published L.Label.kind)) }
    ensures parts { IfOk result
        (λ plan. GivesParts L.Label.kind.bottom sheet plan.parts sheet.calls.items) }
    ensures calls { IfOk result (λ plan. plan.exchanges.items ≡ map own_call sheet.calls.items) }
{
    let (parts, calls) = sheet.into_parts(heap)?;
    Ok(Plan {
        parts,
        policy: AnyPolicy::named(policy),
        exchanges: exchanges(heap, calls.as_slice())?,
    })
}

// The calls, to be made with the station's own parts.
fn exchanges<L: Label>(heap: Global, calls: &[Call<L>]) -> Result<Vec<Exchange<L>>, AllocError>
    ensures { IfOk result (λ all. all.items ≡ map own_call calls.now) }
{
    calls.iter().map(|call| Exchange::of(*call)).collect(heap)
}

// What was read of a sheet; what is wrong with it is told.
fn well<'a, T>(
    file: &'a str,
    outcome: Result<T, Fault<'a>>,
    console: &mut Console<'_>,
) -> Result<T, Failure>
    ensures { IfOk result (λ value. outcome.entry ≡ Ok value) }
{
    match outcome {
        Ok(value) => Ok(value),
        Err(fault) => Err(console.complain(Wrong { file, fault })),
    }
}

impl fmt::Display for Wrong<'_> {
    fn fmt<W: fmt::Write>(&self, f: &mut fmt::Formatter<W>) -> fmt::Result {
        write!(f, "{}:{}", self.file, self.fault)
    }
}

impl fmt::Display for Unread<'_> {
    fn fmt<W: fmt::Write>(&self, f: &mut fmt::Formatter<W>) -> fmt::Result {
        write!(
            f,
            "{}:0: cannot be read: {}; expected a station sheet, or - for standard input",
            self.file, self.why
        )
    }
}
