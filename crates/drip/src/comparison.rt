// `drip compare`: two sheets run, and what an observer at a label is given of each.
use crate::command::{Misuse, TwoSheets};
use crate::kinds::{self, Task};
use crate::sheet_file::{self, SheetFile, plan_of};
use crate::side_by_side::{Conclusion, Run, SideBySide, Unmaking};
use crate::{Console, Failure};
use compare::{Compared, Plan, compare};
use policies::{AnyPolicy, PolicyName};
use readings::Readings;
use text::label_named;

// Two sheets of the same kind, the label of an observer, and the policy.
#[derive(Clone, Copy)]
struct TwoStations<'a> {
    first: SheetFile<'a>,
    second: SheetFile<'a>,
    label: &'a str,
    policy: PolicyName,
}

/// Runs two sheets and prints what an observer is given of each. Refuses
/// sheets of different kinds of label, and a label of another kind.
pub fn show(asked: TwoSheets<'_>, console: &mut Console<'_>) -> Result<(), Failure> {
    let first = sheet_file::read(asked.first, console)?;
    let second = sheet_file::read(asked.second, console)?;
    let task = TwoStations::new(asked, first.as_slice(), second.as_slice(), console)?;
    kinds::perform(task.first.kind, task, console)
}

impl<'a> TwoStations<'a> {
    // What is asked of these bytes of two sheets, if both have the same kind of labels.
    fn new(
        asked: TwoSheets<'a>,
        first: &'a [u8],
        second: &'a [u8],
        console: &mut Console<'_>,
    ) -> Result<TwoStations<'a>, Failure> {
        let first = SheetFile::new(asked.first, first, console)?;
        let second = SheetFile::new(asked.second, second, console)?;
        if first.kind != second.kind {
            return Err(console.complain(Misuse::KindsDiffer(asked, first.kind, second.kind)));
        }
        Ok(TwoStations {
            first,
            second,
            label: asked.label,
            policy: asked.policy,
        })
    }
}

impl Task for TwoStations<'_> {
    fn perform<L: Readings>(self, console: &mut Console<'_>) -> Result<(), Failure> {
        let Some(level) = label_named::<L>(self.label) else {
            return Err(console.complain(Misuse::WrongLabel(self.label, self.first.kind)));
        };
        let heap = console.heap();
        let first = self.first.parse::<L>(console)?;
        let second = self.second.parse::<L>(console)?;
        let first_cells = first.memory.as_slice().to_vec(heap)?;
        let second_cells = second.memory.as_slice().to_vec(heap)?;
        let first: Plan<AnyPolicy<L>, L> = plan_of(heap, first, self.policy)?;
        let second: Plan<AnyPolicy<L>, L> = plan_of(heap, second, self.policy)?;
        let Compared { one, two, report } = match compare(level, first, second) {
            Ok(compared) => compared,
            Err(why) => return Err(console.give_up(Unmaking(why))),
        };
        let first = Run::new(heap, level, first_cells.as_slice(), &one)?;
        let second = Run::new(heap, level, second_cells.as_slice(), &two)?;
        print(
            SideBySide {
                level,
                report,
                first,
                second,
            },
            console,
        )
    }
}

// Prints the comparison. It fails if something differs that the proof of `compare` rules out.
fn print<L: Readings>(both: SideBySide<'_, L>, console: &mut Console<'_>) -> Result<(), Failure> {
    print_inputs(&both, console)?;
    console.line("")?;
    print_given(&both, console)?;
    let conclusion = both.conclusion();
    console.line(conclusion)?;
    match conclusion {
        Conclusion::Same(_) | Conclusion::NotAlike(_) => Ok(()),
        Conclusion::Broken(_) => Err(Failure::Told),
    }
}

// Prints whether the stations and the calls on them are alike to the observer.
fn print_inputs<L: Readings>(
    both: &SideBySide<'_, L>,
    console: &mut Console<'_>,
) -> Result<(), Failure> {
    console.line(both.programs())?;
    console.line(both.memories())?;
    console.line(both.calls())?;
    for untaken in both.untaken(console.heap())?.iter() {
        console.line(*untaken)?;
    }
    Ok(())
}

// Prints what the observer is given of both.
fn print_given<L: Readings>(
    both: &SideBySide<'_, L>,
    console: &mut Console<'_>,
) -> Result<(), Failure> {
    console.line(format_args!("commands at or below {}", both.level))?;
    console.print(both.table(console.heap())?)?;
    console.line("")?;
    console.line(both.commands())?;
    console.line(both.looks())?;
    Ok(())
}
