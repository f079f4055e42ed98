// `drip run`, `drip key` and `drip trace`: the station of one sheet, made and called.
use crate::command::OneSheet;
use crate::key::{Key, print_key};
use crate::kinds::{self, Task};
use crate::sheet_file::{self, SheetFile, plan_of};
use crate::trace::print_trace;
use crate::{Console, Failure};
use compare::{Plan, Ran};
use labels::Label;
use policies::{AnyPolicy, PolicyName};
use readings::Readings;
use sheets::Sheet;
use sites::{Answered, Making, Site};
use std::io;

/// What is shown of a sheet's station.
#[derive(Clone, Copy)]
pub enum View {
    Run,
    Key,
    Trace,
}

// A sheet, the policy, and what is shown of its station.
#[derive(Clone, Copy)]
struct OneStation<'a> {
    file: SheetFile<'a>,
    policy: PolicyName,
    view: View,
}

/// Shows what is asked of the station of a sheet. Refuses a sheet
/// with something wrong, and a station that cannot be made.
pub fn show(asked: OneSheet<'_>, view: View, console: &mut Console<'_>) -> Result<(), Failure> {
    let bytes = sheet_file::read(asked.file, console)?;
    let file = SheetFile::new(asked.file, bytes.as_slice(), console)?;
    let policy = asked.policy;
    let task = OneStation { file, policy, view };
    kinds::perform(file.kind, task, console)
}

impl Task for OneStation<'_> {
    fn perform<L: Readings>(self, console: &mut Console<'_>) -> Result<(), Failure> {
        let sheet = self.file.parse::<L>(console)?;
        match self.view {
            View::Run => print_run(sheet, self.policy, console),
            View::Key => print_station_key(sheet, self.policy, console),
            View::Trace => {
                let (parts, calls) = sheet.into_parts(console.heap())?;
                let policy = AnyPolicy::<L>::named(self.policy);
                match Site::make(parts, policy) {
                    Ok(site) => print_trace(site, self.policy, calls.as_slice(), console),
                    Err(why) => Err(console.give_up(Making(Some(why)))),
                }
            }
        }
    }
}

// Prints each call with its reply, then the commands and the state.
fn print_run<L: Label>(
    sheet: Sheet<L>,
    policy: PolicyName,
    console: &mut Console<'_>,
) -> Result<(), Failure> {
    let ran = run(sheet, policy, console)?;
    for exchange in ran.exchanges.iter() {
        if let Some(reply) = exchange.reply {
            let call = exchange.call;
            console.line(Answered { call, reply })?;
        }
    }
    print_commands(&ran.site, console)?;
    print_state(&ran.site, console)?;
    Ok(())
}

// Prints whose readings can reach which command, and the state.
fn print_station_key<L: Readings>(
    sheet: Sheet<L>,
    policy: PolicyName,
    console: &mut Console<'_>,
) -> Result<(), Failure> {
    let cells = sheet.memory.as_slice().to_vec(console.heap())?;
    let ran = run(sheet, policy, console)?;
    let key = Key {
        cells: cells.as_slice(),
        program: ran.site.program(),
        exchanges: ran.exchanges.as_slice(),
        commands: ran.site.commands(),
    };
    print_key(key, console)?;
    print_state(&ran.site, console)?;
    Ok(())
}

// Makes the station of a sheet and then its calls. That it is not made is printed.
fn run<L: Label>(
    sheet: Sheet<L>,
    policy: PolicyName,
    console: &mut Console<'_>,
) -> Result<Ran<AnyPolicy<L>, L>, Failure> {
    let plan: Plan<AnyPolicy<L>, L> = plan_of(console.heap(), sheet, policy)?;
    match plan.run() {
        Ok(ran) => Ok(ran),
        Err(why) => Err(console.give_up(Making(Some(why)))),
    }
}

/// Prints the commands, the oldest first.
pub fn print_commands<P, L: Label>(site: &Site<P, L>, console: &mut Console<'_>) -> io::Result<()> {
    let commands = site.commands();
    console.line(format_args!("commands {}", commands.len()))?;
    for (place, command) in commands.iter().enumerate() {
        console.line(format_args!("{place} {command}"))?;
    }
    Ok(())
}

/// Prints the state in which the station is.
pub fn print_state<P, L: Label>(site: &Site<P, L>, console: &mut Console<'_>) -> io::Result<()> {
    console.line(format_args!("state {}", site.state()))
}
