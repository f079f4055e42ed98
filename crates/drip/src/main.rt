// drip: the installer's program.
#![tactic(auto)]

mod command;
mod comparison;
mod complaint;
mod console;
mod demo;
mod failure;
mod help;
mod key;
mod kinds;
mod operations;
mod questions;
mod sheet_file;
mod side_by_side;
mod stations;
mod table;
mod trace;

use command::Command;
use console::Console;
use demo::Demo;
use failure::Failure;
use stations::View;
use std::env;
use std::process::ExitCode;

fn main(rt: HostRuntime) -> ExitCode {
    match run(&rt) {
        Ok(()) => ExitCode::SUCCESS,
        Err(Failure::Told) => ExitCode::FAILURE,
        Err(Failure::Io(why)) => {
            // Where not even this can be told, the status alone tells it.
            let _ = eprintln!(rt;
                "drip: {why}; expected arguments in UTF-8, memory, and an output that takes what is written"
            );
            ExitCode::FAILURE
        }
    }
}

fn run(rt: &HostRuntime) -> Result<(), Failure> {
    let words: Vec<String> = env::args(rt)?.skip(1).collect(rt.alloc())?;
    let mut console = Console::new(rt)?;
    let outcome = perform(words.as_slice(), &mut console);
    console.flush()?;
    outcome
}

// Does what the words after the program's own name say.
fn perform(words: &[String], console: &mut Console<'_>) -> Result<(), Failure> {
    match Command::parse(console.heap(), words) {
        Ok(Command::Run(asked)) => stations::show(asked, View::Run, console),
        Ok(Command::Key(asked)) => stations::show(asked, View::Key, console),
        Ok(Command::Trace(asked)) => stations::show(asked, View::Trace, console),
        Ok(Command::Compare(asked)) => comparison::show(asked, console),
        Ok(Command::Rules(asked)) => questions::show(asked, console),
        Ok(Command::Demo(policy)) => Demo::new(console, policy).show(),
        Ok(Command::Help(name)) => Ok(console.print(help::page(name))?),
        Ok(Command::Version) => Ok(console.line(help::VERSION)?),
        Err(misuse) => Err(console.complain(misuse)),
    }
}
