// The pages of `drip help`.
use crate::command::Name;

/// The line of `drip --version`.
pub const VERSION: &str = "drip 0.1.0";

/// The page of a command. That of help itself is the usage of all.
pub fn page(name: Name) -> &'static str {
    match name {
        Name::Run => RUN,
        Name::Key => KEY,
        Name::Trace => TRACE,
        Name::Compare => COMPARE,
        Name::Rules => RULES,
        Name::Demo => DEMO,
        Name::Help | Name::Version => USAGE,
    }
}

const USAGE: &str =
    "drip answers for stations on a shared drip line: whose readings may reach which valve.

usage:
  drip run SHEET                    make the station of a sheet and do its calls
  drip key SHEET                    whose readings can reach which of its commands
  drip trace SHEET                  the same run, step by step
  drip compare SHEET SHEET LABEL    two runs, as an observer at LABEL sees them
  drip rules KIND FILE              answer a file of rule questions
  drip demo                         a station of two growers at work
  drip help [COMMAND]               this page, or the page of a command
  drip --version

A SHEET or a FILE is the name of a file, or - for standard input.
--policy direct, rows or cached, anywhere behind a command that runs something,
picks who answers whether an operation may run: the rows worked out directly, the
rows read off a table, or (if nothing is said) a cache over that table. The answers
are the same.

What is wrong is told on standard error, and what was expected: as
FILE:LINE: what is wrong, where LINE is 0 if it is in no line of FILE, or else as
drip: what is wrong. The status is then 1.
";

const RUN: &str = "drip run SHEET [--policy direct|rows|cached]

Makes the station of a sheet and does its calls. A line for each call and its answer,
then the commands, the oldest first, and the station's state. If the station cannot
be made, the one line is make: refused with 1, and the part that is to blame; the
status is then 1.

A sheet is plain text, a line for each thing. # starts a comment.
  labels KIND         levels, growers, or two of them for a pair
  memory N            N cells, each 0 with the lowest label
  stack N             so many entries, and log N so many commands; 64 if left out
  cell C NUMBER@LABEL what cell C holds
  program             the operations follow, a line each: push NUMBER@LABEL, pop,
                      noop, add, sub, less, load, store, jump, bnz DISTANCE,
                      call COUNT DUE, return, output, halt. A line NAME: names
                      the place of the next one. The name can stand for the place
                      as a number, behind bnz for the way there.
  calls               the calls follow, a line each: enter C NUMBER@LABEL, start,
                      go FUEL, look C LABEL, command FROM LABEL
A level is one digit from 0 to 7; growers are four hexadecimal digits in lower case,
grower 0 the lowest bit; a pair is the left text and the right one behind it.

example:
  $ drip run dose.sheet
  enter 0 40@0001: done
  start: running
  go 100: finished after 3 steps
  commands 1
  0 40@0001
  state idle
for the sheet
  labels growers
  memory 1
  program
    push 0@0000
    load
    output
    halt
  calls
    enter 0 40@0001
    start
    go 100
";

const KEY: &str = "drip key SHEET [--policy direct|rows|cached]

Makes the station of a sheet, does its calls, and prints the answer key: a row for
each command, with whose readings it can carry; then, for each grower or level that
occurs in a label, the commands that its readings can reach; then the state. This is
read off the labels, for the calls as the station took them: that a call came while a
round still ran, and was not taken, can itself be a reading's doing. Of a
pair the growers or levels are left or right ones. drip help run says what a sheet is.

example:
  $ drip key dose.sheet
  place  number  label  whose readings it can carry
      0      40  0001   grower 0

  grower 0: command 0
  state idle
";

const TRACE: &str = "drip trace SHEET [--policy direct|rows|cached]

Prints what drip run prints, and before the line of a go a line for each of its
steps: the step's number, its place and its operation, then as the step left them
the label of the program counter, the top of the stack, and the cell or the command
that was written. A frame on the stack is shown with the place that it returns to.
- stands for the top of an empty stack. The operation that a go is stopped at has a line
without a number. Behind the line of a go that was stopped a line says what the stop
means.

example:
  $ drip trace dose.sheet
  enter 0 40@0001: done
  start: running
       1     0  push 0@0000  pc 0000  top 0@0000
       2     1  load         pc 0000  top 40@0001
       3     2  output       pc 0000  top -                 command 0 = 40@0001
  go 100: finished after 3 steps
  commands 1
  0 40@0001
  state idle
";

const COMPARE: &str = "drip compare SHEET SHEET LABEL [--policy direct|rows|cached]

Runs two sheets with the same kind of labels and compares them as an observer sees
them who is cleared for LABEL. Says whether the programs, the memories and the calls
are alike to him: the same but for numbers that are above LABEL in both. Of the calls
the enters and starts count that the stations took, and one list may go on where the
other ends. Then the commands at or below LABEL of both, and, if equally many calls
counted and both stations are idle, whether every cell shows him the same.

The last line is the conclusion. If all three are alike, one list of commands is a
beginning of the other and no cell shows something else: that is proved. If not, he
may be given anything. A reading may decide how long a round takes, and so whether an
enter or a start comes while one runs and is not taken; such calls are told, since
from there on the calls may part. The status is 1 only if a station is not made, or
if something differed that the proof rules out.

example:
  $ drip compare monday.sheet tuesday.sheet 0002
  programs: alike
  memories: alike
  calls: alike

  commands at or below 0002
     first    second
  0  5@0000   5@0000
  1  25@0002  25@0002

  commands: the same in both
  cells: every cell shows the same
  alike to an observer at 0002, and nothing that he is given differs
";

const RULES: &str = "drip rules KIND FILE [--policy direct|rows|cached]

Answers the questions in FILE, one a line, by the published rows.
  KIND    levels, growers, or two of them for a pair, as: levels growers
  FILE    the file of questions, or - for standard input
A question is OPERATION P A B C: an operation, the label P of the program counter,
and the labels A, B and C of what it works on. Labels left out at the end are the
lowest. A level is one digit from 0 to 7; growers are four hexadecimal digits in
lower case, grower 0 the lowest bit; a pair is the left text and the right one
behind it, without a space. # starts a comment.

example:
  $ echo 'store 1 2 0 5' | drip rules levels -
  store 1 2 0 5: pc 1, result 2
";

const DEMO: &str = "drip demo [--policy direct|rows|cached]

Shows a station of two growers at work, each call with its answer.

example:
  $ drip demo
  ..
  # Each grower's reading is entered into a cell, with that grower's label.
  enter 0 40@0001: done
  enter 1 25@0002: done
  ..
";
