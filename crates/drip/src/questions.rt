// `drip rules`: questions from a file, answered by a policy that is true to the published rows.
ghost use Rattle.rules.specs.Tables.{published};
ghost use Rattle.text.specs.Answers.{Answers, ByTable};

use crate::command::Rules;
use crate::complaint::{Complaint, Problem};
use crate::kinds::{self, Task};
use crate::{Console, Failure};
use labels::Label;
use policies::AnyPolicy;
use readings::Readings;
use rules::Policy;
use std::fs::File;
use std::io::{BufRead, BufReader, Read};
use std::marker::{Model, PhantomData};
use text::{Answer, Fault, answer_line};

// A policy that is true to the published rows, for labels of kind L. Contracts see the policy.
#[derive(Drop)]
struct Faithful<P: Policy<L>, L: Label> {
    policy: P,
    kind: PhantomData<L>,
}

impl<P: Policy<L>, L: Label> Model for Faithful<P, L> {
    ghost Value = { P };

    ghost view = { λ f. f.policy };

    ghost invariant = { λ f. P.Policy.faithful f.policy (published L.Label.kind) };
}

impl<P: Policy<L>, L: Label> Faithful<P, L> {
    // The policy, which is to be true to the published rows.
    fn new(policy: P) -> Faithful<P, L>
        requires { P.Policy.faithful policy (published L.Label.kind) }
    {
        Faithful {
            policy,
            kind: PhantomData,
        }
    }

    // The answer to the question on a line, if there is one: the published rows'.
    fn answer<'a>(&mut self, line: &'a str) -> Result<Option<Answer<L>>, Fault<'a>>
        ensures answers { Answers L.Label.own P.Policy line.now self.old result self.new }
        ensures told { ByTable (published L.Label.kind) result }
    {
        answer_line::<P, L>(&mut self.policy, line)
    }
}

// Labels of one kind, and the policy that is asked.
type Asked<L> = Faithful<AnyPolicy<L>, L>;

/// Answers the questions of a file, with labels of the kind that is asked for. Refuses
/// a file that cannot be read; a line that is no question ends the answers.
pub fn show(asked: Rules<'_>, console: &mut Console<'_>) -> Result<(), Failure> {
    kinds::perform(asked.kind, asked, console)
}

impl Task for Rules<'_> {
    fn perform<L: Readings>(self, console: &mut Console<'_>) -> Result<(), Failure> {
        let policy = Faithful::new(AnyPolicy::<L>::named(self.policy));
        if self.file == "-" {
            let input = console.runtime().stdin();
            return self.answer_lines(policy, input, console);
        }
        match File::open(console.runtime(), self.file) {
            Ok(file) => self.answer_lines(policy, file, console),
            Err(e) => Err(self.told(0, Problem::Unopened(&e), console)),
        }
    }
}

impl Rules<'_> {
    // Answers the lines of a file, up to one that is no question.
    fn answer_lines<L: Label, R: Read + Drop>(
        self,
        mut policy: Asked<L>,
        reader: R,
        console: &mut Console<'_>,
    ) -> Result<(), Failure> {
        let heap = console.heap();
        let mut reader = BufReader::new(heap, reader)?;
        for number in 1..u64::MAX {
            // Before more is waited for, what is answered is shown: whoever asks may wait for it.
            if !reader.buffer().contains(&b'\n') {
                console.flush()?;
            }
            match reader.by_ref().lines(heap).next() {
                None => return Ok(()),
                Some(Ok(line)) => self.answer_one(&mut policy, number, line.as_str(), console)?,
                Some(Err(e)) => return Err(self.told(number, Problem::Unread(&e), console)),
            }
        }
        Ok(())
    }

    // Answers a line, if there is a question on it.
    fn answer_one<L: Label>(
        self,
        policy: &mut Asked<L>,
        number: u64,
        line: &str,
        console: &mut Console<'_>,
    ) -> Result<(), Failure> {
        match policy.answer(line) {
            Ok(None) => Ok(()),
            Ok(Some(answer)) => {
                console.line(answer)?;
                Ok(())
            }
            Err(fault) => Err(self.told(number, Problem::NoQuestion(fault, self.kind), console)),
        }
    }

    // Tells what is wrong on standard error.
    fn told(self, line: u64, problem: Problem<'_>, console: &mut Console<'_>) -> Failure {
        console.complain(Complaint {
            file: self.file,
            line,
            problem,
        })
    }
}
