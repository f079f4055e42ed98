// Rule questions: how they are read, answered and written.
ghost use Rattle.std.specs.Prelude.{Some};
ghost use Rattle.text.specs.Answers.{Answers, AnswersByTable, answer_text};
ghost use Rattle.text.specs.Questions.{NamesOperation, NextLabel, ReadsQuestion};
ghost use Rattle.text.specs.Words.{Names};

use crate::{before_comment, next_word};
use labels::Label;
use rules::{Opcode, Policy, Request, Verdict};
use std::fmt;

/// What is wrong with a question: the word that is no operation's name, or no label's text, or one
/// too many.
#[derive(Clone, Copy, Debug, PartialEq, Eq, Hash)]
pub enum Fault<'a> {
    Operation(&'a str),
    Label(&'a str),
    Extra(&'a str),
}

/// A question and its verdict, shown as the whole request and then the verdict or `forbidden`.
#[derive(Clone, Copy, Debug, PartialEq, Eq, Hash)]
pub struct Answer<L> {
    pub request: Request<L>,
    pub verdict: Option<Verdict<L>>,
}

/// The answer to the question on a line, if there is one; `#` begins a comment. Refuses a line with
/// a wrong word, and then, as without a question, the policy is not asked.
pub fn answer_line<'a, P: Policy<L>, L: Label>(
    policy: &mut P,
    line: &'a str,
) -> Result<Option<Answer<L>>, Fault<'a>>
    ensures answers { Answers L.Label.own P.Policy line.now policy.old result policy.new }
    ensures told { AnswersByTable P.Policy policy.old result policy.new }
{
    let Some(request) = read_request(before_comment(line))? else {
        return Ok(None);
    };
    let verdict = policy.rule(request);
    Ok(Some(Answer { request, verdict }))
}

/// The question that a line's words ask, if it has any: an operation and up to four labels, the
/// program counter's, A, B and C. Those left out are bottom. Refuses a line with a wrong word.
pub fn read_request<L: Label>(line: &str) -> Result<Option<Request<L>>, Fault<'_>>
    ensures { ReadsQuestion L.Label.own line.now result }
{
    let Some((word, rest)) = next_word(line) else {
        return Ok(None);
    };
    // Each word is read by a call of its own: a loop over the words would have to say which of the
    // four labels is due.
    let op = operation_named(word)?;
    let (pc, rest) = next_label(rest)?;
    let (a, rest) = next_label(rest)?;
    let (b, rest) = next_label(rest)?;
    let (c, rest) = next_label(rest)?;
    if let Some((word, _)) = next_word(rest) {
        return Err(Fault::Extra(word));
    }
    Ok(Some(Request { op, pc, a, b, c }))
}

// The operation of that name.
fn operation_named(word: &str) -> Result<Opcode, Fault<'_>>
    ensures { NamesOperation word.now result }
{
    word.parse().map_err(|_| Fault::Operation(word))
}

// The next label, bottom where no word is left, and what comes after it.
fn next_label<L: Label>(line: &str) -> Result<(L, &str), Fault<'_>>
    ensures { NextLabel L.Label.own line.now result }
{
    let Some((word, rest)) = next_word(line) else {
        return Ok((L::bottom(), line));
    };
    let label = label_named(word).ok_or(Fault::Label(word))?;
    Ok((label, rest))
}

/// The label whose text the word is, if any. Not by `FromStr`, which every kind of label would have
/// to write beside `read`.
pub fn label_named<L: Label>(word: &str) -> Option<L>
    ensures { Names L.Label.text word.now result }
{
    let (label, rest) = L::read(word.as_bytes())?;
    rest.is_empty().then_some(label)
}

impl<L: Label> fmt::Display for Answer<L> {
    ghost output = { λ x. Some (answer_text L.Label.text x) };

    fn fmt<W: fmt::Write>(&self, f: &mut fmt::Formatter<W>) -> fmt::Result {
        match self.verdict {
            Some(verdict) => write!(f, "{}: {verdict}", self.request),
            None => write!(f, "{}: forbidden", self.request),
        }
    }
}
