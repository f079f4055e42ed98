// The lines of a sheet that have words, and the words of a line.
ghost use Rattle.std.specs.Prelude.{◌≡◌, [], ◌∷◌, ◌++◌, IfOk, map};
ghost use Rattle.text.specs.Words.{words};
ghost use Rattle.sheets.specs.Sheets.{HeadedBy, GivesLine, line_words, sheet_lines};
ghost use Rattle.sheets.specs.Words.{TakesWord};

use crate::{Due, Problem};
use std::alloc::{AllocError, Global};
use text::{before_comment, next_word};

/// A line that has words: its number, its first word and the words behind that.
#[derive(Clone, Copy)]
pub struct Line<'a> {
    pub number: u64,
    pub first: &'a str,
    pub rest: Words<'a>,
}

/// The words of a line that are still to be read.
#[derive(Clone, Copy)]
pub struct Words<'a>(&'a str);

impl<'a> Line<'a> {
    /// The line with this number and text, if it has words.
    pub fn new(number: u64, text: &'a str) -> Option<Line<'a>>
        ensures { GivesLine text.now result }
    {
        let (first, rest) = next_word(before_comment(text))?;
        Some(Line {
            number,
            first,
            rest: Words(rest),
        })
    }
}

impl<'a> Words<'a> {
    /// Takes the next word, if there is one.
    pub fn next(&mut self) -> Option<&'a str>
        ensures { TakesWord (words self.old.0.now) result (words self.new.0.now) }
    {
        let (word, rest) = next_word(self.0)?;
        self.0 = rest;
        Some(word)
    }

    /// Takes the next word, which is to be what is due. Refuses a line that ends here.
    pub fn due(&mut self, due: Due) -> Result<&'a str, Problem<'a>>
        ensures { IfOk result (λ word. words self.old.0.now ≡ word.now ∷ words self.new.0.now) }
    {
        self.next().ok_or(Problem::Missing(due))
    }

    /// Nothing more is due. Refuses a line with another word.
    pub fn end(self) -> Result<(), Problem<'a>>
        ensures { IfOk result (λ _. words self.entry.0.now ≡ []) }
    {
        match next_word(self.0) {
            None => Ok(()),
            Some((word, _)) => Err(Problem::Extra(word)),
        }
    }
}

/// The lines of a text that have words.
pub fn lines_of(heap: Global, text: &str) -> Result<Vec<Line<'_>>, AllocError>
    ensures { IfOk result (λ all. map line_words all.items ≡ sheet_lines text.now) }
{
    let mut lines = Vec::new(heap);
    // Counted by hand: the proof of a loop over a zip with the numbers would have to take the pairs
    // apart.
    let mut number = 0u64;
    for line in text.lines() {
        number = number.saturating_add(1);
        if let Some(line) = Line::new(number, line) {
            lines.push(line)?;
        }
    }
    Ok(lines)
}

/// The lines before the first that begins with the word, and the lines from that one on.
pub fn split_at_word<'l, 'a>(lines: &'l [Line<'a>], word: &str) -> (&'l [Line<'a>], &'l [Line<'a>])
    ensures all { lines.now ≡ result.0.now ++ result.1.now }
    ensures begins { HeadedBy word.now result.1.now }
{
    let index = lines.iter().position(|line| line.first == word);
    lines.split_at(index.unwrap_or(lines.len()))
}
