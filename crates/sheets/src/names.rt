// The names of places in a program.
use crate::lines::Line;
use crate::{Fault, Problem};
use std::alloc::Global;
use std::collections::BTreeMap;

/// A named place, and the number of the line that names it.
#[derive(Clone, Copy, PartialEq, Eq)]
pub struct Named {
    pub place: i32,
    pub line: u64,
}

/// The places that a program's names name, and how many operations it has.
#[derive(Drop)]
pub struct Names<'a> {
    places: BTreeMap<&'a str, Named>,
    operations: i32,
}

impl<'a> Names<'a> {
    /// The names that a program gives, whose first line is `program`. Of a
    /// name that is given twice the first place counts; `check` refuses the
    /// second. Refuses more operations than a number can tell apart.
    pub fn of(heap: Global, program: &[Line<'a>]) -> Result<Names<'a>, Fault<'a>> {
        let mut places = BTreeMap::new(heap);
        let mut operations = 0i32;
        for line in program.iter().skip(1) {
            match line.first.strip_suffix(':') {
                Some(name) => {
                    if !places.contains_key(&name) {
                        let named = Named {
                            place: operations,
                            line: line.number,
                        };
                        places.insert(name, named)?;
                    }
                }
                None => {
                    operations = operations
                        .checked_add(1)
                        .ok_or(Problem::TooLong.at(line.number))?;
                }
            }
        }
        Ok(Names { places, operations })
    }

    /// The place that a name names. Refuses a name that the program does not give.
    pub fn place(&self, name: &'a str) -> Result<i32, Problem<'a>> {
        match self.places.get(&name) {
            None => Err(Problem::UnknownName(name)),
            Some(named) => Ok(named.place),
        }
    }

    /// Refuses what is no name, a name that another line gave before, and one behind which no
    /// operation follows.
    pub fn check(&self, name: &'a str, line: u64) -> Result<(), Problem<'a>> {
        if !is_name(name) {
            return Err(Problem::NoName(name));
        }
        match self.places.get(&name) {
            Some(named) if named.line != line => Err(Problem::NameTwice(name)),
            Some(named) if named.place == self.operations => Err(Problem::NamesNothing(name)),
            _ => Ok(()),
        }
    }
}

/// Whether the word is a lower-case letter and behind it letters, digits and `_`.
pub fn is_name(word: &str) -> bool {
    match word.as_bytes() {
        [] => false,
        [first, rest @ ..] => {
            first.is_ascii_lowercase()
                && rest
                    .iter()
                    .all(|byte| byte.is_ascii_alphanumeric() || *byte == b'_')
        }
    }
}
