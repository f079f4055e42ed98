// The policy that reads its rows off a table.
ghost use Rattle.std.specs.Prelude.{◌≡◌};
ghost use Rattle.rules.specs.Policies.{Named};
ghost use Rattle.rules.specs.Rows.{letter, joined, row_of, published_rows};
ghost use Rattle.rules.specs.Rows.{RowsFaithful, RowsAsked, rows_policy};
ghost use Rattle.rules.specs.Tables.{Obeys, published};

use crate::{Policy, Request, Verdict};
use labels::Label;

/// A set of the letters of a request's labels: A, B, C, and P for the program counter's. It means
/// their join.
#[derive(Clone, Copy, Debug, PartialEq, Eq, Hash)]
pub struct Letters {
    pub a: bool,
    pub b: bool,
    pub c: bool,
    pub p: bool,
}

/// What an operation's labels are: the letters of the program counter's new label, and those of the
/// result's.
#[derive(Clone, Copy, Debug, PartialEq, Eq, Hash)]
pub struct Row {
    pub pc: Letters,
    pub result: Letters,
}

/// The policy that reads its rows off a table, one row for each operation. The condition of store
/// is fixed.
#[derive(Clone, Copy, Debug, PartialEq, Eq, Hash)]
pub struct RowTable {
    rows: [Row; 13],
}

impl RowTable {
    /// The policy that holds the published rows, true to them for labels of kind `L`.
    pub fn new<L: Label>() -> RowTable
        ensures rows { result.rows ≡ published_rows }
        ensures faithful { RowsFaithful L.Label.kind result (published L.Label.kind) }
        ensures named { Named ⟦<RowTable as Policy<L>>⟧ (rows_policy L.Label.kind) }
    {
        RowTable {
            rows: published_rows(),
        }
    }
}

impl<L: Label> Policy<L> for RowTable {
    ghost faithful = { RowsFaithful L.Label.kind };

    ghost asked = { RowsAsked L.Label.kind };

    #[inline(always)]
    fn rule(&mut self, request: Request<L>) -> Option<Verdict<L>>
        ensures obeys { Obeys (RowsFaithful L.Label.kind) self.old request result self.new }
        ensures asked { RowsAsked L.Label.kind self.old request result self.new }
    {
        if request.is_forbidden() {
            return None;
        }
        // An operation's number is its row's place: a map or a match would say no more, at length.
        let row = self.rows[request.op as usize];
        Some(Verdict {
            pc: join_of(row.pc, request),
            result: join_of(row.result, request),
        })
    }
}

// The join of the labels whose letters are in the set.
fn join_of<L: Label>(set: Letters, request: Request<L>) -> L
    ensures { result ≡ joined L.Label.kind set request }
{
    let ab = pick(set.a, request.a).join(pick(set.b, request.b));
    ab.join(pick(set.c, request.c))
        .join(pick(set.p, request.pc))
}

// The label if its letter is in the set, else bottom. The letter stands in a row and the label in a
// request, and an Option made of the two would be no plainer.
fn pick<L: Label>(present: bool, label: L) -> L
    ensures { result ≡ letter L.Label.kind present label }
{
    if present { label } else { L::bottom() }
}

const NONE: Letters = Letters {
    a: false,
    b: false,
    c: false,
    p: false,
};

const A: Letters = Letters { a: true, ..NONE };

const P: Letters = Letters { p: true, ..NONE };

const AB: Letters = Letters { b: true, ..A };

const AP: Letters = Letters { p: true, ..A };

const BP: Letters = Letters { b: true, ..P };

const ABP: Letters = Letters { p: true, ..AB };

// The published rows, in the order of the operations.
fn published_rows() -> [Row; 13]
    ensures { result ≡ published_rows }
{
    let from_both = row_of(P, AB);
    let branch = row_of(AP, NONE);
    [
        // push, pop, noop
        row_of(P, A),
        row_of(P, NONE),
        row_of(P, NONE),
        // add, sub, less, load
        from_both,
        from_both,
        from_both,
        from_both,
        // store
        row_of(P, ABP),
        // jump, bnz
        branch,
        branch,
        // call, return, output
        row_of(AP, P),
        row_of(A, BP),
        row_of(P, AP),
    ]
}

// The row with these letters.
fn row_of(pc: Letters, res: Letters) -> Row
    ensures { result ≡ row_of pc res }
{
    Row { pc, result: res }
}
