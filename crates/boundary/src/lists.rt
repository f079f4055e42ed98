// Lists of structs of numbers, read and written.
ghost use Rattle.std.specs.Prelude.{◌≡◌, IfOk, List, MatchResult, map};
ghost use Rattle.boundary.specs.Calls.{CodesExchange, reply_code};
ghost use Rattle.boundary.specs.Decoding.{DecodesOnHeap, Unread};
ghost use Rattle.boundary.specs.Parts.{CodesEach, CodesEntry, CodesNumber, CodesOperation};
ghost use Rattle.boundary.specs.Parts.{entry_code, number_code};

use crate::calls::{CallCode, ReplyCode};
use crate::codes::Coded;
use crate::faults::Fault;
use crate::parts::{EntryCode, NumberCode, OperationCode};
use compare::Exchange;
use machine::{Entry, Labelled, Operation};
use std::alloc::{AllocError, Global};

/// A struct of numbers that codes a value.
pub trait Codes<T>: Copy {
    ghost codes: { Self → T → Type 0 };

    /// The value that the numbers code. Refuses numbers that code none.
    fn decode(self, heap: Global) -> Result<T, Fault>
        ensures { DecodesOnHeap result (codes self) };
}

impl<L: Coded> Codes<Labelled<L>> for NumberCode {
    ghost codes = { CodesNumber L.Coded.code };

    fn decode(self, _heap: Global) -> Result<Labelled<L>, Fault> {
        self.number().ok_or(Fault::NoCode)
    }
}

impl<L: Coded> Codes<Operation<L>> for OperationCode {
    ghost codes = { CodesOperation L.Coded.code };

    fn decode(self, _heap: Global) -> Result<Operation<L>, Fault> {
        self.operation().ok_or(Fault::NoCode)
    }
}

impl<L: Coded> Codes<Entry<L>> for EntryCode {
    ghost codes = { CodesEntry L.Coded.code };

    fn decode(self, _heap: Global) -> Result<Entry<L>, Fault> {
        self.entry().ok_or(Fault::NoCode)
    }
}

impl<L: Coded> Codes<Exchange<L>> for CallCode {
    ghost codes = { CodesExchange L.Coded.code };

    fn decode(self, heap: Global) -> Result<Exchange<L>, Fault> {
        self.exchange(heap)
    }
}

/// The values that a list codes. Refuses a list with an element that codes none.
pub fn decoded<C: Codes<T>, T: Drop>(heap: Global, codes: &[C]) -> Result<Vec<T>, Fault>
    ensures { MatchResult result (λ all. CodesEach C.Codes.codes codes.now all.items)
        (Unread ((all : List T) → CodesEach C.Codes.codes codes.now all → ⊥)) }
{
    let mut all = Vec::with_capacity(heap, codes.len())?;
    for code in codes {
        all.push(code.decode(heap)?)?;
    }
    Ok(all)
}

/// The numbers of a memory or a log, coded one by one.
pub fn coded_numbers<L: Coded>(
    heap: Global,
    numbers: &[Labelled<L>],
) -> Result<Vec<NumberCode>, AllocError>
    ensures { IfOk result (λ all. all.items ≡ map (number_code L.Coded.code) numbers.now) }
{
    let coded = numbers.iter().map(|number| NumberCode::of(*number));
    coded.collect(heap)
}

/// The entries of a stack, coded one by one.
pub fn coded_entries<L: Coded>(
    heap: Global,
    entries: &[Entry<L>],
) -> Result<Vec<EntryCode>, AllocError>
    ensures { IfOk result (λ all. all.items ≡ map (entry_code L.Coded.code) entries.now) }
{
    let coded = entries.iter().map(|entry| EntryCode::of(*entry));
    coded.collect(heap)
}

/// The replies to calls, coded one by one.
pub fn coded_replies<L: Coded>(
    heap: Global,
    exchanges: &[Exchange<L>],
) -> Result<Vec<ReplyCode>, AllocError>
    ensures { IfOk result
        (λ all. all.items ≡ map (λ e. reply_code L.Coded.code e.reply) exchanges.now) }
{
    let coded = exchanges
        .iter()
        .map(|exchange| ReplyCode::of(exchange.reply));
    coded.collect(heap)
}
