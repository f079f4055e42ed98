// Walks over the lent parts: an element by its place, the numbers on top of the entries in use, their nearest frame.
//
// What passes a number on is always inlined: else a label of two fields is packed into one word and taken apart again
// at each step.
ghost use Rattle.std.specs.Prelude.{◌≡◌, ◌-◌, ◌<◌, ◌≤◌, ◌^◌, ◌∷◌, ◌++◌, reverse, length, take, drop, nat_le};
ghost use Rattle.std.specs.List.{list_all};
ghost use Rattle.machine.specs.declared.parts.Entry.TheVariants.{Number};
ghost use Rattle.steps.specs.Walks.{newest, is_number, numbers_on_top, stack_of};
ghost use Rattle.steps.specs.Walks.{TakesTop, TakesTopTwo, FindsFrame, Finds, FindsCell};

use machine::{End, Entry, Frame, Labelled, Stop};

/// An element of a part, and where it stands.
#[derive(Clone, Copy, Debug, PartialEq, Eq)]
pub struct Found<T> {
    pub index: usize,
    pub element: T,
}

/// The element at a place, which may be outside.
#[inline(always)]
pub fn find<T>(part: &[T], place: i64) -> Option<Found<&T>>
    requires { length part.now ≤ 2 ^ 63 }
    ensures { Finds part.now place result }
{
    // A negative place is cast to a number beyond every part, so that one test serves for both ends.
    let index = place.cast_unsigned() as usize;
    let element = part.get(index)?;
    Some(Found { index, element })
}

/// The cell at an address.
#[inline(always)]
pub fn find_cell<L: Copy>(
    memory: &[Labelled<L>],
    address: Labelled<L>,
) -> Result<Found<Labelled<L>>, End>
    ensures { FindsCell memory.now address.value result }
{
    match find(memory, i64::from(address.value)) {
        Some(Found { index, element }) => Ok(Found {
            index,
            element: read(element),
        }),
        None => Err(End::Stopped(Stop::OutsideMemory)),
    }
}

/// The top number, which must lie above the nearest frame.
#[inline(always)]
pub fn top_number<L: Copy>(used: &[Entry<L>]) -> Result<Labelled<L>, End>
    ensures { TakesTop used.now result }
{
    match used.last() {
        Some(Entry::Number(number)) => Ok(read(number)),
        _ => Err(End::Stopped(Stop::TooFewNumbers)),
    }
}

/// The top two numbers, the lower one first, which must both lie above the nearest frame.
#[inline(always)]
pub fn top_two<L: Copy>(used: &[Entry<L>]) -> Result<(Labelled<L>, Labelled<L>), End>
    ensures { TakesTopTwo used.now result }
{
    match used {
        [.., Entry::Number(b), Entry::Number(a)] => Ok((read(b), read(a))),
        _ => Err(End::Stopped(Stop::TooFewNumbers)),
    }
}

// Reads a number by its fields, and not as one block of bytes: in a part the fields are written one by one.
#[inline(always)]
fn read<L: Copy>(number: &Labelled<L>) -> Labelled<L>
    ensures { result ≡ number.now }
{
    Labelled {
        value: number.value,
        label: number.label,
    }
}

/// Writes a number by its fields.
#[inline(always)]
pub fn write<L: Copy>(place: &mut Labelled<L>, number: Labelled<L>)
    ensures { place.new ≡ number }
{
    place.value = number.value;
    place.label = number.label;
}

/// Writes a number in an entry's place. Where a number stands, its fields are enough: a whole entry has room
/// for a frame.
#[inline(always)]
pub fn write_entry<L: Copy>(entry: &mut Entry<L>, number: Labelled<L>)
    ensures { entry.new ≡ Number number }
{
    match entry {
        Entry::Number(place) => write(place, number),
        Entry::Frame(_) => *entry = Entry::Number(number),
    }
}

// Whether the newest so many entries are numbers.
fn are_numbers<L: Copy>(used: &[Entry<L>], count: usize) -> bool
    ensures { result ≡ list_all is_number (take count (reverse used.now)) }
{
    used.iter()
        .rev()
        .take(count)
        .all(|entry| matches!(entry, Entry::Number(_)))
}

/// Whether so many numbers lie above the nearest frame.
pub fn has_numbers<L: Copy>(used: &[Entry<L>], count: usize) -> bool
    ensures { result ≡ nat_le count (numbers_on_top (stack_of used.now)) }
{
    count <= used.len() && are_numbers(used, count)
}

/// The nearest frame.
#[inline(always)]
pub fn nearest_frame<L: Copy>(used: &[Entry<L>]) -> Result<Found<Frame<L>>, End>
    ensures { FindsFrame used.now result }
{
    for (index, entry) in used.iter().enumerate().rev() {
        if let Entry::Frame(element) = *entry {
            return Ok(Found { index, element });
        }
    }
    Err(End::Stopped(Stop::NoFrame))
}

/// Takes the last element off, and puts another under the `count` before it, each of which moves up by one place.
pub fn insert_under<T: Copy>(part: &mut [T], count: usize, element: T)
    requires { count < length part.old }
    ensures { let below = newest (length part.old - 1) part.old in
        newest (length part.old) part.new ≡ take count below ++ element ∷ drop count below }
{
    let last = part.len() - 1;
    let index = last - count;
    part.copy_within(index..last, index + 1);
    part[index] = element;
}
