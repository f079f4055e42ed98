// Where two lists first differ to an observer.
ghost use Rattle.std.specs.Prelude.{◌≡◌, ◌↔◌, Bool, IsTrue, MatchOption, List, [], ◌∷◌, filter, length};
ghost use Rattle.machine.specs.Lists.{Each, OneBegins};
ghost use Rattle.compare.specs.Differences.{Breaks, NextHad};

/// How an observer compares the elements of two lists: which of them he has, and which are alike to him.
pub trait Comparer<T> {
    ghost has: { Self → T → Bool };

    ghost alike: { Self → T → T → Type 0 };

    // Either way round.
    ghost symmetric: { (c : Self) (first second : T) → alike c first second → alike c second first };

    /// Whether he has the element. Each `impl` writes the clauses again, as for a policy.
    fn has(&self, element: &T) -> bool
        ensures { result ≡ has self.now element.now };

    /// Whether the two elements are alike.
    fn alike(&self, first: &T, second: &T) -> bool
        ensures { IsTrue result ↔ alike self.now first.now second.now };
}

/// Where, of the elements that the observer has, neither list begins the other any more.
pub fn first_difference<T, C: Comparer<T>>(comparer: &C, first: &[T], second: &[T]) -> Option<usize>
    ensures { Breaks (OneBegins (C.Comparer.alike comparer.now))
        (filter (C.Comparer.has comparer.now) first.now) (filter (C.Comparer.has comparer.now) second.now) result }
{
    let mut place = 0;
    let mut rest = second;
    for element in first {
        if comparer.has(element) {
            let (other, behind) = next_had(comparer, rest)?;
            if !comparer.alike(element, other) {
                return Some(place);
            }
            place += 1;
            rest = behind;
        }
    }
    None
}

/// Where two lists cease to be alike element by element. Of these the observer has all.
pub fn first_unlike<T, C: Comparer<T>>(comparer: &C, first: &[T], second: &[T]) -> Option<usize>
    ensures { Breaks (Each (C.Comparer.alike comparer.now)) first.now second.now result }
{
    for (place, element) in first.iter().enumerate() {
        let Some(other) = second.get(place) else {
            return Some(place);
        };
        if !comparer.alike(element, other) {
            return Some(place);
        }
    }
    if first.len() < second.len() {
        Some(first.len())
    } else {
        None
    }
}

/// How many elements the observer has.
pub fn count<T, C: Comparer<T>>(comparer: &C, list: &[T]) -> usize
    ensures { result ≡ length (filter (C.Comparer.has comparer.now) list.now) }
{
    list.iter().filter(|element| comparer.has(element)).count()
}

// The first element that the observer has, and the list behind it.
fn next_had<'a, T, C: Comparer<T>>(comparer: &C, list: &'a [T]) -> Option<(&'a T, &'a [T])>
    ensures { NextHad (C.Comparer.has comparer.now) list.now result }
{
    let mut rest = list;
    while let Some((element, behind)) = rest.split_first() {
        if comparer.has(element) {
            return Some((element, behind));
        }
        rest = behind;
    }
    None
}
