// The theorems about stations, each the contract of a function: what stands in a contract is checked.
ghost use Rattle.machine.specs.Laws.{CommandsGrow, MemoryKeepsLength, ShutForGood};
ghost use Rattle.machine.specs.Laws.{LookingChangesNothing, RefusedChangesNothing, GoesAddUp, FuelSpent};
ghost use Rattle.machine.specs.Laws.{ForbiddenDoesNothing, EnteredIsShown, NextIsFirst, WithinSizes};
ghost use Rattle.machine.specs.Observer.{Noninterference};
ghost use Rattle.machine.specs.Worked.{Hold, worked};
ghost use Rattle.machine.specs.WorkedCalls.{WorkedCalls};
ghost use Rattle.machine.specs.WorkedPair.{WorkedPair};
ghost use Rattle.machine.specs.WorkedTests.{requests, order};

use labels::Label;

/// Two stations that are alike to an observer when made, given lists of calls that are alike to him, show him
/// the same commands as far as both have come, and, after equally many enters and starts, the same cells when
/// both rest.
pub fn noninterference<L: Label>()
    ensures { Noninterference L.Label.kind }
{}

/// Commands are only added.
pub fn commands_grow<L: Label>()
    ensures { CommandsGrow L.Label.kind }
{}

/// The memory stays as long as it was made.
pub fn memory_keeps_length<L: Label>()
    ensures { MemoryKeepsLength L.Label.kind }
{}

/// A shut station stays as it is, whatever is called.
pub fn shut_for_good<L: Label>()
    ensures { ShutForGood L.Label.kind }
{}

/// Looks and questions for commands change nothing.
pub fn looking_changes_nothing<L: Label>()
    ensures { LookingChangesNothing L.Label.kind }
{}

/// A refused call changes nothing.
pub fn refused_changes_nothing<L: Label>()
    ensures { RefusedChangesNothing L.Label.kind }
{}

/// Under one table, a go and then another do what one go with the fuel of both does.
pub fn goes_add_up<L: Label>()
    ensures { GoesAddUp L.Label.kind }
{}

/// A go takes at most as many steps as it has fuel, and exactly as many if it leaves the station running.
pub fn fuel_spent<L: Label>()
    ensures { FuelSpent L.Label.kind }
{}

/// Under a policy that forbids everything nothing is done.
pub fn forbidden_does_nothing<L: Label>()
    ensures { ForbiddenDoesNothing L.Label.kind }
{}

/// What was entered is shown to whoever may know it, and every other cell as before.
pub fn entered_is_shown<L: Label>()
    ensures { EnteredIsShown L.Label.kind }
{}

/// The question for the next command finds the first one from the place on that is at or below the clearance.
pub fn next_is_first<L: Label>()
    ensures { NextIsFirst L.Label.kind }
{}

/// No station has a depth above its stack's length or more commands than its log holds.
pub fn within_sizes<L: Label>()
    ensures { WithinSizes L.Label.kind }
{}

/// The worked steps come out as written down.
pub fn worked_steps()
    ensures { Hold worked }
{}

/// Each operation asks its policy with the labels written down.
pub fn worked_requests()
    ensures { Hold requests }
{}

/// A step makes its tests in the order written down.
pub fn worked_tests()
    ensures { Hold order }
{}

/// A worked station is made, answers its calls and ends as written down.
pub fn worked_calls()
    ensures { WorkedCalls }
{}

/// Noninterference speaks of the worked histories.
pub fn worked_pair()
    ensures { WorkedPair }
{}
