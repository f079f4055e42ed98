// The question for the next command, which every state takes, once for all of them.
ghost use Rattle.std.specs.Prelude.{◌≡◌, ◌≤◌, drop};
ghost use Rattle.machine.specs.Stations.{first_below as first_below_from};
ghost use Rattle.station.specs.Calls.{TellsNext};

use crate::lengths::check_length;
use labels::Label;
use machine::{Labelled, Part, Refusal, Sizes};
use steps::Window;

/// The place in the log of the first command, from a place on, that is at or below the clearance, of a station
/// with this window over its log.
pub fn next_command<L: Label>(
    sizes: Sizes,
    window: Window,
    log: &[Labelled<L>],
    from: usize,
    clearance: L,
) -> Result<Option<usize>, Refusal>
    requires { window.count ≤ sizes.log }
    ensures { TellsNext L.Label.kind sizes window log.now from clearance result }
{
    check_length(Part::Log, log.len(), sizes.log)?;
    Ok(first_below(window.commands(log), from, clearance))
}

// The place of the first of these commands, from a place on, that is at or below the clearance.
fn first_below<L: Label>(commands: &[Labelled<L>], from: usize, clearance: L) -> Option<usize>
    ensures { result ≡ first_below_from L.Label.kind clearance from (drop from commands.now) }
{
    let rest = commands.get(from..)?;
    for (ahead, command) in rest.iter().enumerate() {
        if command.label.flows_to(clearance) {
            return Some(from + ahead);
        }
    }
    None
}
