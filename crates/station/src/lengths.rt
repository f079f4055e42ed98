// How long the parts handed in are: within their limits when a station is made, and the same at each call after.
ghost use Rattle.std.specs.Prelude.{◌≡◌, [], ◌∷◌, ◌==◌};
ghost use Rattle.machine.specs.Numbers.{all_parts, first_wrong, most, outside_limits, size_of, within};
ghost use Rattle.machine.specs.Steps.{contents, lengths};
ghost use Rattle.machine.specs.declared.answers.Refusal.TheVariants.{Limits, Length};
ghost use Rattle.station.specs.Lengths.{checked, CellThere};

use machine::{Entry, Labelled, Operation, Part, Refusal, Sizes};

/// How long the four parts handed in are.
pub fn sizes_of<L>(
    program: &[Operation<L>],
    memory: &[Labelled<L>],
    stack: &[Entry<L>],
    log: &[Labelled<L>],
) -> Sizes
    ensures { result ≡ lengths (contents program.now memory.now stack.now log.now) }
{
    Sizes {
        program: program.len(),
        memory: memory.len(),
        stack: stack.len(),
        log: log.len(),
    }
}

// Refuses a part with 1 unless it has at least one element and at most as many as its limit.
fn check_limit(part: Part, len: usize) -> Result<(), Refusal>
    ensures { result ≡ checked Limits (first_wrong (λ p. within (most p) len) (part ∷ [])) }
{
    if (1..=part.most()).contains(&len) {
        Ok(())
    } else {
        Err(Refusal::Limits(part))
    }
}

/// Refuses the first part outside its limits.
pub fn check_limits(sizes: Sizes) -> Result<(), Refusal>
    ensures { result ≡ checked Limits (outside_limits sizes) }
{
    check_limit(Part::Program, sizes.program)?;
    check_limit(Part::Memory, sizes.memory)?;
    check_limit(Part::Stack, sizes.stack)?;
    check_limit(Part::Log, sizes.log)
}

/// Refuses a part with 2 unless it is as long as when the station was made.
pub fn check_length(part: Part, len: usize, made: usize) -> Result<(), Refusal>
    ensures { result ≡ checked Length (first_wrong (λ _. (len == made)) (part ∷ [])) }
{
    if len == made {
        Ok(())
    } else {
        Err(Refusal::Length(part))
    }
}

/// Refuses the first of the four parts that is not as long as when the station was made.
pub fn check_lengths(sizes: Sizes, made: Sizes) -> Result<(), Refusal>
    ensures { result ≡ checked Length (first_wrong (λ part. size_of sizes part == size_of made part) all_parts) }
{
    check_length(Part::Program, sizes.program, made.program)?;
    check_length(Part::Memory, sizes.memory, made.memory)?;
    check_length(Part::Stack, sizes.stack, made.stack)?;
    check_length(Part::Log, sizes.log, made.log)
}

/// Refuses a cell outside a memory of so many.
pub fn check_cell(cells: usize, cell: usize) -> Result<(), Refusal>
    ensures { CellThere cells cell result }
{
    if cell < cells {
        Ok(())
    } else {
        Err(Refusal::Cell)
    }
}
