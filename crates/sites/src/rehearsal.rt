// A go step by step, on copies of a station's parts.
ghost use Rattle.std.specs.Prelude.{◌≤◌, length};
ghost use Rattle.machine.specs.Numbers.{most};
ghost use Rattle.machine.specs.declared.answers.Part.TheVariants.{Program};

use crate::Parts;
use labels::Label;
use machine::End;
use rules::Policy;
use steps::Registers;

/// The round of a station, to be stepped on copies of its parts. A station itself takes no single steps: a go of one
/// unit of fuel also finds out whether the round ends there.
#[derive(Debug, Drop)]
pub struct Rehearsal<L> {
    pub(crate) registers: Registers<L>,
    pub(crate) parts: Parts<L>,
    pub ghost program_fits: { length parts.program.items ≤ most Program },
    pub ghost stack_holds: { registers.depth ≤ length parts.stack.items },
    pub ghost log_holds: { registers.window.count ≤ length parts.log.items },
}

impl<L: Label> Rehearsal<L> {
    ghost use Rattle.std.specs.Prelude.{◌≡◌, ◌<◌, IsOk};
    ghost use Rattle.machine.specs.Steps.{made_of, step};
    ghost use Rattle.steps.specs.Operations.{Steps};
    ghost use Rattle.sites.specs.Rehearsals.{Follows};
    ghost use Rattle.sites.specs.Sites.{held};

    /// Takes the step that a go with so much fuel would take next: the registers after it, or the end that it comes to.
    pub fn advance<P: Policy<L>>(&mut self, policy: &mut P, fuel: u32) -> Result<Registers<L>, End>
        ensures steps { Steps P.Policy policy.old policy.new (held self.old.parts) (held self.new.parts)
            self.old.registers result (λ table setup. step L.Label.kind table setup fuel) }
        ensures fuelled { IsOk result → 0 < fuel }
        ensures as_made { made_of (held self.new.parts) ≡ made_of (held self.old.parts) }
        ensures follows { Follows self.old.registers self.new.registers result }
    {
        let registers = self.registers.step(
            self.parts.program.as_slice(),
            self.parts.memory.as_mut_slice(),
            self.parts.stack.as_mut_slice(),
            self.parts.log.as_mut_slice(),
            policy,
            fuel,
        )?;
        self.registers = registers;
        Ok(registers)
    }

    /// Where the round stands.
    pub fn registers(&self) -> Registers<L>
        ensures { result ≡ self.now.registers }
    {
        self.registers
    }

    /// The parts, as the steps so far left them.
    pub fn parts(&self) -> &Parts<L>
        ensures { result.now ≡ self.now.parts }
    {
        &self.parts
    }
}
