//! What opens a definition.
ghost use Rattle.std.specs.Prelude.{◌≡◌, ◌∷◌, [], All, IfOk, OnOk, map, reverse};
ghost use Rattle.nq_logic.specs.Terms.{Variable};
ghost use Rattle.nq_bank.specs.Content.{IsNamed};
ghost use Rattle.nq_bank.specs.Shells.{texts_at};
ghost use Rattle.nq_steps.specs.Steps.{pushed, stack_of, StepStands};
ghost use Rattle.nq_axiom.specs.Openings.{opened, DefinitionStands};

use nq_bank::{Bank, Sym, TermId, ground};
use nq_steps::{Step, put_call, put_ground, put_known, put_name};
use std::alloc::AllocError;

/// A definition, as the axiom that opens it names it.
#[derive(Clone, Copy)]
pub struct Definition<'a> {
    /// The function that is defined.
    pub function: Sym,
    /// The variables that its arguments take the place of.
    pub formals: &'a [Sym],
    /// What the call is equal to.
    pub body: TermId,
}

fn put_formals(bank: &Bank, steps: &mut Vec<Step>, formals: &[Sym]) -> Result<(), AllocError>
    requires steps { All (StepStands bank.now) steps.old.items }
    requires formals { All (IsNamed bank.now) formals.now }
    ensures stand { OnOk result (All (StepStands bank.now) steps.new.items) }
    ensures makes { OnOk result (stack_of bank.now steps.new.items ≡ pushed (map Variable (texts_at bank.now formals.now)) (stack_of bank.now steps.old.items)) }
{
    for formal in formals {
        put_name(bank, steps, *formal)?;
    }
    Ok(())
}

/// The steps that make the equation of a function's call and its body.
pub fn opening_steps(bank: &Bank, d: Definition) -> Result<Vec<Step>, AllocError>
    requires { DefinitionStands bank.now d }
    ensures stand { IfOk result (λ steps. All (StepStands bank.now) steps.items) }
    ensures makes { IfOk result (λ steps. reverse (stack_of bank.now steps.items) ≡ opened bank.now d.entry) }
{
    let mut steps = Vec::new(bank.alloc());
    put_formals(bank, &mut steps, d.formals)?;
    put_call(bank, &mut steps, d.function, d.formals.len() as u64)?;
    put_known(bank, &mut steps, d.body)?;
    put_ground(bank, &mut steps, ground::EQUAL, 2)?;
    Ok(steps)
}
