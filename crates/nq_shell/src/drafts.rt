//! The terms of which the axioms of a shell are made.
ghost use Rattle.std.specs.Prelude.{◌≡◌, ◌<◌, ◌≤◌, ◌∷◌, [], All, OnOk, length};
ghost use Rattle.nq_bank.specs.Content.{IsNamed, text_at};
ghost use Rattle.nq_logic.specs.Terms.{Applied, Function};
ghost use Rattle.nq_logic.specs.Histories.{NoneOf};
ghost use Rattle.nq_logic.specs.Shells.{whole, accessed, either_of, part_sizes, part_variable, part_variables, made, made_with, recognized, recognizes, remade, restricted, sum_of};
ghost use Rattle.nq_bank.specs.Shells.{texts_at, part_at, parts_at, shell_at, PartStands, ShellStands};
ghost use Rattle.nq_steps.specs.Steps.{pushed, stack_of, StepStands};
ghost use Rattle.nq_shell.specs.Drafts.{argument_at, size_in, variables_with};

use nq_bank::{Bank, Part, Shell, Sym, ground};
use nq_steps::{Step, put_call, put_ground, put_joined, put_variable, put_whole};
use std::alloc::AllocError;

fn put_variables(bank: &Bank, steps: &mut Vec<Step>, parts: &[Part]) -> Result<(), AllocError>
    requires steps { All (StepStands bank.now) steps.old.items }
    ensures stand { OnOk result (All (StepStands bank.now) steps.new.items) }
    ensures makes { OnOk result (stack_of bank.now steps.new.items ≡ pushed (part_variables 0 (parts_at bank.now parts.now)) (stack_of bank.now steps.old.items)) }
{
    for (k, _part) in parts.iter().enumerate() {
        put_variable(bank, steps, k as u64)?;
    }
    Ok(())
}

/// The variable of a part, or in one place the constant that stands for it.
fn put_argument(
    bank: &Bank,
    steps: &mut Vec<Step>,
    here: usize,
    place: usize,
    default: Sym,
) -> Result<(), AllocError>
    requires steps { All (StepStands bank.now) steps.old.items }
    requires default { IsNamed bank.now default }
    ensures stand { OnOk result (All (StepStands bank.now) steps.new.items) }
    ensures makes { OnOk result (stack_of bank.now steps.new.items ≡ argument_at here place (Function (text_at bank.now default)) ∷ stack_of bank.now steps.old.items) }
{
    if here == place {
        put_call(bank, steps, default, 0)
    } else {
        put_variable(bank, steps, here as u64)
    }
}

fn put_arguments(
    bank: &Bank,
    steps: &mut Vec<Step>,
    parts: &[Part],
    place: usize,
    default: Sym,
) -> Result<(), AllocError>
    requires steps { All (StepStands bank.now) steps.old.items }
    requires default { IsNamed bank.now default }
    ensures stand { OnOk result (All (StepStands bank.now) steps.new.items) }
    ensures makes { OnOk result (stack_of bank.now steps.new.items ≡ pushed (variables_with 0 place (Function (text_at bank.now default)) (parts_at bank.now parts.now)) (stack_of bank.now steps.old.items)) }
{
    for (k, _part) in parts.iter().enumerate() {
        put_argument(bank, steps, k, place, default)?;
    }
    Ok(())
}

/// The accessor's call of X.
pub fn put_part_of_whole(bank: &Bank, steps: &mut Vec<Step>, part: &Part) -> Result<(), AllocError>
    requires steps { All (StepStands bank.now) steps.old.items }
    requires part { PartStands bank.now part.now }
    ensures stand { OnOk result (All (StepStands bank.now) steps.new.items) }
    ensures makes { OnOk result (stack_of bank.now steps.new.items ≡ Applied (Function (text_at bank.now part.now.accessor)) whole ∷ stack_of bank.now steps.old.items) }
{
    put_whole(bank, steps)?;
    put_call(bank, steps, part.accessor, 1)
}

fn put_parts_of_whole(bank: &Bank, steps: &mut Vec<Step>, parts: &[Part]) -> Result<(), AllocError>
    requires steps { All (StepStands bank.now) steps.old.items }
    requires parts { All (PartStands bank.now) parts.now }
    ensures stand { OnOk result (All (StepStands bank.now) steps.new.items) }
    ensures makes { OnOk result (stack_of bank.now steps.new.items ≡ pushed (accessed whole (parts_at bank.now parts.now)) (stack_of bank.now steps.old.items)) }
{
    for part in parts {
        put_part_of_whole(bank, steps, part)?;
    }
    Ok(())
}

/// The constructor's call of its variables.
pub fn put_made(bank: &Bank, steps: &mut Vec<Step>, shell: &Shell) -> Result<(), AllocError>
    requires steps { All (StepStands bank.now) steps.old.items }
    requires shell { ShellStands bank.now shell.now }
    ensures stand { OnOk result (All (StepStands bank.now) steps.new.items) }
    ensures makes { OnOk result (stack_of bank.now steps.new.items ≡ made (shell_at bank.now shell.now) ∷ stack_of bank.now steps.old.items) }
{
    put_variables(bank, steps, shell.parts.as_slice())?;
    put_call(bank, steps, shell.constructor, shell.parts.len() as u64)
}

/// The same call with a constant in one place.
pub fn put_made_with(
    bank: &Bank,
    steps: &mut Vec<Step>,
    shell: &Shell,
    place: usize,
    default: Sym,
) -> Result<(), AllocError>
    requires steps { All (StepStands bank.now) steps.old.items }
    requires shell { ShellStands bank.now shell.now }
    requires default { IsNamed bank.now default }
    requires place { place < length shell.now.parts.items }
    ensures stand { OnOk result (All (StepStands bank.now) steps.new.items) }
    ensures makes { OnOk result (stack_of bank.now steps.new.items ≡ made_with (shell_at bank.now shell.now) place (Function (text_at bank.now default)) ∷ stack_of bank.now steps.old.items) }
{
    put_arguments(bank, steps, shell.parts.as_slice(), place, default)?;
    put_call(bank, steps, shell.constructor, shell.parts.len() as u64)
}

/// The constructor's call of the parts of X.
pub fn put_remade(bank: &Bank, steps: &mut Vec<Step>, shell: &Shell) -> Result<(), AllocError>
    requires steps { All (StepStands bank.now) steps.old.items }
    requires shell { ShellStands bank.now shell.now }
    ensures stand { OnOk result (All (StepStands bank.now) steps.new.items) }
    ensures makes { OnOk result (stack_of bank.now steps.new.items ≡ remade (shell_at bank.now shell.now) ∷ stack_of bank.now steps.old.items) }
{
    put_parts_of_whole(bank, steps, shell.parts.as_slice())?;
    put_call(bank, steps, shell.constructor, shell.parts.len() as u64)
}

/// The call of a recognizer, of X.
pub fn put_recognized_whole(
    bank: &Bank,
    steps: &mut Vec<Step>,
    shell: &Shell,
) -> Result<(), AllocError>
    requires steps { All (StepStands bank.now) steps.old.items }
    requires shell { ShellStands bank.now shell.now }
    ensures stand { OnOk result (All (StepStands bank.now) steps.new.items) }
    ensures makes { OnOk result (stack_of bank.now steps.new.items ≡ recognizes (shell_at bank.now shell.now) whole ∷ stack_of bank.now steps.old.items) }
{
    put_whole(bank, steps)?;
    put_call(bank, steps, shell.recognizer, 1)
}

fn put_recognized(
    bank: &Bank,
    steps: &mut Vec<Step>,
    name: Sym,
    place: u64,
) -> Result<(), AllocError>
    requires steps { All (StepStands bank.now) steps.old.items }
    requires name { IsNamed bank.now name }
    ensures stand { OnOk result (All (StepStands bank.now) steps.new.items) }
    ensures makes { OnOk result (stack_of bank.now steps.new.items ≡ Applied (Function (text_at bank.now name)) (part_variable place) ∷ stack_of bank.now steps.old.items) }
{
    put_variable(bank, steps, place)?;
    put_call(bank, steps, name, 1)
}

fn put_recognizers(
    bank: &Bank,
    steps: &mut Vec<Step>,
    names: &[Sym],
    place: u64,
) -> Result<(), AllocError>
    requires steps { All (StepStands bank.now) steps.old.items }
    requires names { All (IsNamed bank.now) names.now }
    ensures stand { OnOk result (All (StepStands bank.now) steps.new.items) }
    ensures makes { OnOk result (stack_of bank.now steps.new.items ≡ pushed (recognized (texts_at bank.now names.now) (part_variable place)) (stack_of bank.now steps.old.items)) }
{
    for name in names {
        put_recognized(bank, steps, *name, place)?;
    }
    Ok(())
}

/// One of the recognizers holds of the variable.
fn put_either(
    bank: &Bank,
    steps: &mut Vec<Step>,
    names: &[Sym],
    place: u64,
) -> Result<(), AllocError>
    requires steps { All (StepStands bank.now) steps.old.items }
    requires names { All (IsNamed bank.now) names.now }
    ensures stand { OnOk result (All (StepStands bank.now) steps.new.items) }
    ensures makes { OnOk result (stack_of bank.now steps.new.items ≡ either_of (recognized (texts_at bank.now names.now) (part_variable place)) ∷ stack_of bank.now steps.old.items) }
{
    put_recognizers(bank, steps, names, place)?;
    put_joined(bank, steps, ground::OR, ground::FALSE, names.len() as u64)
}

fn put_none_of(
    bank: &Bank,
    steps: &mut Vec<Step>,
    names: &[Sym],
    place: u64,
) -> Result<(), AllocError>
    requires steps { All (StepStands bank.now) steps.old.items }
    requires names { All (IsNamed bank.now) names.now }
    ensures stand { OnOk result (All (StepStands bank.now) steps.new.items) }
    ensures makes { OnOk result (stack_of bank.now steps.new.items ≡ restricted (NoneOf (texts_at bank.now names.now)) (part_variable place) ∷ stack_of bank.now steps.old.items) }
{
    if names.is_empty() {
        return put_ground(bank, steps, ground::TRUE, 0);
    }
    put_either(bank, steps, names, place)?;
    put_ground(bank, steps, ground::NOT, 1)
}

/// The restriction of the part at a place, on its variable.
pub fn put_restriction(
    bank: &Bank,
    steps: &mut Vec<Step>,
    part: &Part,
    place: u64,
) -> Result<(), AllocError>
    requires steps { All (StepStands bank.now) steps.old.items }
    requires part { PartStands bank.now part.now }
    ensures stand { OnOk result (All (StepStands bank.now) steps.new.items) }
    ensures makes { OnOk result (stack_of bank.now steps.new.items ≡ restricted (part_at bank.now part.now).restriction (part_variable place) ∷ stack_of bank.now steps.old.items) }
{
    if part.one_of {
        put_either(bank, steps, part.recognizers.as_slice(), place)
    } else {
        put_none_of(bank, steps, part.recognizers.as_slice(), place)
    }
}

/// What a part adds to the size: the size of its variable, where that meets the restriction.
fn put_size(bank: &Bank, steps: &mut Vec<Step>, part: &Part, place: u64) -> Result<(), AllocError>
    requires steps { All (StepStands bank.now) steps.old.items }
    requires part { PartStands bank.now part.now }
    ensures stand { OnOk result (All (StepStands bank.now) steps.new.items) }
    ensures makes { OnOk result (stack_of bank.now steps.new.items ≡ size_in place (part_at bank.now part.now) ∷ stack_of bank.now steps.old.items) }
{
    put_restriction(bank, steps, part, place)?;
    put_variable(bank, steps, place)?;
    put_ground(bank, steps, ground::COUNT, 1)?;
    put_ground(bank, steps, ground::ZERO, 0)?;
    put_ground(bank, steps, ground::IF, 3)
}

fn put_sizes(bank: &Bank, steps: &mut Vec<Step>, parts: &[Part]) -> Result<(), AllocError>
    requires steps { All (StepStands bank.now) steps.old.items }
    requires parts { All (PartStands bank.now) parts.now }
    ensures stand { OnOk result (All (StepStands bank.now) steps.new.items) }
    ensures makes { OnOk result (stack_of bank.now steps.new.items ≡ pushed (part_sizes 0 (parts_at bank.now parts.now)) (stack_of bank.now steps.old.items)) }
{
    for (k, part) in parts.iter().enumerate() {
        put_size(bank, steps, part, k as u64)?;
    }
    Ok(())
}

/// The sizes of the parts together.
pub fn put_total(bank: &Bank, steps: &mut Vec<Step>, parts: &[Part]) -> Result<(), AllocError>
    requires steps { All (StepStands bank.now) steps.old.items }
    requires parts { All (PartStands bank.now) parts.now }
    ensures stand { OnOk result (All (StepStands bank.now) steps.new.items) }
    ensures makes { OnOk result (stack_of bank.now steps.new.items ≡ sum_of (part_sizes 0 (parts_at bank.now parts.now)) ∷ stack_of bank.now steps.old.items) }
{
    put_sizes(bank, steps, parts)?;
    put_joined(bank, steps, ground::PLUS, ground::ZERO, parts.len() as u64)
}
