//! The rows of the table of shell axioms: each function puts the literals of its row, or answers that it has none.
ghost use Rattle.std.specs.Prelude.{◌≡◌, ◌<◌, ◌++◌, [], ◌∷◌, length, All, OnOk};
ghost use Rattle.nq_logic.specs.Terms.{Applied, Function};
ghost use Rattle.nq_logic.specs.Words.{add1_term, call1, equal_term, false_term, not_term, true_term, zero_term};
ghost use Rattle.nq_logic.specs.Shells.{is_base, made, made_with, part_sizes, part_variable, recognizes, remade, restricted, sum_of, whole};
ghost use Rattle.nq_bank.specs.Content.{IsNamed, text_at};
ghost use Rattle.nq_bank.specs.Shells.{part_at, shell_at, text_if, BaseStands, PartStands, ShellStands};
ghost use Rattle.nq_proof.specs.Rows.{accessed_by, default_of};
ghost use Rattle.nq_steps.specs.Steps.{pushed, stack_of, StepStands};

use crate::drafts::{
    put_made, put_made_with, put_part_of_whole, put_recognized_whole, put_remade, put_restriction,
    put_total,
};
use nq_bank::{Bank, Part, Shell, Sym, ground};
use nq_steps::{Step, put_call, put_ground, put_variable, put_whole};
use std::alloc::AllocError;

/// X is the base, where there is one.
fn put_is_base(bank: &Bank, steps: &mut Vec<Step>, base: Option<Sym>) -> Result<(), AllocError>
    requires steps { All (StepStands bank.now) steps.old.items }
    requires base { BaseStands bank.now base }
    ensures stand { OnOk result (All (StepStands bank.now) steps.new.items) }
    ensures makes { OnOk result (stack_of bank.now steps.new.items ≡ pushed (is_base (text_if bank.now base)) (stack_of bank.now steps.old.items)) }
{
    match base {
        None => Ok(()),
        Some(b) => {
            put_whole(bank, steps)?;
            put_call(bank, steps, b, 0)?;
            put_ground(bank, steps, ground::EQUAL, 2)
        }
    }
}

/// The recognizer answers T or F.
pub fn recognizer_is_truth_value(
    bank: &Bank,
    steps: &mut Vec<Step>,
    shell: &Shell,
) -> Result<(), AllocError>
    requires steps { All (StepStands bank.now) steps.old.items }
    requires shell { ShellStands bank.now shell.now }
    ensures stand { OnOk result (All (StepStands bank.now) steps.new.items) }
    ensures makes { OnOk result (stack_of bank.now steps.new.items ≡ pushed (equal_term (recognizes (shell_at bank.now shell.now) whole) true_term ∷ equal_term (recognizes (shell_at bank.now shell.now) whole) false_term ∷ []) (stack_of bank.now steps.old.items)) }
{
    put_recognized_whole(bank, steps, shell)?;
    put_ground(bank, steps, ground::TRUE, 0)?;
    put_ground(bank, steps, ground::EQUAL, 2)?;
    put_recognized_whole(bank, steps, shell)?;
    put_ground(bank, steps, ground::FALSE, 0)?;
    put_ground(bank, steps, ground::EQUAL, 2)
}

/// What is made is recognized.
pub fn made_is_recognized(
    bank: &Bank,
    steps: &mut Vec<Step>,
    shell: &Shell,
) -> Result<(), AllocError>
    requires steps { All (StepStands bank.now) steps.old.items }
    requires shell { ShellStands bank.now shell.now }
    ensures stand { OnOk result (All (StepStands bank.now) steps.new.items) }
    ensures makes { OnOk result (stack_of bank.now steps.new.items ≡ pushed (recognizes (shell_at bank.now shell.now) (made (shell_at bank.now shell.now)) ∷ []) (stack_of bank.now steps.old.items)) }
{
    put_made(bank, steps, shell)?;
    put_call(bank, steps, shell.recognizer, 1)
}

/// The base is recognized.
pub fn base_is_recognized(
    bank: &Bank,
    steps: &mut Vec<Step>,
    shell: &Shell,
    base: Sym,
) -> Result<(), AllocError>
    requires steps { All (StepStands bank.now) steps.old.items }
    requires shell { ShellStands bank.now shell.now }
    requires base { IsNamed bank.now base }
    ensures stand { OnOk result (All (StepStands bank.now) steps.new.items) }
    ensures makes { OnOk result (stack_of bank.now steps.new.items ≡ pushed (recognizes (shell_at bank.now shell.now) (Function (text_at bank.now base)) ∷ []) (stack_of bank.now steps.old.items)) }
{
    put_call(bank, steps, base, 0)?;
    put_call(bank, steps, shell.recognizer, 1)
}

/// What is made is not the base.
pub fn made_is_no_base(
    bank: &Bank,
    steps: &mut Vec<Step>,
    shell: &Shell,
    base: Sym,
) -> Result<(), AllocError>
    requires steps { All (StepStands bank.now) steps.old.items }
    requires shell { ShellStands bank.now shell.now }
    requires base { IsNamed bank.now base }
    ensures stand { OnOk result (All (StepStands bank.now) steps.new.items) }
    ensures makes { OnOk result (stack_of bank.now steps.new.items ≡ pushed (not_term (equal_term (made (shell_at bank.now shell.now)) (Function (text_at bank.now base))) ∷ []) (stack_of bank.now steps.old.items)) }
{
    put_made(bank, steps, shell)?;
    put_call(bank, steps, base, 0)?;
    put_ground(bank, steps, ground::EQUAL, 2)?;
    put_ground(bank, steps, ground::NOT, 1)
}

/// What is recognized, and not the base, is made of its parts.
pub fn remade_is_same(bank: &Bank, steps: &mut Vec<Step>, shell: &Shell) -> Result<(), AllocError>
    requires steps { All (StepStands bank.now) steps.old.items }
    requires shell { ShellStands bank.now shell.now }
    ensures stand { OnOk result (All (StepStands bank.now) steps.new.items) }
    ensures makes { OnOk result (stack_of bank.now steps.new.items ≡ pushed (not_term (recognizes (shell_at bank.now shell.now) whole) ∷ (is_base (shell_at bank.now shell.now).base ++ (equal_term (remade (shell_at bank.now shell.now)) whole ∷ []))) (stack_of bank.now steps.old.items)) }
{
    put_recognized_whole(bank, steps, shell)?;
    put_ground(bank, steps, ground::NOT, 1)?;
    put_is_base(bank, steps, shell.base)?;
    put_remade(bank, steps, shell)?;
    put_whole(bank, steps)?;
    put_ground(bank, steps, ground::EQUAL, 2)
}

/// A part that meets its restriction is the part of what is made.
pub fn part_of_made(
    bank: &Bank,
    steps: &mut Vec<Step>,
    shell: &Shell,
    part: &Part,
    place: usize,
) -> Result<(), AllocError>
    requires steps { All (StepStands bank.now) steps.old.items }
    requires shell { ShellStands bank.now shell.now }
    requires part { PartStands bank.now part.now }
    ensures stand { OnOk result (All (StepStands bank.now) steps.new.items) }
    ensures makes { OnOk result (stack_of bank.now steps.new.items ≡ pushed (not_term (restricted (part_at bank.now part.now).restriction (part_variable place)) ∷ equal_term (accessed_by (part_at bank.now part.now) (made (shell_at bank.now shell.now))) (part_variable place) ∷ []) (stack_of bank.now steps.old.items)) }
{
    put_restriction(bank, steps, part, place as u64)?;
    put_ground(bank, steps, ground::NOT, 1)?;
    put_made(bank, steps, shell)?;
    put_call(bank, steps, part.accessor, 1)?;
    put_variable(bank, steps, place as u64)?;
    put_ground(bank, steps, ground::EQUAL, 2)
}

/// A part that does not meet its restriction is replaced by the default.
pub fn wrong_part_of_made(
    bank: &Bank,
    steps: &mut Vec<Step>,
    shell: &Shell,
    part: &Part,
    place: usize,
) -> Result<(), AllocError>
    requires steps { All (StepStands bank.now) steps.old.items }
    requires shell { ShellStands bank.now shell.now }
    requires part { PartStands bank.now part.now }
    ensures stand { OnOk result (All (StepStands bank.now) steps.new.items) }
    ensures makes { OnOk result (stack_of bank.now steps.new.items ≡ pushed (restricted (part_at bank.now part.now).restriction (part_variable place) ∷ equal_term (accessed_by (part_at bank.now part.now) (made (shell_at bank.now shell.now))) (default_of (part_at bank.now part.now)) ∷ []) (stack_of bank.now steps.old.items)) }
{
    put_restriction(bank, steps, part, place as u64)?;
    put_made(bank, steps, shell)?;
    put_call(bank, steps, part.accessor, 1)?;
    put_call(bank, steps, part.default, 0)?;
    put_ground(bank, steps, ground::EQUAL, 2)
}

/// The part of another object is the default.
pub fn part_of_other(
    bank: &Bank,
    steps: &mut Vec<Step>,
    shell: &Shell,
    part: &Part,
) -> Result<(), AllocError>
    requires steps { All (StepStands bank.now) steps.old.items }
    requires shell { ShellStands bank.now shell.now }
    requires part { PartStands bank.now part.now }
    ensures stand { OnOk result (All (StepStands bank.now) steps.new.items) }
    ensures makes { OnOk result (stack_of bank.now steps.new.items ≡ pushed (recognizes (shell_at bank.now shell.now) whole ∷ equal_term (accessed_by (part_at bank.now part.now) whole) (default_of (part_at bank.now part.now)) ∷ []) (stack_of bank.now steps.old.items)) }
{
    put_recognized_whole(bank, steps, shell)?;
    put_part_of_whole(bank, steps, part)?;
    put_call(bank, steps, part.default, 0)?;
    put_ground(bank, steps, ground::EQUAL, 2)
}

/// The part of the base is the default.
pub fn part_of_base(
    bank: &Bank,
    steps: &mut Vec<Step>,
    part: &Part,
    base: Sym,
) -> Result<(), AllocError>
    requires steps { All (StepStands bank.now) steps.old.items }
    requires part { PartStands bank.now part.now }
    requires base { IsNamed bank.now base }
    ensures stand { OnOk result (All (StepStands bank.now) steps.new.items) }
    ensures makes { OnOk result (stack_of bank.now steps.new.items ≡ pushed (equal_term (accessed_by (part_at bank.now part.now) (Function (text_at bank.now base))) (default_of (part_at bank.now part.now)) ∷ []) (stack_of bank.now steps.old.items)) }
{
    put_call(bank, steps, base, 0)?;
    put_call(bank, steps, part.accessor, 1)?;
    put_call(bank, steps, part.default, 0)?;
    put_ground(bank, steps, ground::EQUAL, 2)
}

/// What is made of a part that does not meet its restriction is made of the default.
pub fn wrong_part(
    bank: &Bank,
    steps: &mut Vec<Step>,
    shell: &Shell,
    part: &Part,
    place: usize,
) -> Result<(), AllocError>
    requires steps { All (StepStands bank.now) steps.old.items }
    requires shell { ShellStands bank.now shell.now }
    requires part { PartStands bank.now part.now }
    requires place { place < length shell.now.parts.items }
    ensures stand { OnOk result (All (StepStands bank.now) steps.new.items) }
    ensures makes { OnOk result (stack_of bank.now steps.new.items ≡ pushed (restricted (part_at bank.now part.now).restriction (part_variable place) ∷ equal_term (made (shell_at bank.now shell.now)) (made_with (shell_at bank.now shell.now) place (default_of (part_at bank.now part.now))) ∷ []) (stack_of bank.now steps.old.items)) }
{
    put_restriction(bank, steps, part, place as u64)?;
    put_made(bank, steps, shell)?;
    put_made_with(bank, steps, shell, place, part.default)?;
    put_ground(bank, steps, ground::EQUAL, 2)
}

/// T is not recognized.
pub fn truth_is_none(bank: &Bank, steps: &mut Vec<Step>, shell: &Shell) -> Result<(), AllocError>
    requires steps { All (StepStands bank.now) steps.old.items }
    requires shell { ShellStands bank.now shell.now }
    ensures stand { OnOk result (All (StepStands bank.now) steps.new.items) }
    ensures makes { OnOk result (stack_of bank.now steps.new.items ≡ pushed (not_term (recognizes (shell_at bank.now shell.now) true_term) ∷ []) (stack_of bank.now steps.old.items)) }
{
    put_ground(bank, steps, ground::TRUE, 0)?;
    put_call(bank, steps, shell.recognizer, 1)?;
    put_ground(bank, steps, ground::NOT, 1)
}

/// F is not recognized.
pub fn falsity_is_none(bank: &Bank, steps: &mut Vec<Step>, shell: &Shell) -> Result<(), AllocError>
    requires steps { All (StepStands bank.now) steps.old.items }
    requires shell { ShellStands bank.now shell.now }
    ensures stand { OnOk result (All (StepStands bank.now) steps.new.items) }
    ensures makes { OnOk result (stack_of bank.now steps.new.items ≡ pushed (not_term (recognizes (shell_at bank.now shell.now) false_term) ∷ []) (stack_of bank.now steps.old.items)) }
{
    put_ground(bank, steps, ground::FALSE, 0)?;
    put_call(bank, steps, shell.recognizer, 1)?;
    put_ground(bank, steps, ground::NOT, 1)
}

/// What is recognized is not recognized by an earlier shell.
pub fn kinds_differ(
    bank: &Bank,
    steps: &mut Vec<Step>,
    shell: &Shell,
    other: &Shell,
) -> Result<(), AllocError>
    requires steps { All (StepStands bank.now) steps.old.items }
    requires shell { ShellStands bank.now shell.now }
    requires other { ShellStands bank.now other.now }
    ensures stand { OnOk result (All (StepStands bank.now) steps.new.items) }
    ensures makes { OnOk result (stack_of bank.now steps.new.items ≡ pushed (not_term (recognizes (shell_at bank.now shell.now) whole) ∷ not_term (recognizes (shell_at bank.now other.now) whole) ∷ []) (stack_of bank.now steps.old.items)) }
{
    put_recognized_whole(bank, steps, shell)?;
    put_ground(bank, steps, ground::NOT, 1)?;
    put_recognized_whole(bank, steps, other)?;
    put_ground(bank, steps, ground::NOT, 1)
}

/// The size of what is made.
pub fn size_of_made(bank: &Bank, steps: &mut Vec<Step>, shell: &Shell) -> Result<(), AllocError>
    requires steps { All (StepStands bank.now) steps.old.items }
    requires shell { ShellStands bank.now shell.now }
    ensures stand { OnOk result (All (StepStands bank.now) steps.new.items) }
    ensures makes { OnOk result (stack_of bank.now steps.new.items ≡ pushed (equal_term (call1 "COUNT" (made (shell_at bank.now shell.now))) (add1_term (sum_of (part_sizes 0 (shell_at bank.now shell.now).parts))) ∷ []) (stack_of bank.now steps.old.items)) }
{
    put_made(bank, steps, shell)?;
    put_ground(bank, steps, ground::COUNT, 1)?;
    put_total(bank, steps, shell.parts.as_slice())?;
    put_ground(bank, steps, ground::ADD1, 1)?;
    put_ground(bank, steps, ground::EQUAL, 2)
}

/// The size of the base.
pub fn size_of_base(bank: &Bank, steps: &mut Vec<Step>, base: Sym) -> Result<(), AllocError>
    requires steps { All (StepStands bank.now) steps.old.items }
    requires base { IsNamed bank.now base }
    ensures stand { OnOk result (All (StepStands bank.now) steps.new.items) }
    ensures makes { OnOk result (stack_of bank.now steps.new.items ≡ pushed (equal_term (call1 "COUNT" (Function (text_at bank.now base))) zero_term ∷ []) (stack_of bank.now steps.old.items)) }
{
    put_call(bank, steps, base, 0)?;
    put_ground(bank, steps, ground::COUNT, 1)?;
    put_ground(bank, steps, ground::ZERO, 0)?;
    put_ground(bank, steps, ground::EQUAL, 2)
}
