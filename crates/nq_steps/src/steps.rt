//! Terms that are made step by step on a stack: the steps are written first, and then taken over a bank.
ghost use Rattle.std.specs.Prelude.{◌≡◌, ◌<◌, [], ◌∷◌, All, OnOk, length, List};
ghost use Rattle.nq_bank.specs.GroundNames.{ground_count};
ghost use Rattle.nq_bank.specs.Soundness.{ground_text};
ghost use Rattle.nq_bank.specs.Content.{IsNamed, Stands, term_at, text_at};
ghost use Rattle.nq_logic.specs.Shells.{whole, part_variable};
ghost use Rattle.nq_logic.specs.Terms.{Term, Variable, call};
ghost use Rattle.nq_logic.specs.Words.{numeral};
ghost use Rattle.nq_steps.specs.Steps.{called, called_times, leaf_term, nest, pushed, stack_of, step_taken, LeafStands, StepStands};

use nq_bank::{Bank, Sym, TermId, ground_name};
use std::alloc::AllocError;

/// A term that no other term of the stack is needed for.
#[derive(Clone, Copy, Debug, PartialEq, Eq)]
pub enum Leaf {
    /// The variable of one letter, in upper case.
    Letter(u8),
    /// The variable of this name.
    Name(Sym),
    /// The variable of the part at a place: X1, X2 and so on, the places counted from 0.
    Part(u64),
    /// A numeral.
    Number(u128),
    /// A term that stands in the bank.
    Known(TermId),
}

/// A step of making terms.
#[derive(Clone, Copy, Debug, PartialEq, Eq)]
pub enum Step {
    /// One more term on the stack.
    Leaf(Leaf),
    /// The call of a function, of so many of the last terms, in their place.
    Call(Sym, u64),
}

/// Puts a step.
fn put(bank: &Bank, steps: &mut Vec<Step>, step: Step) -> Result<(), AllocError>
    requires steps { All (StepStands bank.now) steps.old.items }
    requires step { StepStands bank.now step }
    ensures stand { OnOk result (All (StepStands bank.now) steps.new.items) }
    ensures makes { OnOk result (stack_of bank.now steps.new.items ≡ step_taken bank.now step (stack_of bank.now steps.old.items)) }
{
    steps.push(step)?;
    Ok(())
}

/// Puts a term that is made of no others.
fn put_leaf(bank: &Bank, steps: &mut Vec<Step>, leaf: Leaf) -> Result<(), AllocError>
    requires steps { All (StepStands bank.now) steps.old.items }
    requires leaf { LeafStands bank.now leaf }
    ensures stand { OnOk result (All (StepStands bank.now) steps.new.items) }
    ensures makes { OnOk result (stack_of bank.now steps.new.items ≡ leaf_term bank.now leaf ∷ stack_of bank.now steps.old.items) }
{
    put(bank, steps, Step::Leaf(leaf))
}

/// Puts the variable X.
pub fn put_whole(bank: &Bank, steps: &mut Vec<Step>) -> Result<(), AllocError>
    requires steps { All (StepStands bank.now) steps.old.items }
    ensures stand { OnOk result (All (StepStands bank.now) steps.new.items) }
    ensures makes { OnOk result (stack_of bank.now steps.new.items ≡ whole ∷ stack_of bank.now steps.old.items) }
{
    put_leaf(bank, steps, Leaf::Letter(b'X'))
}

/// Puts the variable of the part at a place, counted from 0.
pub fn put_variable(bank: &Bank, steps: &mut Vec<Step>, place: u64) -> Result<(), AllocError>
    requires steps { All (StepStands bank.now) steps.old.items }
    ensures stand { OnOk result (All (StepStands bank.now) steps.new.items) }
    ensures makes { OnOk result (stack_of bank.now steps.new.items ≡ part_variable place ∷ stack_of bank.now steps.old.items) }
{
    put_leaf(bank, steps, Leaf::Part(place))
}

/// Puts the variable of a name.
pub fn put_name(bank: &Bank, steps: &mut Vec<Step>, name: Sym) -> Result<(), AllocError>
    requires steps { All (StepStands bank.now) steps.old.items }
    requires name { IsNamed bank.now name }
    ensures stand { OnOk result (All (StepStands bank.now) steps.new.items) }
    ensures makes { OnOk result (stack_of bank.now steps.new.items ≡ Variable (text_at bank.now name) ∷ stack_of bank.now steps.old.items) }
{
    put_leaf(bank, steps, Leaf::Name(name))
}

/// Puts a numeral.
pub fn put_number(bank: &Bank, steps: &mut Vec<Step>, number: u128) -> Result<(), AllocError>
    requires steps { All (StepStands bank.now) steps.old.items }
    ensures stand { OnOk result (All (StepStands bank.now) steps.new.items) }
    ensures makes { OnOk result (stack_of bank.now steps.new.items ≡ numeral number ∷ stack_of bank.now steps.old.items) }
{
    put_leaf(bank, steps, Leaf::Number(number))
}

/// Puts a term that stands in the bank.
pub fn put_known(bank: &Bank, steps: &mut Vec<Step>, t: TermId) -> Result<(), AllocError>
    requires steps { All (StepStands bank.now) steps.old.items }
    requires stands { Stands bank.now t }
    ensures stand { OnOk result (All (StepStands bank.now) steps.new.items) }
    ensures makes { OnOk result (stack_of bank.now steps.new.items ≡ term_at bank.now t ∷ stack_of bank.now steps.old.items) }
{
    put_leaf(bank, steps, Leaf::Known(t))
}

/// Puts the call of a function, of so many of the last terms, in their place.
pub fn put_call(bank: &Bank, steps: &mut Vec<Step>, f: Sym, count: u64) -> Result<(), AllocError>
    requires steps { All (StepStands bank.now) steps.old.items }
    requires function { IsNamed bank.now f }
    ensures stand { OnOk result (All (StepStands bank.now) steps.new.items) }
    ensures makes { OnOk result (stack_of bank.now steps.new.items ≡ called (text_at bank.now f) count (stack_of bank.now steps.old.items)) }
{
    put(bank, steps, Step::Call(f, count))
}

/// Puts the call of a ground function, of so many of the last terms, in their place.
pub fn put_ground(
    bank: &Bank,
    steps: &mut Vec<Step>,
    known: Sym,
    count: u64,
) -> Result<(), AllocError>
    requires steps { All (StepStands bank.now) steps.old.items }
    requires known { known.0 < ground_count }
    ensures stand { OnOk result (All (StepStands bank.now) steps.new.items) }
    ensures makes { OnOk result (stack_of bank.now steps.new.items ≡ called (ground_text known) count (stack_of bank.now steps.old.items)) }
{
    let f = ground_name(bank, known);
    put_call(bank, steps, f, count)
}

/// Joins the last two terms, so many times.
fn put_times(bank: &Bank, steps: &mut Vec<Step>, known: Sym, times: u64) -> Result<(), AllocError>
    requires steps { All (StepStands bank.now) steps.old.items }
    requires known { known.0 < ground_count }
    ensures stand { OnOk result (All (StepStands bank.now) steps.new.items) }
    ensures makes { OnOk result (stack_of bank.now steps.new.items ≡ called_times (ground_text known) times (stack_of bank.now steps.old.items)) }
{
    for done in 0..times {
        put_ground(bank, steps, known, 2)?;
    }
    Ok(())
}

/// Joins the last terms to the right, or puts a constant where they are none.
pub fn put_joined(
    bank: &Bank,
    steps: &mut Vec<Step>,
    known: Sym,
    none: Sym,
    count: u64,
) -> Result<(), AllocError>
    requires steps { All (StepStands bank.now) steps.old.items }
    requires known { known.0 < ground_count }
    requires none { none.0 < ground_count }
    ensures stand { OnOk result (All (StepStands bank.now) steps.new.items) }
    ensures makes { (ts rest : List Term) → length ts ≡ count → stack_of bank.now steps.old.items ≡ pushed ts rest → OnOk result (stack_of bank.now steps.new.items ≡ nest (ground_text known) (call (ground_text none) []) ts ∷ rest) }
{
    if count == 0 {
        put_ground(bank, steps, none, 0)
    } else {
        put_times(bank, steps, known, count - 1)
    }
}
