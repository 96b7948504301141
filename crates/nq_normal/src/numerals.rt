//! Whether numerals hold calls that suggest an induction. No numeral does where ADD1 and ZERO have no definition, but nothing
//! here supposes that.
ghost use Rattle.std.specs.Prelude.{◌≡◌, ◌∷◌, [], codes, IfOk, None, Some, ℕ};
ghost use Rattle.nq_logic.specs.Words.{numeral};
ghost use Rattle.nq_history.specs.Events.{events_at, HistoryStands};
ghost use Rattle.nq_events.specs.Inductions.{definition_if, suggests_by, suggests_of};
ghost use Rattle.nq_bank.specs.Content.{term_at, Stands};
ghost use Rattle.nq_normal.specs.Definitions.{definition_at, DefinitionStands};
ghost use Rattle.nq_normal.specs.Suggesting.{NumeralsSuggest};

use crate::barred::is_either;
use crate::definitions::{Definition, definition_of};
use nq_bank::{Bank, TermId, ground};
use nq_clause::occurs_in;
use nq_history::History;
use std::alloc::AllocError;

/// Which numerals hold a call that suggests an induction.
#[derive(Clone, Copy)]
pub struct Numerals {
    /// Whether 0 does.
    pub zero: bool,
    /// Whether each other numeral does.
    pub others: bool,
}

/// Does a call on a numeral suggest an induction by this measure of its function? The numeral is no variable, so it does only
/// where the measure is without the formal.
fn suggests_by_measure(
    bank: &Bank,
    definition: Definition,
    measure: TermId,
) -> Result<bool, AllocError>
    requires definition { DefinitionStands bank.now definition }
    requires measure { Stands bank.now measure }
    ensures { IfOk result (λ answer. (n : ℕ) → answer ≡ suggests_by (definition_at bank.now definition.entry) (Some (term_at bank.now measure)) (numeral n ∷ [])) }
{
    match definition.formals {
        [] => Ok(true),
        [first, ..] => {
            let stands = occurs_in(bank, *first, measure)?;
            Ok(!stands)
        }
    }
}

/// Does a call of this function on a numeral suggest an induction?
fn suggests_on_numeral(bank: &Bank, definition: Definition) -> Result<bool, AllocError>
    requires { DefinitionStands bank.now definition }
    ensures { IfOk result (λ answer. (n : ℕ) → answer ≡ suggests_of (Some (definition_at bank.now definition.entry)) (numeral n ∷ [])) }
{
    match definition.measure {
        Some(measure) => {
            let answer = suggests_by_measure(bank, definition, measure)?;
            Ok(answer)
        }
        None => Ok(false),
    }
}

/// Does ADD1 of a numeral suggest an induction?
fn successor_suggests(bank: &Bank, history: &History) -> Result<bool, AllocError>
    requires { HistoryStands bank.now history.now }
    ensures { IfOk result (λ answer. (n : ℕ) → answer ≡ suggests_of (definition_if (events_at bank.now history.now) (Some (codes "ADD1"))) (numeral n ∷ [])) }
{
    bank.is_sound();
    match definition_of(bank, history, ground::ADD1) {
        Some(definition) => {
            let answer = suggests_on_numeral(bank, definition)?;
            Ok(answer)
        }
        None => Ok(false),
    }
}

/// Does a call of this function without arguments suggest an induction? It does where the function has a measure.
fn suggests_alone(bank: &Bank, definition: Definition) -> bool
    ensures { result ≡ suggests_of (Some (definition_at bank.now definition.entry)) [] }
{
    match definition.measure {
        Some(_) => true,
        None => false,
    }
}

/// Does ZERO suggest an induction?
fn zero_suggests(bank: &Bank, history: &History) -> bool
    requires { HistoryStands bank.now history.now }
    ensures { result ≡ suggests_of (definition_if (events_at bank.now history.now) (Some (codes "ZERO"))) [] }
{
    bank.is_sound();
    match definition_of(bank, history, ground::ZERO) {
        Some(definition) => suggests_alone(bank, definition),
        None => false,
    }
}

/// Which numerals hold a call that suggests an induction?
pub fn suggesting_numerals(bank: &Bank, history: &History) -> Result<Numerals, AllocError>
    requires { HistoryStands bank.now history.now }
    ensures { IfOk result (NumeralsSuggest (events_at bank.now history.now)) }
{
    let zero = zero_suggests(bank, history);
    let successor = successor_suggests(bank, history)?;
    let others = is_either(successor, zero);
    Ok(Numerals { zero, others })
}
