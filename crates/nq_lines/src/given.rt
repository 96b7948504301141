//! Axioms, lemmas, and rows of the tables of axioms as lines.
ghost use Rattle.std.specs.Prelude.{◌≡◌, IfOk, IfSome, IsSome, IsTrue, Err, Some};
ghost use Rattle.nq_bank.specs.Content.{IsNamed, Stands, term_at, text_at};
ghost use Rattle.nq_proof.specs.Rules.{event_term};
ghost use Rattle.nq_history.specs.Events.{events_at};
ghost use Rattle.nq_proof.specs.Rows.{axiom_clause};
ghost use Rattle.nq_kernel.specs.Growing.{WorkGrows, WorkStands};
ghost use Rattle.nq_lines.specs.Facts.{IsFact};
ghost use Rattle.nq_lines.specs.OwnTerms.{HasOwnTerms};

use crate::facts::{Fact, literal_of};
use crate::instances::{event_line, row_line};
use nq_bank::{Sym, TermId};
use nq_history::History;
use nq_kernel::{Rule, Stop, Work};

/// Adds the line of the axiom or lemma of a name, if there is one.
pub fn event_fact(work: &mut Work, history: &History, name: Sym) -> Result<Option<Fact>, Stop>
    requires stands { WorkStands history.now work.old }
    requires ready { HasOwnTerms (events_at work.old.bank history.now) }
    requires name { IsNamed work.old.bank name }
    ensures fact { IfOk result (λ found. IfSome found (IsFact history.now work.new)) }
    ensures grows { WorkGrows history.now work.old work.new }
    ensures out { result ≡ Err Stop.OutOfSteps → work.new.counter.used ≡ work.new.counter.limit }
{
    match history.term_of(&work.bank, name) {
        Some(t) => named_fact(work, history, name, t),
        None => Ok(None),
    }
}

/// The same, where the term is known.
fn named_fact(
    work: &mut Work,
    history: &History,
    name: Sym,
    t: TermId,
) -> Result<Option<Fact>, Stop>
    requires stands { WorkStands history.now work.old }
    requires ready { HasOwnTerms (events_at work.old.bank history.now) }
    requires name { IsNamed work.old.bank name }
    requires term { Stands work.old.bank t }
    requires event { event_term (text_at work.old.bank name) (events_at work.old.bank history.now) ≡ Some (term_at work.old.bank t) }
    ensures fact { IfOk result (λ found. IfSome found (IsFact history.now work.new)) }
    ensures grows { WorkGrows history.now work.old work.new }
    ensures out { result ≡ Err Stop.OutOfSteps → work.new.counter.used ≡ work.new.counter.limit }
{
    let line = event_line(work, history, name)?;
    Ok(Some(Fact { term: t, line }))
}

/// Adds the line of row 1 of a name in the tables of axioms, if there is one and it has one literal. Of a defined function it
/// is the equation of its call and its body.
pub fn row_fact(work: &mut Work, history: &History, name: Sym) -> Result<Option<Fact>, Stop>
    requires stands { WorkStands history.now work.old }
    requires ready { HasOwnTerms (events_at work.old.bank history.now) }
    requires name { IsNamed work.old.bank name }
    ensures fact { IfOk result (λ found. IfSome found (IsFact history.now work.new)) }
    ensures grows { WorkGrows history.now work.old work.new }
    ensures out { result ≡ Err Stop.OutOfSteps → work.new.counter.used ≡ work.new.counter.limit }
{
    if has_row(work, history, name)? {
        found_row(work, history, name)
    } else {
        Ok(None)
    }
}

/// Is there a row 1 of a name in the tables of axioms?
fn has_row(work: &Work, history: &History, name: Sym) -> Result<bool, Stop>
    requires stands { WorkStands history.now work.now }
    requires name { IsNamed work.now.bank name }
    ensures row { IfOk result (λ b. IsTrue b → IsSome (axiom_clause (events_at work.now.bank history.now) (text_at work.now.bank name) 1 0)) }
    ensures memory { result ≡ Err Stop.OutOfSteps → ⊥ }
{
    let rule = Rule::AxiomRow(name, 1, 0);
    match work.log.allowed(&work.bank, history, &rule) {
        Ok(found) => Ok(found),
        Err(_) => Err(Stop::Memory),
    }
}

/// The same, where there is such a row.
fn found_row(work: &mut Work, history: &History, name: Sym) -> Result<Option<Fact>, Stop>
    requires stands { WorkStands history.now work.old }
    requires ready { HasOwnTerms (events_at work.old.bank history.now) }
    requires name { IsNamed work.old.bank name }
    requires axiom { IsSome (axiom_clause (events_at work.old.bank history.now) (text_at work.old.bank name) 1 0) }
    ensures fact { IfOk result (λ found. IfSome found (IsFact history.now work.new)) }
    ensures grows { WorkGrows history.now work.old work.new }
    ensures out { result ≡ Err Stop.OutOfSteps → work.new.counter.used ≡ work.new.counter.limit }
{
    let line = row_line(work, history, name, 1, 0)?;
    match literal_of(work, history, line) {
        Some(t) => Ok(Some(Fact { term: t, line })),
        None => Ok(None),
    }
}
