//! Rewriting by rows of the tables of axioms whose other literals are known to be false.
ghost use Rattle.std.specs.Prelude.{◌≡◌, All, IfOk, IfSome, Err};
ghost use Rattle.nq_bank.specs.Content.{IsNamed, term_at, terms_at};
ghost use Rattle.nq_history.specs.Events.{events_at};
ghost use Rattle.nq_kernel.specs.Growing.{WorkGrows, WorkStands};
ghost use Rattle.nq_lines.specs.Lines.{IsTermIn};
ghost use Rattle.nq_lines.specs.OwnTerms.{HasOwnTerms};
ghost use Rattle.nq_reduce.specs.Clauses.{AreLiterals, LineIsIn};
ghost use Rattle.nq_reduce.specs.Held.{IsHeld};
ghost use Rattle.nq_reduce.specs.Rewriting.{CanRewrite, IsRewritten};

use crate::clauses::{first_of, last_of, literals_of, matched_line, row_of};
use crate::dropping::kept_alone;
use crate::held::rewritten_by;
use crate::results::{Rewritten, unchanged};
use nq_bank::{Sym, TermId};
use nq_history::History;
use nq_kernel::{Stop, Work};
use nq_lines::Fact;

/// Which literal of a row rewrites a term.
#[derive(Clone, Copy, Debug, PartialEq, Eq)]
pub enum Chosen {
    /// The first.
    First,
    /// The last.
    Last,
}

/// The chosen one of some literals.
fn chosen_of(work: &Work, history: &History, literals: &[TermId], chosen: Chosen) -> Option<TermId>
    requires { All (IsTermIn history.now work.now) literals.now }
    ensures { IfSome result (IsTermIn history.now work.now) }
{
    match chosen {
        Chosen::First => first_of(work, history, literals),
        Chosen::Last => last_of(work, history, literals),
    }
}

/// Adds the instance of a row whose chosen literal has this term as its left side, if there is one.
pub fn row_instance(
    work: &mut Work,
    history: &History,
    name: Sym,
    row: u64,
    part: u64,
    chosen: Chosen,
    t: TermId,
) -> Result<Option<u64>, Stop>
    requires stands { WorkStands history.now work.old }
    requires ready { HasOwnTerms (events_at work.old.bank history.now) }
    requires name { IsNamed work.old.bank name }
    requires term { IsTermIn history.now work.old t }
    ensures line { IfOk result (λ found. IfSome found (LineIsIn history.now work.new)) }
    ensures grows { WorkGrows history.now work.old work.new }
    ensures out { result ≡ Err Stop.OutOfSteps → work.new.counter.used ≡ work.new.counter.limit }
{
    match row_of(work, history, name, row, part)? {
        Some(line) => line_instance(work, history, line, chosen, t),
        None => Ok(None),
    }
}

/// The same, by the line of the row.
fn line_instance(
    work: &mut Work,
    history: &History,
    line: u64,
    chosen: Chosen,
    t: TermId,
) -> Result<Option<u64>, Stop>
    requires stands { WorkStands history.now work.old }
    requires line { LineIsIn history.now work.old line }
    requires term { IsTermIn history.now work.old t }
    ensures line { IfOk result (λ found. IfSome found (LineIsIn history.now work.new)) }
    ensures grows { WorkGrows history.now work.old work.new }
    ensures out { result ≡ Err Stop.OutOfSteps → work.new.counter.used ≡ work.new.counter.limit }
{
    let literals = literals_of(work, history, line)?;
    match chosen_of(work, history, literals.as_slice(), chosen) {
        Some(literal) => matched_line(work, history, line, literal, t),
        None => Ok(None),
    }
}

/// What a row makes of a term: its chosen literal is an equation whose left side is the term, or the NOT of the term, and each
/// other literal is known to be false.
pub fn by_row(
    work: &mut Work,
    history: &History,
    assumed: &[TermId],
    name: Sym,
    row: u64,
    part: u64,
    chosen: Chosen,
    t: TermId,
) -> Result<Rewritten, Stop>
    requires can { CanRewrite history.now work.old assumed.now t }
    requires name { IsNamed work.old.bank name }
    ensures ok { IfOk result (λ r. IsRewritten history.now work.new (terms_at work.old.bank assumed.now) (term_at work.old.bank t) r) }
    ensures grows { WorkGrows history.now work.old work.new }
    ensures out { result ≡ Err Stop.OutOfSteps → work.new.counter.used ≡ work.new.counter.limit }
{
    match row_instance(work, history, name, row, part, chosen, t)? {
        Some(line) => by_instance(work, history, assumed, line, chosen, t),
        None => Ok(unchanged(t)),
    }
}

/// What an instance of a row makes of a term.
fn by_instance(
    work: &mut Work,
    history: &History,
    assumed: &[TermId],
    line: u64,
    chosen: Chosen,
    t: TermId,
) -> Result<Rewritten, Stop>
    requires can { CanRewrite history.now work.old assumed.now t }
    requires line { LineIsIn history.now work.old line }
    ensures ok { IfOk result (λ r. IsRewritten history.now work.new (terms_at work.old.bank assumed.now) (term_at work.old.bank t) r) }
    ensures grows { WorkGrows history.now work.old work.new }
    ensures out { result ≡ Err Stop.OutOfSteps → work.new.counter.used ≡ work.new.counter.limit }
{
    match shown_by(work, history, assumed, line, chosen, t)? {
        Some(fact) => rewritten_by(work, history, assumed, fact, t),
        None => Ok(unchanged(t)),
    }
}

/// The chosen literal of a line, where each other one is known to be false.
pub fn shown_by(
    work: &mut Work,
    history: &History,
    assumed: &[TermId],
    line: u64,
    chosen: Chosen,
    t: TermId,
) -> Result<Option<Fact>, Stop>
    requires can { CanRewrite history.now work.old assumed.now t }
    requires line { LineIsIn history.now work.old line }
    ensures held { IfOk result (λ found. IfSome found (IsHeld history.now work.new (terms_at work.old.bank assumed.now))) }
    ensures grows { WorkGrows history.now work.old work.new }
    ensures out { result ≡ Err Stop.OutOfSteps → work.new.counter.used ≡ work.new.counter.limit }
{
    let literals = literals_of(work, history, line)?;
    shown_among(work, history, assumed, line, literals.as_slice(), chosen, t)
}

/// The same, where its literals are known.
fn shown_among(
    work: &mut Work,
    history: &History,
    assumed: &[TermId],
    line: u64,
    literals: &[TermId],
    chosen: Chosen,
    t: TermId,
) -> Result<Option<Fact>, Stop>
    requires can { CanRewrite history.now work.old assumed.now t }
    requires literals { AreLiterals history.now work.old line literals.now }
    ensures held { IfOk result (λ found. IfSome found (IsHeld history.now work.new (terms_at work.old.bank assumed.now))) }
    ensures grows { WorkGrows history.now work.old work.new }
    ensures out { result ≡ Err Stop.OutOfSteps → work.new.counter.used ≡ work.new.counter.limit }
{
    match chosen_of(work, history, literals, chosen) {
        Some(kept) => shown_alone(work, history, assumed, kept, literals, line, t),
        None => Ok(None),
    }
}

/// The same, where the literals are known.
fn shown_alone(
    work: &mut Work,
    history: &History,
    assumed: &[TermId],
    kept: TermId,
    literals: &[TermId],
    line: u64,
    t: TermId,
) -> Result<Option<Fact>, Stop>
    requires can { CanRewrite history.now work.old assumed.now t }
    requires kept { IsTermIn history.now work.old kept }
    requires literals { AreLiterals history.now work.old line literals.now }
    ensures held { IfOk result (λ found. IfSome found (IsHeld history.now work.new (terms_at work.old.bank assumed.now))) }
    ensures grows { WorkGrows history.now work.old work.new }
    ensures out { result ≡ Err Stop.OutOfSteps → work.new.counter.used ≡ work.new.counter.limit }
{
    match kept_alone(work, history, assumed, kept, literals, line)? {
        Some(n) => Ok(Some(Fact {
            term: kept,
            line: n,
        })),
        None => Ok(None),
    }
}
