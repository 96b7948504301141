//! Lines that open a connective over the variables P and Q.
ghost use Rattle.std.specs.Prelude.{◌≡◌, ◌∷◌, [], IfOk, IsTrue};
ghost use Rattle.nq_logic.specs.Terms.{Variable};
ghost use Rattle.nq_logic.specs.Words.{not_term, equal_term};
ghost use Rattle.nq_logic.specs.Ground.{p_term, q_term};
ghost use Rattle.nq_logtext.specs.Symbols.{is_symbol};
ghost use Rattle.nq_bank.specs.Content.{NamesText, IsIdOf, Stands};
ghost use Rattle.nq_proof.specs.Clauses.{distinct};
ghost use Rattle.nq_proof.specs.Rows.{opening};
ghost use Rattle.nq_kernel.specs.Meaning.{IsOver};
ghost use Rattle.nq_kernel.specs.Growing.{WorkStands, LineHolds};
ghost use Rattle.nq_quick.specs.Lines.{GrowsUncounted, LineHasOnly, signed, denial, definition_of};
ghost use Rattle.nq_quick.specs.Patterns.{pattern_term, IsPattern, IsOpening};

use crate::lines::{add_cut, add_either, add_line, ground_call};
use crate::rows::{add_opening, name_of};
use nq_bank::{Sym, TermId};
use nq_fragments::Connective;
use nq_history::History;
use nq_kernel::{Rule, Work};
use nq_rule::Side;
use std::alloc::AllocError;

/// A connective of two terms, each of which is true or false.
#[derive(Clone, Copy)]
pub struct Case {
    /// The connective.
    pub connective: Connective,
    /// The truth of the left side.
    pub left: bool,
    /// The truth of the right side.
    pub right: bool,
}

/// The variables P and Q, and a connective of them.
#[derive(Clone, Copy)]
pub struct Pattern {
    /// P.
    pub left: TermId,
    /// Q.
    pub right: TermId,
    /// The connective of them.
    pub whole: TermId,
}

/// The line of a connective's opening.
#[derive(Clone, Copy)]
pub struct Opening {
    /// The line.
    pub line: u64,
    /// Its equation.
    pub equation: TermId,
    /// The body of the connective's definition.
    pub body: TermId,
}

/// The symbol of a text in upper case.
pub fn symbol(work: &mut Work, history: &History, text: &[u8]) -> Result<Sym, AllocError>
    requires stands { WorkStands history.now work.old }
    requires symbol { IsTrue (is_symbol text.now) }
    ensures name { IfOk result (λ s. NamesText work.new.bank s text.now) }
    ensures grows { GrowsUncounted history.now work.old work.new }
{
    work.bank.name(text)
}

/// The variable of a text.
fn variable(work: &mut Work, history: &History, text: &[u8]) -> Result<TermId, AllocError>
    requires stands { WorkStands history.now work.old }
    requires symbol { IsTrue (is_symbol text.now) }
    ensures term { IfOk result (λ t. IsIdOf work.new.bank t (Variable text.now)) }
    ensures grows { GrowsUncounted history.now work.old work.new }
{
    let s = symbol(work, history, text)?;
    variable_of(work, history, s, text)
}

/// The variable of a symbol.
fn variable_of(
    work: &mut Work,
    history: &History,
    s: Sym,
    text: &[u8],
) -> Result<TermId, AllocError>
    requires stands { WorkStands history.now work.old }
    requires name { NamesText work.old.bank s text.now }
    ensures term { IfOk result (λ t. IsIdOf work.new.bank t (Variable text.now)) }
    ensures grows { GrowsUncounted history.now work.old work.new }
{
    work.bank.var(s)
}

/// Makes P, Q and a connective of them.
pub fn pattern_of(
    work: &mut Work,
    history: &History,
    connective: Connective,
) -> Result<Pattern, AllocError>
    requires { WorkStands history.now work.old }
    ensures pattern { IfOk result (λ pattern. IsPattern work.new.bank connective pattern) }
    ensures grows { GrowsUncounted history.now work.old work.new }
{
    let left = variable(work, history, b"P")?;
    let right = variable(work, history, b"Q")?;
    let whole = connect(work, history, connective, left, right)?;
    Ok(Pattern { left, right, whole })
}

/// Makes the connective of P and Q.
fn connect(
    work: &mut Work,
    history: &History,
    connective: Connective,
    left: TermId,
    right: TermId,
) -> Result<TermId, AllocError>
    requires stands { WorkStands history.now work.old }
    requires left { IsIdOf work.old.bank left p_term }
    requires right { IsIdOf work.old.bank right q_term }
    ensures whole { IfOk result (λ t. IsIdOf work.new.bank t (pattern_term connective)) }
    ensures grows { GrowsUncounted history.now work.old work.new }
{
    ground_call(work, history, name_of(connective), &[left, right])
}

/// Adds the line of a connective's opening, and tells what stands in it.
pub fn open(
    work: &mut Work,
    history: &History,
    connective: Connective,
) -> Result<Opening, AllocError>
    requires { WorkStands history.now work.old }
    ensures opening { IfOk result (λ opened. IsOpening work.new connective opened) }
    ensures grows { GrowsUncounted history.now work.old work.new }
{
    let line = add_opening(work, history, connective)?;
    Ok(opening_at(work, connective, line))
}

/// What stands in the line of a connective's opening.
fn opening_at(work: &Work, connective: Connective, line: u64) -> Opening
    requires log { IsOver work.now.bank work.now.log }
    requires line { LineHolds work.now line (opening (definition_of connective)) }
    ensures { IsOpening work.now connective result }
{
    let equation = work.log.clause_over(&work.bank, line)[0];
    let body = work.bank.args(equation)[1];
    Opening {
        line,
        equation,
        body,
    }
}

/// Adds the line that a connective of P and Q is true, or false, where the body of its definition is.
pub fn add_folding(
    work: &mut Work,
    history: &History,
    connective: Connective,
    value: bool,
    whole: TermId,
    opened: Opening,
) -> Result<u64, AllocError>
    requires stands { WorkStands history.now work.old }
    requires whole { IsIdOf work.old.bank whole (pattern_term connective) }
    requires opened { IsOpening work.old connective opened }
    ensures line { IfOk result (λ n. LineHasOnly work.new n (denial value (definition_of connective).body ∷ signed value (pattern_term connective) ∷ [])) }
    ensures grows { GrowsUncounted history.now work.old work.new }
{
    let either = add_either(work, history, whole)?;
    let replaced = add_replaced(work, history, connective, value, either, opened.body)?;
    add_cut(work, history, opened.line, replaced, opened.equation)
}

/// Adds the line of a connective of P and Q and its NOT, with the body of its definition in place of the one that is false
/// where the connective is true or false.
fn add_replaced(
    work: &mut Work,
    history: &History,
    connective: Connective,
    value: bool,
    either: u64,
    body: TermId,
) -> Result<u64, AllocError>
    requires stands { WorkStands history.now work.old }
    requires either { LineHolds work.old either (distinct (pattern_term connective ∷ not_term (pattern_term connective) ∷ [])) }
    requires body { IsIdOf work.old.bank body (definition_of connective).body }
    ensures line { IfOk result (λ n. LineHasOnly work.new n (not_term (equal_term (pattern_term connective) (definition_of connective).body) ∷ denial value (definition_of connective).body ∷ signed value (pattern_term connective) ∷ [])) }
    ensures grows { GrowsUncounted history.now work.old work.new }
{
    if value {
        let path = vec![in work.bank.alloc(); 1]?;
        add_line(
            work,
            history,
            Rule::Replace(either, 2, path, body, Side::Forwards),
        )
    } else {
        let path = Vec::new(work.bank.alloc());
        add_line(
            work,
            history,
            Rule::Replace(either, 1, path, body, Side::Forwards),
        )
    }
}
