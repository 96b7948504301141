//! The instance of the rule of a shell, of a variable.
ghost use Rattle.std.specs.Prelude.{◌≡◌, ◌∷◌, [], true, All, IfOk, Err, Some, codes, map};
ghost use Rattle.nq_logic.specs.Shells.{accessed};
ghost use Rattle.nq_logic.specs.ShellPrinciple.{shells_of};
ghost use Rattle.nq_logic.specs.Terms.{IsAmong, Variable, substituted};
ghost use Rattle.nq_logic.specs.Words.{equal_term, not_term};
ghost use Rattle.nq_bank.specs.Content.{IsNamed, Stands, term_at, terms_at, text_at};
ghost use Rattle.nq_bank.specs.Shells.{PartStands, ShellStands, parts_at, shell_at};
ghost use Rattle.nq_history.specs.Events.{events_at};
ghost use Rattle.nq_goals.specs.Eliminating.{has_parts};
ghost use Rattle.nq_kernel.specs.Growing.{WorkStands, WorkGrows};
ghost use Rattle.nq_kernel.specs.Over.{IsVariable};
ghost use Rattle.nq_kernel.specs.Ready.{IsReady};
ghost use Rattle.nq_lines.specs.Lines.{IsTermIn, LineHasOnly};
ghost use Rattle.nq_proof.specs.Rows.{axiom_clause};
ghost use Rattle.nq_eliminate.specs.Instances.{IsInstance};
ghost use Rattle.nq_eliminate.specs.Made.{IsBaseEquation, IsMade, IsShellOver, hypotheses_on, made_on, made_row};
ghost use Rattle.nq_eliminate.specs.Shells.{eliminating_by};

use crate::instances::Instance;
use crate::literals::{copied, push_id};
use nq_bank::{Part, Shell, Sym, TermId};
use nq_clause::Pair;
use nq_history::History;
use nq_kernel::{Stop, Work};
use nq_lines::{axiom_row, deny, deny_twice, equate, symbol};
use nq_moves::{distinct_clause, variable_id};
use nq_ready::own_terms;
use std::alloc::Global;

/// The row that says that an object is made of its parts.
const MADE_OF_PARTS: u64 = 5;

/// A variable, and what it is made of.
#[derive(Drop)]
pub struct Made {
    /// The variable.
    pub variable: TermId,
    /// The calls of the accessors on it.
    pub calls: Vec<TermId>,
    /// The call of the constructor on these.
    pub whole: TermId,
}

/// The calls of the accessors of parts on a term.
fn calls_on(
    work: &mut Work,
    history: &History,
    parts: &[Part],
    t: TermId,
) -> Result<Vec<TermId>, Stop>
    requires stands { WorkStands history.now work.old }
    requires parts { All (PartStands work.old.bank) parts.now }
    requires term { Stands work.old.bank t }
    ensures calls { IfOk result (λ v. terms_at work.new.bank v.items ≡ accessed (term_at work.old.bank t) (parts_at work.old.bank parts.now)) }
    ensures stand { IfOk result (λ v. All (Stands work.new.bank) v.items) }
    ensures grows { WorkGrows history.now work.old work.new }
    ensures out { result ≡ Err Stop.OutOfSteps → work.new.counter.used ≡ work.new.counter.limit }
{
    let mut calls = Vec::new(work.bank.alloc());
    for part in parts {
        let call = work.app(history, part.accessor, &[t])?;
        push_id(&mut calls, call)?;
    }
    Ok(calls)
}

/// A variable, and what it is made of by a shell.
fn made_by(work: &mut Work, history: &History, shell: &Shell, name: Sym) -> Result<Made, Stop>
    requires stands { WorkStands history.now work.old }
    requires shell { ShellStands work.old.bank shell.now }
    requires name { IsNamed work.old.bank name }
    ensures made { IfOk result (IsMade history.now work.new (shell_at work.old.bank shell.now) (text_at work.old.bank name)) }
    ensures grows { WorkGrows history.now work.old work.new }
    ensures out { result ≡ Err Stop.OutOfSteps → work.new.counter.used ≡ work.new.counter.limit }
{
    let variable = variable_id(work, history, name)?;
    let calls = calls_on(work, history, shell.parts.as_slice(), variable)?;
    let whole = work.app(history, shell.constructor, calls.as_slice())?;
    Ok(Made {
        variable,
        calls,
        whole,
    })
}

/// The equation of a term and the base of a shell, if it has one.
fn base_equation(
    work: &mut Work,
    history: &History,
    shell: &Shell,
    t: TermId,
) -> Result<Option<TermId>, Stop>
    requires stands { WorkStands history.now work.old }
    requires shell { ShellStands work.old.bank shell.now }
    requires term { IsTermIn history.now work.old t }
    requires over { IsShellOver (events_at work.old.bank history.now) (shell_at work.old.bank shell.now) (term_at work.old.bank t) }
    ensures equation { IfOk result (IsBaseEquation history.now work.new (term_at work.old.bank t) (shell_at work.old.bank shell.now).base) }
    ensures grows { WorkGrows history.now work.old work.new }
    ensures out { result ≡ Err Stop.OutOfSteps → work.new.counter.used ≡ work.new.counter.limit }
{
    match shell.base {
        Some(name) => {
            let base = work.app(history, name, &[])?;
            let equation = equate(work, history, t, base)?;
            Ok(Some(equation))
        }
        None => Ok(None),
    }
}

/// The hypotheses of the rule of a shell: what its recognizer says of a term, and the NOT of the equation with the base.
fn hypotheses_of(
    work: &mut Work,
    history: &History,
    shell: &Shell,
    t: TermId,
    base: Option<TermId>,
) -> Result<Vec<TermId>, Stop>
    requires stands { WorkStands history.now work.old }
    requires shell { ShellStands work.old.bank shell.now }
    requires term { IsTermIn history.now work.old t }
    requires over { IsShellOver (events_at work.old.bank history.now) (shell_at work.old.bank shell.now) (term_at work.old.bank t) }
    requires base { IsBaseEquation history.now work.old (term_at work.old.bank t) (shell_at work.old.bank shell.now).base base }
    ensures hypotheses { IfOk result (λ v. terms_at work.new.bank v.items ≡ hypotheses_on (term_at work.old.bank t) (shell_at work.old.bank shell.now)) }
    ensures over { IfOk result (λ v. All (IsTermIn history.now work.new) v.items) }
    ensures grows { WorkGrows history.now work.old work.new }
    ensures out { result ≡ Err Stop.OutOfSteps → work.new.counter.used ≡ work.new.counter.limit }
{
    let recognized = work.app(history, shell.recognizer, &[t])?;
    match base {
        Some(equation) => {
            let denied = deny(work, history, equation)?;
            copied(work.bank.alloc(), &[recognized, denied])
        }
        None => copied(work.bank.alloc(), &[recognized]),
    }
}

/// Pairs of one.
fn one_pair(alloc: Global, pair: Pair) -> Result<Vec<Pair>, Stop>
    ensures ok { IfOk result (λ v. v.items ≡ pair ∷ []) }
    ensures memory { result ≡ Err Stop.OutOfSteps → ⊥ }
{
    match Vec::from_slice(alloc, &[pair]) {
        Ok(v) => Ok(v),
        Err(_) => Err(Stop::Memory),
    }
}

/// Adds the row of a shell that says that an object is made of its parts, about a term.
fn row_about(work: &mut Work, history: &History, shell: &Shell, t: TermId) -> Result<u64, Stop>
    requires stands { WorkStands history.now work.old }
    requires shell { ShellStands work.old.bank shell.now }
    requires row { axiom_clause (events_at work.old.bank history.now) (text_at work.old.bank shell.now.constructor) 5 0 ≡ Some (made_row (shell_at work.old.bank shell.now)) }
    requires term { IsTermIn history.now work.old t }
    ensures line { IfOk result (λ n. LineHasOnly work.new n (map (substituted ((codes "X", term_at work.old.bank t) ∷ [])) (made_row (shell_at work.old.bank shell.now)))) }
    ensures grows { WorkGrows history.now work.old work.new }
    ensures out { result ≡ Err Stop.OutOfSteps → work.new.counter.used ≡ work.new.counter.limit }
{
    let variable = symbol(work, history, b"X")?;
    let pairs = one_pair(work.bank.alloc(), Pair { variable, term: t })?;
    axiom_row(work, history, shell.constructor, MADE_OF_PARTS, 0, pairs)
}

/// Adds the line that says that a term is made of its parts, under the hypotheses of the rule of a shell.
fn rule_line(
    work: &mut Work,
    history: &History,
    shell: &Shell,
    t: TermId,
    base: Option<TermId>,
) -> Result<u64, Stop>
    requires stands { WorkStands history.now work.old }
    requires shell { ShellStands work.old.bank shell.now }
    requires row { axiom_clause (events_at work.old.bank history.now) (text_at work.old.bank shell.now.constructor) 5 0 ≡ Some (made_row (shell_at work.old.bank shell.now)) }
    requires term { IsTermIn history.now work.old t }
    requires base { IsBaseEquation history.now work.old (term_at work.old.bank t) (shell_at work.old.bank shell.now).base base }
    ensures line { IfOk result (λ n. LineHasOnly work.new n (equal_term (made_on (term_at work.old.bank t) (shell_at work.old.bank shell.now)) (term_at work.old.bank t) ∷ map not_term (hypotheses_on (term_at work.old.bank t) (shell_at work.old.bank shell.now)))) }
    ensures grows { WorkGrows history.now work.old work.new }
    ensures out { result ≡ Err Stop.OutOfSteps → work.new.counter.used ≡ work.new.counter.limit }
{
    let line = row_about(work, history, shell, t)?;
    match base {
        Some(equation) => deny_twice(work, history, equation, line),
        None => Ok(line),
    }
}

/// The instance of the rule of a shell, of a variable and what it is made of.
fn with_rule(
    work: &mut Work,
    history: &History,
    shell: &Shell,
    name: Sym,
    made: Made,
) -> Result<Instance, Stop>
    requires stands { WorkStands history.now work.old }
    requires shell { ShellStands work.old.bank shell.now }
    requires row { axiom_clause (events_at work.old.bank history.now) (text_at work.old.bank shell.now.constructor) 5 0 ≡ Some (made_row (shell_at work.old.bank shell.now)) }
    requires name { IsNamed work.old.bank name }
    requires plain { IsVariable (text_at work.old.bank name) }
    requires parts { has_parts (map (λ part. part.accessor) (shell_at work.old.bank shell.now).parts) ≡ true }
    requires over { IsShellOver (events_at work.old.bank history.now) (shell_at work.old.bank shell.now) (Variable (text_at work.old.bank name)) }
    requires made { IsMade history.now work.old (shell_at work.old.bank shell.now) (text_at work.old.bank name) made }
    ensures instance { IfOk result (IsInstance history.now work.new (eliminating_by (shell_at work.old.bank shell.now) (text_at work.old.bank name))) }
    ensures grows { WorkGrows history.now work.old work.new }
    ensures out { result ≡ Err Stop.OutOfSteps → work.new.counter.used ≡ work.new.counter.limit }
{
    let Made {
        variable,
        calls,
        whole,
    } = made;
    let base = base_equation(work, history, shell, variable)?;
    let hypotheses = hypotheses_of(work, history, shell, variable, base)?;
    let line = rule_line(work, history, shell, variable, base)?;
    let calls = distinct_clause(&work.bank, calls.as_slice())?;
    let others = Vec::new(work.bank.alloc());
    Ok(Instance {
        name,
        variable,
        others,
        whole,
        calls,
        hypotheses,
        line,
    })
}

/// The instance of the rule of a shell, of a variable.
pub fn shell_instance(
    work: &mut Work,
    history: &History,
    shell: &Shell,
    name: Sym,
) -> Result<Instance, Stop>
    requires stands { WorkStands history.now work.old }
    requires ready { IsReady (events_at work.old.bank history.now) }
    requires shell { ShellStands work.old.bank shell.now }
    requires among { IsAmong (shell_at work.old.bank shell.now) (shells_of (events_at work.old.bank history.now)) }
    requires parts { has_parts (map (λ part. part.accessor) (shell_at work.old.bank shell.now).parts) ≡ true }
    requires name { IsNamed work.old.bank name }
    requires plain { IsVariable (text_at work.old.bank name) }
    ensures instance { IfOk result (IsInstance history.now work.new (eliminating_by (shell_at work.old.bank shell.now) (text_at work.old.bank name))) }
    ensures grows { WorkGrows history.now work.old work.new }
    ensures out { result ≡ Err Stop.OutOfSteps → work.new.counter.used ≡ work.new.counter.limit }
{
    own_terms();
    let made = made_by(work, history, shell, name)?;
    with_rule(work, history, shell, name, made)
}
