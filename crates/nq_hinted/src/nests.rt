//! The nest of a goal, and the line of the goal's literals, once the nest is proved.
ghost use Rattle.std.specs.Prelude.{◌≡◌, ◌∷◌, All, List, IfOk, Err};
ghost use Rattle.nq_logic.specs.Terms.{IsAmong, Term};
ghost use Rattle.nq_logic.specs.Words.{if_term, not_term, true_term};
ghost use Rattle.nq_bank.specs.Content.{Grows, IsIdOf, Stands, term_at, terms_at};
ghost use Rattle.nq_kernel.specs.Growing.{LineStands, WorkGrows, WorkStands};
ghost use Rattle.nq_lines.specs.Lines.{IsTermIn, LineHasOnly};
ghost use Rattle.nq_hinted.specs.Nests.{AreDenials, IsChoice, OpensTo, denied_by, nest};

use nq_bank::{Bank, BankFault, TermId, ground, ground_name};
use nq_history::History;
use nq_kernel::{Stop, Work};
use nq_lines::{argument_at, if_true, opposites, rewrite_literal};
use nq_rule::{Branches, Side, branches_in};

/// Makes the nest of a goal.
#[cycle(nesting)]
pub fn nest_of(bank: &mut Bank, first: TermId, rest: &[TermId]) -> Result<TermId, BankFault>
    requires first { Stands bank.old first }
    requires rest { All (Stands bank.old) rest.now }
    requires denials { AreDenials (term_at bank.old first) (terms_at bank.old rest.now) }
    ensures ok { IfOk result (λ t. IsIdOf bank.new t (nest (term_at bank.old first) (terms_at bank.old rest.now))) }
    ensures grows { Grows bank.old bank.new }
    ensures names { bank.new.names ≡ bank.old.names }
{
    match rest {
        [] => Ok(first),
        [second, more @ ..] => nest_before(bank, first, *second, more),
    }
}

/// Makes the nest of a goal of two literals or more.
#[cycle(nesting)]
fn nest_before(
    bank: &mut Bank,
    first: TermId,
    second: TermId,
    more: &[TermId],
) -> Result<TermId, BankFault>
    requires first { Stands bank.old first }
    requires second { Stands bank.old second }
    requires more { All (Stands bank.old) more.now }
    requires denied { term_at bank.old first ≡ not_term (denied_by (term_at bank.old first)) }
    requires denials { AreDenials (term_at bank.old second) (terms_at bank.old more.now) }
    ensures ok { IfOk result (λ t. IsIdOf bank.new t (nest (term_at bank.old first) (term_at bank.old second ∷ terms_at bank.old more.now))) }
    ensures grows { Grows bank.old bank.new }
    ensures names { bank.new.names ≡ bank.old.names }
{
    let denied = denied_of(bank, first);
    let inner = nest_of(bank, second, more)?;
    choice_of(bank, denied, inner)
}

/// What a NOT denies.
fn denied_of(bank: &Bank, t: TermId) -> TermId
    requires stands { Stands bank.now t }
    requires denied { term_at bank.now t ≡ not_term (denied_by (term_at bank.now t)) }
    ensures { IsIdOf bank.now result (denied_by (term_at bank.now t)) }
{
    argument_at(bank, t, 1)
}

/// Makes the IF of a test and a branch, and of T.
fn choice_of(bank: &mut Bank, test: TermId, branch: TermId) -> Result<TermId, BankFault>
    requires test { Stands bank.old test }
    requires branch { Stands bank.old branch }
    ensures ok { IfOk result (λ t. IsIdOf bank.new t (if_term (term_at bank.old test) (term_at bank.old branch) true_term)) }
    ensures grows { Grows bank.old bank.new }
    ensures names { bank.new.names ≡ bank.old.names }
{
    let name = ground_name(bank, ground::TRUE);
    let truth = bank.app(name, &[])?;
    let name = ground_name(bank, ground::IF);
    bank.app(name, &[test, branch, truth])
}

/// Takes a nest apart: its line becomes that of the goal's literals, or of more.
#[cycle(opening)]
pub fn open_nest(
    work: &mut Work,
    history: &History,
    first: TermId,
    rest: &[TermId],
    whole: TermId,
    line: u64,
) -> Result<u64, Stop>
    requires stands { WorkStands history.now work.old }
    requires line { LineStands work.old line }
    requires first { Stands work.old.bank first }
    requires rest { All (Stands work.old.bank) rest.now }
    requires denials { AreDenials (term_at work.old.bank first) (terms_at work.old.bank rest.now) }
    requires whole { term_at work.old.bank whole ≡ nest (term_at work.old.bank first) (terms_at work.old.bank rest.now) }
    requires over { IsTermIn history.now work.old whole }
    ensures line { IfOk result (λ n. OpensTo work.old work.new (term_at work.old.bank first) (terms_at work.old.bank rest.now) line n) }
    ensures stands { IfOk result (λ n. LineStands work.new n) }
    ensures grows { WorkGrows history.now work.old work.new }
    ensures out { result ≡ Err Stop.OutOfSteps → work.new.counter.used ≡ work.new.counter.limit }
{
    match rest {
        [] => Ok(line),
        [second, more @ ..] => open_before(work, history, first, *second, more, whole, line),
    }
}

/// The same of the nest of two literals or more.
#[cycle(opening)]
fn open_before(
    work: &mut Work,
    history: &History,
    first: TermId,
    second: TermId,
    more: &[TermId],
    whole: TermId,
    line: u64,
) -> Result<u64, Stop>
    requires stands { WorkStands history.now work.old }
    requires line { LineStands work.old line }
    requires first { Stands work.old.bank first }
    requires second { Stands work.old.bank second }
    requires more { All (Stands work.old.bank) more.now }
    requires denied { term_at work.old.bank first ≡ not_term (denied_by (term_at work.old.bank first)) }
    requires denials { AreDenials (term_at work.old.bank second) (terms_at work.old.bank more.now) }
    requires whole { term_at work.old.bank whole ≡ nest (term_at work.old.bank first) (term_at work.old.bank second ∷ terms_at work.old.bank more.now) }
    requires over { IsTermIn history.now work.old whole }
    ensures line { IfOk result (λ n. OpensTo work.old work.new (term_at work.old.bank first) (term_at work.old.bank second ∷ terms_at work.old.bank more.now) line n) }
    ensures stands { IfOk result (λ n. LineStands work.new n) }
    ensures grows { WorkGrows history.now work.old work.new }
    ensures out { result ≡ Err Stop.OutOfSteps → work.new.counter.used ≡ work.new.counter.limit }
{
    let parts = parts_in(work, history, whole);
    let line = open_choice(work, history, whole, parts, line)?;
    open_nest(work, history, second, more, parts.first, line)
}

/// The parts of an IF.
fn parts_in(work: &Work, history: &History, whole: TermId) -> Branches
    requires stands { WorkStands history.now work.now }
    requires over { IsTermIn history.now work.now whole }
    requires choice { IsChoice (term_at work.now.bank whole) }
    ensures whole { term_at work.now.bank whole ≡ if_term (term_at work.now.bank result.test) (term_at work.now.bank result.first) (term_at work.now.bank result.second) }
    ensures test { IsTermIn history.now work.now result.test }
    ensures first { IsTermIn history.now work.now result.first }
    ensures second { IsTermIn history.now work.now result.second }
{
    branches_in(&work.bank, whole).unwrap()
}

/// Takes an IF apart that is its first branch or has a false test: its line becomes that of the branch and of the NOT of the test.
fn open_choice(
    work: &mut Work,
    history: &History,
    whole: TermId,
    parts: Branches,
    line: u64,
) -> Result<u64, Stop>
    requires stands { WorkStands history.now work.old }
    requires line { LineStands work.old line }
    requires whole { term_at work.old.bank whole ≡ if_term (term_at work.old.bank parts.test) (term_at work.old.bank parts.first) (term_at work.old.bank parts.second) }
    requires over { IsTermIn history.now work.old whole }
    requires test { IsTermIn history.now work.old parts.test }
    requires first { IsTermIn history.now work.old parts.first }
    requires second { IsTermIn history.now work.old parts.second }
    ensures line { IfOk result (λ n. (all : List Term) → IsAmong (not_term (term_at work.old.bank parts.test)) all → LineHasOnly work.old line (term_at work.old.bank whole ∷ all) → LineHasOnly work.new n (term_at work.old.bank parts.first ∷ all)) }
    ensures stands { IfOk result (λ n. LineStands work.new n) }
    ensures grows { WorkGrows history.now work.old work.new }
    ensures out { result ≡ Err Stop.OutOfSteps → work.new.counter.used ≡ work.new.counter.limit }
{
    let either = opposites(work, history, parts.test)?;
    let equation = if_true(work, history, parts.test, parts.first, parts.second, either)?;
    rewrite_literal(
        work,
        history,
        Side::Forwards,
        whole,
        parts.first,
        line,
        equation,
    )
}
