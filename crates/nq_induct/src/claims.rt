//! The claim of a goal: its literal, or the right nest of `(IF t T ..)` of its literals.
ghost use Rattle.std.specs.Prelude.{◌≡◌, ◌<◌, ◌∷◌, [], All, IfOk, Err, List, length};
ghost use Rattle.nq_logic.specs.Terms.{Term};
ghost use Rattle.nq_logic.specs.Words.{if_term, true_term};
ghost use Rattle.nq_bank.specs.Content.{IsIdOf, term_at, terms_at};
ghost use Rattle.nq_kernel.specs.Growing.{WorkStands, WorkGrows, LineStands};
ghost use Rattle.nq_lines.specs.Lines.{IsTermIn, LineHasOnly};
ghost use Rattle.nq_induct.specs.Claims.{any_of, GathersTo, OpensTo, IsTruth, IsShownTruth};

use nq_bank::{TermId, ground, ground_name};
use nq_history::History;
use nq_kernel::{Stop, Work};
use nq_lines::{
    Fact, argument_at, condition, join, rewrite_literal, row_line, second_chosen, truth,
};
use nq_rule::{Branches, Side};

/// T, and its line.
pub fn known_truth(work: &mut Work, history: &History) -> Result<Fact, Stop>
    requires stands { WorkStands history.now work.old }
    ensures truth { IfOk result (IsShownTruth history.now work.new) }
    ensures grows { WorkGrows history.now work.old work.new }
    ensures out { result ≡ Err Stop.OutOfSteps → work.new.counter.used ≡ work.new.counter.limit }
{
    let name = ground_name(&work.bank, ground::TRUE);
    let line = row_line(work, history, name, 1, 0)?;
    let term = truth(work, history)?;
    Ok(Fact { term, line })
}

/// Makes the claim of a goal.
pub fn claim_of(
    work: &mut Work,
    history: &History,
    shown: TermId,
    goal: &[TermId],
) -> Result<TermId, Stop>
    requires stands { WorkStands history.now work.old }
    requires truth { IsTruth history.now work.old shown }
    requires some { 0 < length goal.now }
    requires goal { All (IsTermIn history.now work.old) goal.now }
    ensures claim { IfOk result (λ p. IsIdOf work.new.bank p (any_of (terms_at work.old.bank goal.now))) }
    ensures over { IfOk result (λ p. IsTermIn history.now work.new p) }
    ensures grows { WorkGrows history.now work.old work.new }
    ensures out { result ≡ Err Stop.OutOfSteps → work.new.counter.used ≡ work.new.counter.limit }
{
    if goal.len() == 1 {
        return Ok(goal[0]);
    }
    let second = claim_of(work, history, shown, &goal[1..])?;
    condition(
        work,
        history,
        Branches {
            test: goal[0],
            first: shown,
            second,
        },
    )
}

/// `(IF t T u)`, and a line of it in the place of t and of u.
fn gather_one(
    work: &mut Work,
    history: &History,
    shown: Fact,
    t: TermId,
    rest: Fact,
) -> Result<Fact, Stop>
    requires stands { WorkStands history.now work.old }
    requires truth { IsShownTruth history.now work.old shown }
    requires term { IsTermIn history.now work.old t }
    requires rest { IsTermIn history.now work.old rest.term }
    requires line { LineStands work.old rest.line }
    ensures claim { IfOk result (λ f. IsIdOf work.new.bank f.term (if_term (term_at work.old.bank t) true_term (term_at work.old.bank rest.term))) }
    ensures over { IfOk result (λ f. IsTermIn history.now work.new f.term) }
    ensures line { IfOk result (λ f. GathersTo work.old work.new (term_at work.old.bank rest.term ∷ term_at work.old.bank t ∷ []) (if_term (term_at work.old.bank t) true_term (term_at work.old.bank rest.term)) rest.line f.line) }
    ensures stands { IfOk result (λ f. LineStands work.new f.line) }
    ensures grows { WorkGrows history.now work.old work.new }
    ensures out { result ≡ Err Stop.OutOfSteps → work.new.counter.used ≡ work.new.counter.limit }
{
    let parts = Branches {
        test: t,
        first: shown.term,
        second: rest.term,
    };
    let line = join(work, history, shown.line, rest.line, parts)?;
    let term = condition(work, history, parts)?;
    Ok(Fact { term, line })
}

/// The claim of a goal, and a line of it in the place of the goal's literals.
pub fn gather(
    work: &mut Work,
    history: &History,
    shown: Fact,
    goal: &[TermId],
    line: u64,
) -> Result<Fact, Stop>
    requires stands { WorkStands history.now work.old }
    requires truth { IsShownTruth history.now work.old shown }
    requires some { 0 < length goal.now }
    requires goal { All (IsTermIn history.now work.old) goal.now }
    requires line { LineStands work.old line }
    ensures claim { IfOk result (λ f. IsIdOf work.new.bank f.term (any_of (terms_at work.old.bank goal.now))) }
    ensures over { IfOk result (λ f. IsTermIn history.now work.new f.term) }
    ensures line { IfOk result (λ f. GathersTo work.old work.new (terms_at work.old.bank goal.now) (any_of (terms_at work.old.bank goal.now)) line f.line) }
    ensures stands { IfOk result (λ f. LineStands work.new f.line) }
    ensures grows { WorkGrows history.now work.old work.new }
    ensures out { result ≡ Err Stop.OutOfSteps → work.new.counter.used ≡ work.new.counter.limit }
{
    if goal.len() == 1 {
        return Ok(Fact {
            term: goal[0],
            line,
        });
    }
    let rest = gather(work, history, shown, &goal[1..], line)?;
    gather_one(work, history, shown, goal[0], rest)
}

/// A line of t and of u in the place of `(IF t T u)`.
fn open_one(
    work: &mut Work,
    history: &History,
    shown: TermId,
    t: TermId,
    u: TermId,
    whole: TermId,
    line: u64,
) -> Result<u64, Stop>
    requires stands { WorkStands history.now work.old }
    requires truth { IsTruth history.now work.old shown }
    requires first { IsTermIn history.now work.old t }
    requires second { IsTermIn history.now work.old u }
    requires whole { IsIdOf work.old.bank whole (if_term (term_at work.old.bank t) true_term (term_at work.old.bank u)) }
    requires over { IsTermIn history.now work.old whole }
    requires line { LineStands work.old line }
    ensures line { IfOk result (λ n. OpensTo work.old work.new (if_term (term_at work.old.bank t) true_term (term_at work.old.bank u)) (term_at work.old.bank u ∷ term_at work.old.bank t ∷ []) line n) }
    ensures stands { IfOk result (λ n. LineStands work.new n) }
    ensures grows { WorkGrows history.now work.old work.new }
    ensures out { result ≡ Err Stop.OutOfSteps → work.new.counter.used ≡ work.new.counter.limit }
{
    let equation = second_chosen(work, history, t, shown, u)?;
    rewrite_literal(work, history, Side::Forwards, whole, u, line, equation)
}

/// A line of a goal's literals in the place of its claim.
pub fn open_claim(
    work: &mut Work,
    history: &History,
    shown: TermId,
    goal: &[TermId],
    claim: TermId,
    line: u64,
) -> Result<u64, Stop>
    requires stands { WorkStands history.now work.old }
    requires truth { IsTruth history.now work.old shown }
    requires some { 0 < length goal.now }
    requires goal { All (IsTermIn history.now work.old) goal.now }
    requires claim { IsIdOf work.old.bank claim (any_of (terms_at work.old.bank goal.now)) }
    requires over { IsTermIn history.now work.old claim }
    requires line { LineStands work.old line }
    ensures line { IfOk result (λ n. OpensTo work.old work.new (any_of (terms_at work.old.bank goal.now)) (terms_at work.old.bank goal.now) line n) }
    ensures stands { IfOk result (λ n. LineStands work.new n) }
    ensures grows { WorkGrows history.now work.old work.new }
    ensures out { result ≡ Err Stop.OutOfSteps → work.new.counter.used ≡ work.new.counter.limit }
{
    if goal.len() == 1 {
        return Ok(line);
    }
    let rest = argument_at(&work.bank, claim, 3);
    let opened = open_one(work, history, shown, goal[0], rest, claim, line)?;
    open_claim(work, history, shown, &goal[1..], rest, opened)
}
