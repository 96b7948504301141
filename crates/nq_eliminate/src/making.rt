//! ELIM by an instance of an elimination rule.
ghost use Rattle.std.specs.Prelude.{◌≡◌, ◌≤◌, ◌++◌, ◌∷◌, false, length, map, All, IfOk, Err};
ghost use Rattle.nq_logic.specs.Terms.{Name};
ghost use Rattle.nq_logic.specs.Values.{is_value};
ghost use Rattle.nq_logic.specs.Words.{not_term};
ghost use Rattle.nq_bank.specs.Content.{term_at, terms_at};
ghost use Rattle.nq_kernel.specs.Growing.{WorkStands, WorkGrows};
ghost use Rattle.nq_lines.specs.Lines.{IsTermIn};
ghost use Rattle.nq_moves.specs.Eliminated.{IsElimination};
ghost use Rattle.nq_moves.specs.Naming.{occurs_in_one};
ghost use Rattle.nq_moves.specs.Ways.{IsMove};
ghost use Rattle.nq_eliminate.specs.Instances.{EliminatesOf, IsChosenOf, IsInstanceOfOne};
ghost use Rattle.nq_eliminate.specs.Kept.{IsKept, IsPrepared, IsRenamedBy};

use crate::instances::Instance;
use crate::literals::{copied, known_terms, push_id, put_all};
use nq_bank::TermId;
use nq_history::History;
use nq_kernel::{Stop, Work};
use nq_lines::{deny, equate};
use nq_moves::{Eliminated, Moved, Renaming, eliminate_by, rename_new};
use std::alloc::Global;

/// The NOTs of terms, after other terms.
fn with_denials(
    work: &mut Work,
    history: &History,
    first: &[TermId],
    terms: &[TermId],
) -> Result<Vec<TermId>, Stop>
    requires stands { WorkStands history.now work.old }
    requires first { All (IsTermIn history.now work.old) first.now }
    requires terms { All (IsTermIn history.now work.old) terms.now }
    ensures literals { IfOk result (λ v. terms_at work.new.bank v.items ≡ terms_at work.old.bank first.now ++ map not_term (terms_at work.old.bank terms.now)) }
    ensures over { IfOk result (λ v. All (IsTermIn history.now work.new) v.items) }
    ensures grows { WorkGrows history.now work.old work.new }
    ensures out { result ≡ Err Stop.OutOfSteps → work.new.counter.used ≡ work.new.counter.limit }
{
    let mut ids = copied(work.bank.alloc(), first)?;
    for t in terms {
        let denied = deny(work, history, *t)?;
        push_id(&mut ids, denied)?;
    }
    Ok(ids)
}

/// The whole, then the NOT of the equation, then the literals of a goal.
fn beside_goal(
    alloc: Global,
    whole: TermId,
    denial: TermId,
    goal: &[TermId],
) -> Result<Vec<TermId>, Stop>
    ensures ids { IfOk result (λ v. v.items ≡ whole ∷ denial ∷ goal.now) }
    ensures memory { result ≡ Err Stop.OutOfSteps → ⊥ }
{
    let mut ids = copied(alloc, &[whole, denial])?;
    put_all(&mut ids, goal)?;
    Ok(ids)
}

/// What is renamed: the whole, the NOT of the equation, the goal's literals and the hypotheses' NOTs.
fn to_rename(
    work: &mut Work,
    history: &History,
    goal: &[TermId],
    r: &Instance,
    equation: TermId,
) -> Result<Vec<TermId>, Stop>
    requires stands { WorkStands history.now work.old }
    requires goal { All (IsTermIn history.now work.old) goal.now }
    requires whole { IsTermIn history.now work.old r.now.whole }
    requires hypotheses { All (IsTermIn history.now work.old) r.now.hypotheses.items }
    requires equation { IsTermIn history.now work.old equation }
    ensures literals { IfOk result (λ v. terms_at work.new.bank v.items ≡ term_at work.old.bank r.now.whole ∷ not_term (term_at work.old.bank equation) ∷ (terms_at work.old.bank goal.now ++ map not_term (terms_at work.old.bank r.now.hypotheses.items))) }
    ensures over { IfOk result (λ v. All (IsTermIn history.now work.new) v.items) }
    ensures grows { WorkGrows history.now work.old work.new }
    ensures out { result ≡ Err Stop.OutOfSteps → work.new.counter.used ≡ work.new.counter.limit }
{
    let denial = deny(work, history, equation)?;
    let first = beside_goal(work.bank.alloc(), r.whole, denial, goal)?;
    with_denials(work, history, first.as_slice(), r.hypotheses.as_slice())
}

/// What is kept of an elimination.
fn kept(
    alloc: Global,
    r: Instance,
    equation: TermId,
    renaming: Renaming,
) -> Result<Eliminated, Stop>
    requires { 2 ≤ length renaming.literals.items }
    ensures kept { IfOk result (IsKept r equation renaming) }
    ensures memory { result ≡ Err Stop.OutOfSteps → ⊥ }
{
    let renamed = copied(alloc, &renaming.literals[2..])?;
    let made_of = renaming.literals[0];
    let denial = renaming.literals[1];
    Ok(Eliminated {
        name: r.name,
        variable: r.variable,
        equation,
        hypotheses: r.hypotheses,
        line: r.line,
        pairs: renaming.pairs,
        made_of,
        denial,
        renamed,
    })
}

/// The equation of an instance, and what is renamed.
#[derive(Drop)]
pub struct Prepared {
    /// The equation.
    pub equation: TermId,
    /// The whole, the NOT of the equation, the goal's literals and the hypotheses' NOTs.
    pub literals: Vec<TermId>,
}

/// Makes the equation of an instance, and what is renamed.
fn prepare(
    work: &mut Work,
    history: &History,
    goal: &[TermId],
    r: &Instance,
) -> Result<Prepared, Stop>
    requires stands { WorkStands history.now work.old }
    requires goal { All (IsTermIn history.now work.old) goal.now }
    requires whole { IsTermIn history.now work.old r.now.whole }
    requires variable { IsTermIn history.now work.old r.now.variable }
    requires hypotheses { All (IsTermIn history.now work.old) r.now.hypotheses.items }
    ensures prepared { IfOk result (IsPrepared history.now work.new goal.now r.now) }
    ensures grows { WorkGrows history.now work.old work.new }
    ensures out { result ≡ Err Stop.OutOfSteps → work.new.counter.used ≡ work.new.counter.limit }
{
    let equation = equate(work, history, r.whole, r.variable)?;
    let literals = to_rename(work, history, goal, r, equation)?;
    Ok(Prepared { equation, literals })
}

/// Renames what was prepared: new variables, which stand in none of the known terms, take the places of the calls.
fn renamed(
    work: &mut Work,
    history: &History,
    known: &[TermId],
    r: Instance,
    p: Prepared,
) -> Result<Eliminated, Stop>
    requires stands { WorkStands history.now work.old }
    requires known { All (IsTermIn history.now work.old) known.now }
    requires literals { All (IsTermIn history.now work.old) p.literals.items }
    requires two { 2 ≤ length p.literals.items }
    requires within { (x : Name) → occurs_in_one x (terms_at work.old.bank known.now) ≡ false → occurs_in_one x (terms_at work.old.bank p.literals.items) ≡ false }
    requires calls { All (IsTermIn history.now work.old) r.calls.items }
    requires values { All (λ t. is_value (term_at work.old.bank t) ≡ false) r.calls.items }
    ensures renamed { IfOk result (IsRenamedBy history.now work.old work.new known.now r p) }
    ensures grows { WorkGrows history.now work.old work.new }
    ensures out { result ≡ Err Stop.OutOfSteps → work.new.counter.used ≡ work.new.counter.limit }
{
    let renaming = rename_new(
        work,
        history,
        known,
        p.literals.as_slice(),
        r.calls.as_slice(),
    )?;
    kept(work.bank.alloc(), r, p.equation, renaming)
}

/// The elimination by an instance of a rule, with new variables that stand in no goal of the path.
fn eliminated(
    work: &mut Work,
    history: &History,
    path: &[Vec<TermId>],
    goal: &[TermId],
    r: Instance,
) -> Result<Eliminated, Stop>
    requires stands { WorkStands history.now work.old }
    requires path { All (λ earlier. All (IsTermIn history.now work.old) earlier.items) path.now }
    requires goal { All (IsTermIn history.now work.old) goal.now }
    requires instance { IsInstanceOfOne history.now work.old r }
    ensures serves { IfOk result (IsElimination history.now work.new goal.now) }
    ensures chosen { IfOk result (IsChosenOf history.now work.old work.new path.now goal.now r) }
    ensures grows { WorkGrows history.now work.old work.new }
    ensures out { result ≡ Err Stop.OutOfSteps → work.new.counter.used ≡ work.new.counter.limit }
{
    let p = prepare(work, history, goal, &r)?;
    let others = r.others.as_slice();
    let known = known_terms(work.bank.alloc(), path, goal, r.variable, others)?;
    renamed(work, history, known.as_slice(), r, p)
}

/// ELIM by an instance of a rule, with new variables that stand in no goal of the path. It is that of the table by each elimination of
/// which this is the instance.
pub fn eliminate_instance(
    work: &mut Work,
    history: &History,
    path: &[Vec<TermId>],
    goal: &[TermId],
    r: Instance,
) -> Result<Moved, Stop>
    requires stands { WorkStands history.now work.old }
    requires path { All (λ earlier. All (IsTermIn history.now work.old) earlier.items) path.now }
    requires goal { All (IsTermIn history.now work.old) goal.now }
    requires instance { IsInstanceOfOne history.now work.old r }
    ensures moved { IfOk result (IsMove history.now work.new goal.now) }
    ensures legal { IfOk result (EliminatesOf history.now work.old work.new path.now goal.now r) }
    ensures grows { WorkGrows history.now work.old work.new }
    ensures out { result ≡ Err Stop.OutOfSteps → work.new.counter.used ≡ work.new.counter.limit }
{
    let e = eliminated(work, history, path, goal, r)?;
    eliminate_by(work, history, goal, e)
}
