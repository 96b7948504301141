//! Terms in place of the variables of a pattern, so that it is a term that is at hand.
ghost use Rattle.std.specs.Prelude.{◌≡◌, ◌++◌, ◌∷◌, [], All, IfOk, IfSome, OnOk, Err};
ghost use Rattle.nq_bank.specs.Content.{IsIdOf, term_at};
ghost use Rattle.nq_clause.specs.Substitution.{substitution_at, PairStands};
ghost use Rattle.nq_clause.specs.Binding.{bindings_at, bound_at, BindingStands, BoundStands};
ghost use Rattle.nq_kernel.specs.Growing.{WorkGrows, WorkStands};
ghost use Rattle.nq_lines.specs.Facts.{IsInstanceBy};
ghost use Rattle.nq_lines.specs.Instances.{ArePairsIn};
ghost use Rattle.nq_lines.specs.Lines.{IsTermIn};

use nq_bank::TermId;
use nq_clause::{Binding, Bound, Pair, match_term};
use nq_history::History;
use nq_kernel::{Stop, Work};

/// The pairs that take a pattern to a term, if there are any.
pub fn match_pairs(
    work: &mut Work,
    history: &History,
    pattern: TermId,
    t: TermId,
) -> Result<Option<Vec<Pair>>, Stop>
    requires stands { WorkStands history.now work.old }
    requires pattern { IsTermIn history.now work.old pattern }
    requires term { IsTermIn history.now work.old t }
    ensures pairs { IfOk result (λ found. IfSome found (λ ps. ArePairsIn history.now work.new ps.items)) }
    ensures grows { WorkGrows history.now work.old work.new }
    ensures memory { result ≡ Err Stop.OutOfSteps → ⊥ }
{
    let mut bindings = Vec::new(work.bank.alloc());
    match match_term(&work.bank, pattern, t, &mut bindings) {
        Ok(true) => found_pairs(work, history, pattern, t, bindings.as_slice()),
        Ok(false) => Ok(None),
        Err(_) => Err(Stop::Memory),
    }
}

/// The pairs of bindings that take a pattern to a term.
fn found_pairs(
    work: &mut Work,
    history: &History,
    pattern: TermId,
    t: TermId,
    bindings: &[Binding],
) -> Result<Option<Vec<Pair>>, Stop>
    requires stands { WorkStands history.now work.old }
    requires pattern { IsTermIn history.now work.old pattern }
    requires term { IsTermIn history.now work.old t }
    requires bindings { All (BindingStands work.old.bank) bindings.now }
    requires instance { IsInstanceBy (bindings_at work.old.bank bindings.now) (term_at work.old.bank pattern) (term_at work.old.bank t) }
    ensures pairs { IfOk result (λ found. IfSome found (λ ps. ArePairsIn history.now work.new ps.items)) }
    ensures grows { WorkGrows history.now work.old work.new }
    ensures memory { result ≡ Err Stop.OutOfSteps → ⊥ }
{
    let pairs = pairs_of(work, history, bindings)?;
    Ok(Some(pairs))
}

/// The pairs of bindings: a number that a variable is bound to gets an id.
fn pairs_of(work: &mut Work, history: &History, bindings: &[Binding]) -> Result<Vec<Pair>, Stop>
    requires stands { WorkStands history.now work.old }
    requires bindings { All (BindingStands work.old.bank) bindings.now }
    ensures pairs { IfOk result (λ pairs. substitution_at work.new.bank pairs.items ≡ bindings_at work.old.bank bindings.now) }
    ensures stand { IfOk result (λ pairs. All (PairStands work.new.bank) pairs.items) }
    ensures grows { WorkGrows history.now work.old work.new }
    ensures memory { result ≡ Err Stop.OutOfSteps → ⊥ }
{
    let mut pairs = Vec::new(work.bank.alloc());
    for b in bindings {
        let term = id_of_bound(work, history, b.bound)?;
        add_pair(
            &mut pairs,
            Pair {
                variable: b.variable,
                term,
            },
        )?;
    }
    Ok(pairs)
}

/// One more pair.
fn add_pair(pairs: &mut Vec<Pair>, pair: Pair) -> Result<(), Stop>
    ensures ok { OnOk result (pairs.new.items ≡ pairs.old.items ++ pair ∷ []) }
    ensures memory { result ≡ Err Stop.OutOfSteps → ⊥ }
{
    match pairs.push(pair) {
        Ok(()) => Ok(()),
        Err(_) => Err(Stop::Memory),
    }
}

/// The id of what a variable is bound to.
fn id_of_bound(work: &mut Work, history: &History, b: Bound) -> Result<TermId, Stop>
    requires stands { WorkStands history.now work.old }
    requires bound { BoundStands work.old.bank b }
    ensures term { IfOk result (λ t. IsIdOf work.new.bank t (bound_at work.old.bank b)) }
    ensures grows { WorkGrows history.now work.old work.new }
    ensures memory { result ≡ Err Stop.OutOfSteps → ⊥ }
{
    match b {
        Bound::Term(t) => Ok(t),
        Bound::Num(n) => match work.bank.num(n) {
            Ok(t) => Ok(t),
            Err(_) => Err(Stop::Memory),
        },
    }
}
