//! The lines of a goal that is an instance of an axiom or lemma: the term of the axiom or lemma, and then its instance.
ghost use Rattle.std.specs.Prelude.{◌≡◌, ◌∷◌, [], All, IfOk};
ghost use Rattle.nq_bank.specs.Content.{Grows, IsIdOf, Stands, term_at};
ghost use Rattle.nq_clause.specs.Substitution.{substitution_at, PairStands};
ghost use Rattle.nq_clause.specs.Binding.{bindings_at, bound_at, BindingStands, BoundStands};
ghost use Rattle.nq_history.specs.Events.{events_at};
ghost use Rattle.nq_kernel.specs.Over.{TermIsIn};
ghost use Rattle.nq_kernel.specs.Growing.{WorkStands, LineHolds};
ghost use Rattle.nq_kernel.specs.Ready.{IsReady};
ghost use Rattle.nq_quick.specs.Lines.{GrowsUncounted, LineHasOnly};
ghost use Rattle.nq_quick.specs.Earlier.{CanInstance, IsEvent, IsFound};

use crate::earlier::Earlier;
use crate::lines::add_line;
use nq_bank::{Bank, Sym, TermId};
use nq_clause::{Binding, Bound, Pair};
use nq_history::History;
use nq_kernel::{Rule, Work};
use std::alloc::AllocError;

/// Adds the line of a goal that is an instance of an axiom or lemma.
pub fn prove_instance(
    work: &mut Work,
    history: &History,
    goal: TermId,
    found: &Earlier,
) -> Result<u64, AllocError>
    requires stands { WorkStands history.now work.old }
    requires goal { Stands work.old.bank goal }
    requires over { TermIsIn work.old.bank history.now goal }
    requires ready { IsReady (events_at work.old.bank history.now) }
    requires found { IsFound work.old.bank (events_at work.old.bank history.now) goal found.now }
    ensures line { IfOk result (λ n. LineHasOnly work.new n (term_at work.old.bank goal ∷ [])) }
    ensures grows { GrowsUncounted history.now work.old work.new }
{
    let pairs = pairs_of(&mut work.bank, found.bindings.as_slice())?;
    let line = add_event(work, history, found.name, found.term)?;
    add_event_instance(work, history, line, found.term, goal, pairs)
}

/// The pairs of bindings: a number that a variable is bound to gets an id.
fn pairs_of(bank: &mut Bank, bindings: &[Binding]) -> Result<Vec<Pair>, AllocError>
    requires { All (BindingStands bank.old) bindings.now }
    ensures pairs { IfOk result (λ pairs. substitution_at bank.new pairs.items ≡ bindings_at bank.old bindings.now) }
    ensures stand { IfOk result (λ pairs. All (PairStands bank.new) pairs.items) }
    ensures grows { Grows bank.old bank.new }
    ensures names { bank.new.names ≡ bank.old.names }
{
    let mut pairs = Vec::new(bank.alloc());
    for b in bindings {
        let term = id_of_bound(bank, b.bound)?;
        pairs.push(Pair {
            variable: b.variable,
            term,
        })?;
    }
    Ok(pairs)
}

/// The id of what a variable is bound to.
fn id_of_bound(bank: &mut Bank, b: Bound) -> Result<TermId, AllocError>
    requires { BoundStands bank.old b }
    ensures term { IfOk result (λ t. IsIdOf bank.new t (bound_at bank.old b)) }
    ensures grows { Grows bank.old bank.new }
    ensures names { bank.new.names ≡ bank.old.names }
{
    match b {
        Bound::Term(t) => Ok(t),
        Bound::Num(n) => bank.num(n),
    }
}

/// Adds the line of an axiom or lemma.
fn add_event(work: &mut Work, history: &History, name: Sym, t: TermId) -> Result<u64, AllocError>
    requires stands { WorkStands history.now work.old }
    requires event { IsEvent work.old.bank (events_at work.old.bank history.now) name t }
    ensures line { IfOk result (λ n. LineHolds work.new n (term_at work.old.bank t ∷ [])) }
    ensures grows { GrowsUncounted history.now work.old work.new }
{
    work.bank.is_sound();
    add_line(work, history, Rule::EventTerm(name))
}

/// Adds the line of a goal, from that of a term that the pairs take to it.
fn add_event_instance(
    work: &mut Work,
    history: &History,
    line: u64,
    t: TermId,
    goal: TermId,
    pairs: Vec<Pair>,
) -> Result<u64, AllocError>
    requires stands { WorkStands history.now work.old }
    requires line { LineHolds work.old line (term_at work.old.bank t ∷ []) }
    requires instance { CanInstance work.old.bank history.now t goal pairs.items }
    ensures line { IfOk result (λ n. LineHolds work.new n (term_at work.old.bank goal ∷ [])) }
    ensures grows { GrowsUncounted history.now work.old work.new }
{
    work.bank.is_sound();
    add_line(work, history, Rule::Instance(line, pairs))
}
