//! The instance of the rule of an axiom or a lemma, with the variables of a call of the goal.
ghost use Rattle.std.specs.Prelude.{◌≡◌, ◌∷◌, All, IfOk, List, Err, Some, drop, false, length, map};
ghost use Rattle.nq_logic.specs.RuleShapes.{rule_parts};
ghost use Rattle.nq_logic.specs.Terms.{Name, Variable, substituted};
ghost use Rattle.nq_logic.specs.Values.{is_value};
ghost use Rattle.nq_logic.specs.Words.{not_term};
ghost use Rattle.nq_bank.specs.Content.{IsIdOf, IsNamed, Stands, term_at, terms_at, text_at};
ghost use Rattle.nq_bank.specs.Parts.{parts_of};
ghost use Rattle.nq_clause.specs.Substitution.{PairStands, substitution_at};
ghost use Rattle.nq_goals.specs.Eliminating.{Eliminating, renaming};
ghost use Rattle.nq_history.specs.Events.{events_at};
ghost use Rattle.nq_kernel.specs.Growing.{WorkGrows, WorkStands};
ghost use Rattle.nq_kernel.specs.Ready.{IsReady};
ghost use Rattle.nq_lines.specs.Instances.{ArePairsIn};
ghost use Rattle.nq_lines.specs.Lines.{IsTermIn, LineHasOnly};
ghost use Rattle.nq_proof.specs.Rules.{event_term};
ghost use Rattle.nq_eliminate.specs.Choosing.{chosen_at};
ghost use Rattle.nq_eliminate.specs.Filling.{IsCandidateIn, IsFilled, IsFilling, IsFillingOfOne, images_named};
ghost use Rattle.nq_eliminate.specs.Instances.{IsInstance};
ghost use Rattle.nq_eliminate.specs.Naming.{images_for};
ghost use Rattle.nq_eliminate.specs.Serving as spec;
ghost use Rattle.nq_eliminate.specs.Serving.{IsRuleIn};

use crate::destructors::destructors_in;
use crate::finding::Candidate;
use crate::instances::Instance;
use crate::literals::copied;
use crate::naming::{new_variables, put_images, put_pairs, rule_variables};
use crate::rules::Rule;
use crate::serving::Served;
use crate::supposing::{hypotheses_in, rule_line};
use nq_bank::{Bank, Node, Sym, TermId};
use nq_clause::Pair;
use nq_history::History;
use nq_kernel::{Stop, Work};
use nq_lines::instance;
use nq_moves::substitute_all;
use nq_ready::own_terms;

/// What the instance of a rule is made of.
#[derive(Drop)]
pub struct Filling {
    /// The name of the axiom or lemma.
    pub name: Sym,
    /// Its term.
    pub term: TermId,
    /// What the variable is made of.
    pub made_of: TermId,
    /// The destructor calls.
    pub destructors: Vec<TermId>,
    /// The hypotheses.
    pub hypotheses: Vec<TermId>,
    /// What the variables become, the eliminated one first.
    pub named: Vec<TermId>,
    /// The variables with these.
    pub pairs: Vec<Pair>,
}

/// The destructor calls of a rule.
fn destructors_of(bank: &Bank, rule: Rule) -> Result<Vec<TermId>, Stop>
    requires { IsRuleIn bank.now rule }
    ensures are { IfOk result (λ v. terms_at bank.now v.items ≡ spec.destructors_in (text_at bank.now rule.name) (term_at bank.now rule.made_of)) }
    ensures stand { IfOk result (λ v. All (Stands bank.now) v.items) }
    ensures memory { result ≡ Err Stop.OutOfSteps → ⊥ }
{
    match destructors_in(bank, rule.name, rule.made_of) {
        Ok(calls) => Ok(calls),
        Err(_) => Err(Stop::Memory),
    }
}

/// What each of some variables becomes, where a destructor call becomes a call of the goal. New variables are taken in turn.
fn images_of(
    bank: &Bank,
    served: Served,
    own: &[TermId],
    new: &[TermId],
) -> Result<Vec<TermId>, Stop>
    requires destructor { Stands bank.now served.destructor }
    requires call { Stands bank.now served.call }
    requires own { All (Stands bank.now) own.now }
    requires new { All (Stands bank.now) new.now }
    ensures are { IfOk result (λ v. terms_at bank.now v.items ≡ images_for (parts_of (term_at bank.now served.destructor)) (parts_of (term_at bank.now served.call)) (terms_at bank.now own.now) (terms_at bank.now new.now)) }
    ensures stand { IfOk result (λ v. All (Stands bank.now) v.items) }
    ensures memory { result ≡ Err Stop.OutOfSteps → ⊥ }
{
    let from = bank.args(served.destructor);
    let to = bank.args(served.call);
    let mut named = Vec::new(bank.alloc());
    put_images(bank, from, to, own, new, &mut named)?;
    Ok(named)
}

/// What the variables of a rule become: the first is the eliminated one, and as many new ones as there are others are ready.
fn name_rule(
    work: &mut Work,
    history: &History,
    goal: &[TermId],
    served: Served,
    own: &[TermId],
    others: &[TermId],
) -> Result<Vec<TermId>, Stop>
    requires stands { WorkStands history.now work.old }
    requires goal { All (IsTermIn history.now work.old) goal.now }
    requires destructor { Stands work.old.bank served.destructor }
    requires call { IsTermIn history.now work.old served.call }
    requires own { All (IsTermIn history.now work.old) own.now }
    requires others { All (IsTermIn history.now work.old) others.now }
    requires variables { All (λ t. is_value (term_at work.old.bank t) ≡ false) others.now }
    ensures named { IfOk result (λ v. terms_at work.new.bank v.items ≡ images_named work.old.bank goal.now served (terms_at work.old.bank own.now) (length others.now)) }
    ensures over { IfOk result (λ v. All (IsTermIn history.now work.new) v.items) }
    ensures grows { WorkGrows history.now work.old work.new }
    ensures out { result ≡ Err Stop.OutOfSteps → work.new.counter.used ≡ work.new.counter.limit }
{
    let new = new_variables(work, history, goal, others)?;
    images_of(&work.bank, served, own, new.as_slice())
}

/// The pairs of variables and of what is in their places.
fn pairs_of(bank: &Bank, own: &[TermId], named: &[TermId]) -> Result<Vec<Pair>, Stop>
    requires own { All (Stands bank.now) own.now }
    requires named { All (Stands bank.now) named.now }
    ensures are { IfOk result (λ v. (xs ys : List Name) → terms_at bank.now own.now ≡ map Variable xs → terms_at bank.now named.now ≡ map Variable ys → substitution_at bank.now v.items ≡ renaming xs ys) }
    ensures stand { IfOk result (λ v. All (PairStands bank.now) v.items) }
    ensures memory { result ≡ Err Stop.OutOfSteps → ⊥ }
{
    let mut pairs = Vec::new(bank.alloc());
    put_pairs(bank, own, named, &mut pairs)?;
    Ok(pairs)
}

/// All but the first.
fn after_first(ids: &[TermId]) -> &[TermId]
    ensures { result.now ≡ drop 1 ids.now }
{
    match ids {
        [] => &[],
        [_, rest @ ..] => rest,
    }
}

/// What the instance of the rule of a candidate is made of.
fn prepare_filling(
    work: &mut Work,
    history: &History,
    goal: &[TermId],
    c: Candidate,
) -> Result<Filling, Stop>
    requires stands { WorkStands history.now work.old }
    requires ready { IsReady (events_at work.old.bank history.now) }
    requires goal { All (IsTermIn history.now work.old) goal.now }
    requires candidate { IsCandidateIn history.now work.old goal.now c }
    ensures filling { IfOk result (IsFilling history.now work.new (chosen_at work.old.bank (terms_at work.old.bank goal.now) c)) }
    ensures grows { WorkGrows history.now work.old work.new }
    ensures out { result ≡ Err Stop.OutOfSteps → work.new.counter.used ≡ work.new.counter.limit }
{
    own_terms();
    let rule = c.served.rule;
    let hypotheses = hypotheses_in(&work.bank, c.term)?;
    let destructors = destructors_of(&work.bank, rule)?;
    let own = rule_variables(&work.bank, rule, hypotheses.as_slice())?;
    let others = after_first(own.as_slice());
    let named = name_rule(work, history, goal, c.served, own.as_slice(), others)?;
    let pairs = pairs_of(&work.bank, own.as_slice(), named.as_slice())?;
    Ok(Filling {
        name: c.name,
        term: c.term,
        made_of: rule.made_of,
        destructors,
        hypotheses,
        named,
        pairs,
    })
}

/// The terms of an instance: what the variable is made of, the destructor calls and the hypotheses.
#[derive(Drop)]
pub struct Filled {
    /// What the variable is made of.
    pub whole: TermId,
    /// The destructor calls.
    pub calls: Vec<TermId>,
    /// The hypotheses.
    pub hypotheses: Vec<TermId>,
}

/// A term, with what the pairs have in the places of its variables.
fn fill_term(work: &mut Work, history: &History, t: TermId, pairs: &[Pair]) -> Result<TermId, Stop>
    requires stands { WorkStands history.now work.old }
    requires term { Stands work.old.bank t }
    requires pairs { All (PairStands work.old.bank) pairs.now }
    ensures term { IfOk result (λ r. IsIdOf work.new.bank r (substituted (substitution_at work.old.bank pairs.now) (term_at work.old.bank t))) }
    ensures grows { WorkGrows history.now work.old work.new }
    ensures out { result ≡ Err Stop.OutOfSteps → work.new.counter.used ≡ work.new.counter.limit }
{
    let terms = substitute_all(work, history, &[t], pairs)?;
    let made = terms[0];
    Ok(made)
}

/// The terms of an instance.
fn fill(work: &mut Work, history: &History, p: &Filling) -> Result<Filled, Stop>
    requires stands { WorkStands history.now work.old }
    requires filling { IsFillingOfOne history.now work.old p.now }
    ensures filled { (e : Eliminating) → IsFilling history.now work.old e p.now → IfOk result (IsFilled history.now work.new e) }
    ensures grows { WorkGrows history.now work.old work.new }
    ensures out { result ≡ Err Stop.OutOfSteps → work.new.counter.used ≡ work.new.counter.limit }
{
    let pairs = p.pairs.as_slice();
    let whole = fill_term(work, history, p.made_of, pairs)?;
    let calls = substitute_all(work, history, p.destructors.as_slice(), pairs)?;
    let hypotheses = substitute_all(work, history, p.hypotheses.as_slice(), pairs)?;
    Ok(Filled {
        whole,
        calls,
        hypotheses,
    })
}

/// Adds the line of an instance.
fn fill_line(
    work: &mut Work,
    history: &History,
    name: Sym,
    t: TermId,
    pairs: Vec<Pair>,
) -> Result<u64, Stop>
    requires stands { WorkStands history.now work.old }
    requires name { IsNamed work.old.bank name }
    requires event { event_term (text_at work.old.bank name) (events_at work.old.bank history.now) ≡ Some (term_at work.old.bank t) }
    requires term { IsTermIn history.now work.old t }
    requires pairs { ArePairsIn history.now work.old pairs.items }
    ensures line { IfOk result (λ n. LineHasOnly work.new n (map (substituted (substitution_at work.old.bank pairs.items)) ((rule_parts (term_at work.old.bank t)).conclusion ∷ map not_term (rule_parts (term_at work.old.bank t)).hypotheses))) }
    ensures grows { WorkGrows history.now work.old work.new }
    ensures out { result ≡ Err Stop.OutOfSteps → work.new.counter.used ≡ work.new.counter.limit }
{
    let line = rule_line(work, history, name, t)?;
    instance(work, history, line, pairs)
}

/// The name of a variable.
fn name_of(bank: &Bank, t: TermId, other: Sym) -> Sym
    requires term { Stands bank.now t }
    requires other { IsNamed bank.now other }
    ensures named { IsNamed bank.now result }
    ensures is { (x : Name) → term_at bank.now t ≡ Variable x → text_at bank.now result ≡ x }
{
    match bank.node(t) {
        Node::Var(name) => name,
        Node::Num(_) => other,
        Node::App(_, _) => other,
    }
}

/// The instance of a rule.
fn instance_by(work: &mut Work, history: &History, p: Filling) -> Result<Instance, Stop>
    requires stands { WorkStands history.now work.old }
    requires filling { IsFillingOfOne history.now work.old p }
    ensures instance { (e : Eliminating) → IsFilling history.now work.old e p → IfOk result (IsInstance history.now work.new e) }
    ensures grows { WorkGrows history.now work.old work.new }
    ensures out { result ≡ Err Stop.OutOfSteps → work.new.counter.used ≡ work.new.counter.limit }
{
    let made = fill(work, history, &p)?;
    let variable = p.named[0];
    let others = copied(work.bank.alloc(), after_first(p.named.as_slice()))?;
    let line = fill_line(work, history, p.name, p.term, p.pairs)?;
    let Filled {
        whole,
        calls,
        hypotheses,
    } = made;
    Ok(Instance {
        name: name_of(&work.bank, variable, p.name),
        variable,
        others,
        whole,
        calls,
        hypotheses,
        line,
    })
}

/// The instance of the rule of a candidate, with the variables of a call of the goal, and with new ones for the others.
pub fn rule_instance(
    work: &mut Work,
    history: &History,
    goal: &[TermId],
    c: Candidate,
) -> Result<Instance, Stop>
    requires stands { WorkStands history.now work.old }
    requires ready { IsReady (events_at work.old.bank history.now) }
    requires goal { All (IsTermIn history.now work.old) goal.now }
    requires candidate { IsCandidateIn history.now work.old goal.now c }
    ensures instance { IfOk result (IsInstance history.now work.new (chosen_at work.old.bank (terms_at work.old.bank goal.now) c)) }
    ensures grows { WorkGrows history.now work.old work.new }
    ensures out { result ≡ Err Stop.OutOfSteps → work.new.counter.used ≡ work.new.counter.limit }
{
    let p = prepare_filling(work, history, goal, c)?;
    instance_by(work, history, p)
}
