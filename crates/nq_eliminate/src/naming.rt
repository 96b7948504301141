//! Names for the variables of a rule: those of a call of the goal, and new ones for the others.
ghost use Rattle.std.specs.Prelude.{◌≡◌, ◌∷◌, [], ◌++◌, All, IfOk, List, OnOk, Err, false, length, map};
ghost use Rattle.nq_logic.specs.RuleShapes.{variables_of};
ghost use Rattle.nq_logic.specs.Terms.{Name, Variable};
ghost use Rattle.nq_logic.specs.Values.{is_value};
ghost use Rattle.nq_bank.specs.Content.{Stands, term_at, terms_at, text_at};
ghost use Rattle.nq_clause.specs.Substitution.{PairStands, substitution_at};
ghost use Rattle.nq_goals.specs.Eliminating.{renaming};
ghost use Rattle.nq_goals.specs.NewVariables as variables;
ghost use Rattle.nq_goals.specs.NewVariables.{clause_variables};
ghost use Rattle.nq_kernel.specs.Growing.{WorkGrows, WorkStands};
ghost use Rattle.nq_kernel.specs.Over.{pair_names};
ghost use Rattle.nq_lines.specs.Instances.{ArePairsIn};
ghost use Rattle.nq_lines.specs.Lines.{IsTermIn};
ghost use Rattle.nq_proof.specs.Clauses.{distinct};
ghost use Rattle.nq_eliminate.specs.Naming.{images_for};
ghost use Rattle.nq_eliminate.specs.Serving.{IsRuleIn};

use crate::images::image;
use crate::literals::push_id;
use crate::rules::Rule;
use nq_bank::{Bank, Node, TermId};
use nq_clause::Pair;
use nq_history::History;
use nq_kernel::{Stop, Work};
use nq_moves::{distinct_clause, rename_new, variable_id};

/// Puts the variables of a term at the end, each as often as it stands there.
fn put_variables(bank: &Bank, t: TermId, found: &mut Vec<TermId>) -> Result<(), Stop>
    requires term { Stands bank.now t }
    requires found { All (Stands bank.now) found.old.items }
    ensures more { OnOk result (terms_at bank.now found.new.items ≡ terms_at bank.now found.old.items ++ map Variable (variables_of (term_at bank.now t))) }
    ensures stand { OnOk result (All (Stands bank.now) found.new.items) }
    ensures memory { result ≡ Err Stop.OutOfSteps → ⊥ }
{
    match bank.node(t) {
        Node::Var(_) => {
            push_id(found, t)?;
            Ok(())
        }
        Node::Num(_) => Ok(()),
        Node::App(_, _) => {
            let arguments = bank.args(t);
            for a in arguments {
                put_variables(bank, *a, found)?;
            }
            Ok(())
        }
    }
}

/// Puts the variables of terms at the end.
fn put_all_variables(bank: &Bank, terms: &[TermId], found: &mut Vec<TermId>) -> Result<(), Stop>
    requires terms { All (Stands bank.now) terms.now }
    requires found { All (Stands bank.now) found.old.items }
    ensures more { OnOk result (terms_at bank.now found.new.items ≡ terms_at bank.now found.old.items ++ map Variable (clause_variables (terms_at bank.now terms.now))) }
    ensures stand { OnOk result (All (Stands bank.now) found.new.items) }
    ensures memory { result ≡ Err Stop.OutOfSteps → ⊥ }
{
    match terms {
        [] => Ok(()),
        [first, rest @ ..] => {
            put_variables(bank, *first, found)?;
            put_all_variables(bank, rest, found)?;
            Ok(())
        }
    }
}

/// The variables of a rule, the one that is eliminated first, and each once.
pub fn rule_variables(bank: &Bank, rule: Rule, hypotheses: &[TermId]) -> Result<Vec<TermId>, Stop>
    requires rule { IsRuleIn bank.now rule }
    requires hypotheses { All (Stands bank.now) hypotheses.now }
    ensures are { IfOk result (λ v. terms_at bank.now v.items ≡ distinct (map Variable (text_at bank.now rule.name ∷ clause_variables (term_at bank.now rule.made_of ∷ terms_at bank.now hypotheses.now)))) }
    ensures stand { IfOk result (λ v. All (Stands bank.now) v.items) }
    ensures memory { result ≡ Err Stop.OutOfSteps → ⊥ }
{
    let mut found = Vec::new(bank.alloc());
    push_id(&mut found, rule.variable)?;
    put_variables(bank, rule.made_of, &mut found)?;
    put_all_variables(bank, hypotheses, &mut found)?;
    distinct_clause(bank, found.as_slice())
}

/// The variables of pairs.
fn variables_of_pairs(
    work: &mut Work,
    history: &History,
    pairs: &[Pair],
) -> Result<Vec<TermId>, Stop>
    requires stands { WorkStands history.now work.old }
    requires pairs { ArePairsIn history.now work.old pairs.now }
    ensures are { IfOk result (λ v. terms_at work.new.bank v.items ≡ map Variable (pair_names (substitution_at work.old.bank pairs.now))) }
    ensures over { IfOk result (λ v. All (IsTermIn history.now work.new) v.items) }
    ensures grows { WorkGrows history.now work.old work.new }
    ensures memory { result ≡ Err Stop.OutOfSteps → ⊥ }
{
    let mut ids = Vec::new(work.bank.alloc());
    for p in pairs {
        let id = variable_id(work, history, p.variable)?;
        push_id(&mut ids, id)?;
    }
    Ok(ids)
}

/// New variables, as many as there are others, which stand in no literal of the goal.
pub fn new_variables(
    work: &mut Work,
    history: &History,
    goal: &[TermId],
    others: &[TermId],
) -> Result<Vec<TermId>, Stop>
    requires stands { WorkStands history.now work.old }
    requires goal { All (IsTermIn history.now work.old) goal.now }
    requires others { All (IsTermIn history.now work.old) others.now }
    requires values { All (λ t. is_value (term_at work.old.bank t) ≡ false) others.now }
    ensures are { IfOk result (λ v. terms_at work.new.bank v.items ≡ map Variable (variables.new_variables (clause_variables (terms_at work.old.bank goal.now)) (length others.now))) }
    ensures over { IfOk result (λ v. All (IsTermIn history.now work.new) v.items) }
    ensures grows { WorkGrows history.now work.old work.new }
    ensures out { result ≡ Err Stop.OutOfSteps → work.new.counter.used ≡ work.new.counter.limit }
{
    let renaming = rename_new(work, history, goal, &[], others)?;
    variables_of_pairs(work, history, renaming.pairs.as_slice())
}

/// Puts what each of some variables becomes at the end, where these terms become those. New variables are taken in turn.
pub fn put_images(
    bank: &Bank,
    from: &[TermId],
    to: &[TermId],
    own: &[TermId],
    new: &[TermId],
    named: &mut Vec<TermId>,
) -> Result<(), Stop>
    requires from { All (Stands bank.now) from.now }
    requires to { All (Stands bank.now) to.now }
    requires own { All (Stands bank.now) own.now }
    requires new { All (Stands bank.now) new.now }
    requires named { All (Stands bank.now) named.old.items }
    ensures more { OnOk result (terms_at bank.now named.new.items ≡ terms_at bank.now named.old.items ++ images_for (terms_at bank.now from.now) (terms_at bank.now to.now) (terms_at bank.now own.now) (terms_at bank.now new.now)) }
    ensures stand { OnOk result (All (Stands bank.now) named.new.items) }
    ensures memory { result ≡ Err Stop.OutOfSteps → ⊥ }
{
    match own {
        [] => Ok(()),
        [first, rest @ ..] => match image(bank, from, to, *first) {
            Some(known) => {
                push_id(named, known)?;
                put_images(bank, from, to, rest, new, named)?;
                Ok(())
            }
            None => match new {
                [] => Ok(()),
                [next, more @ ..] => {
                    push_id(named, *next)?;
                    put_images(bank, from, to, rest, more, named)?;
                    Ok(())
                }
            },
        },
    }
}

/// One more pair.
fn push_pair(pairs: &mut Vec<Pair>, pair: Pair) -> Result<(), Stop>
    ensures kept { OnOk result (pairs.new.items ≡ pairs.old.items ++ pair ∷ []) }
    ensures memory { result ≡ Err Stop.OutOfSteps → ⊥ }
{
    match pairs.push(pair) {
        Ok(()) => Ok(()),
        Err(_) => Err(Stop::Memory),
    }
}

/// Puts the pair of a variable and of what is in its place at the end.
fn put_pair(bank: &Bank, own: TermId, into: TermId, pairs: &mut Vec<Pair>) -> Result<(), Stop>
    requires own { Stands bank.now own }
    requires into { Stands bank.now into }
    requires pairs { All (PairStands bank.now) pairs.old.items }
    ensures more { OnOk result ((x : Name) → term_at bank.now own ≡ Variable x → substitution_at bank.now pairs.new.items ≡ substitution_at bank.now pairs.old.items ++ (x, term_at bank.now into) ∷ []) }
    ensures stand { OnOk result (All (PairStands bank.now) pairs.new.items) }
    ensures memory { result ≡ Err Stop.OutOfSteps → ⊥ }
{
    match bank.node(own) {
        Node::Var(variable) => {
            let pair = Pair {
                variable,
                term: into,
            };
            push_pair(pairs, pair)
        }
        Node::Num(_) => Ok(()),
        Node::App(_, _) => Ok(()),
    }
}

/// Puts the pairs of variables and of what is in their places at the end.
pub fn put_pairs(
    bank: &Bank,
    own: &[TermId],
    named: &[TermId],
    pairs: &mut Vec<Pair>,
) -> Result<(), Stop>
    requires own { All (Stands bank.now) own.now }
    requires named { All (Stands bank.now) named.now }
    requires pairs { All (PairStands bank.now) pairs.old.items }
    ensures more { OnOk result ((xs ys : List Name) → terms_at bank.now own.now ≡ map Variable xs → terms_at bank.now named.now ≡ map Variable ys → substitution_at bank.now pairs.new.items ≡ substitution_at bank.now pairs.old.items ++ renaming xs ys) }
    ensures stand { OnOk result (All (PairStands bank.now) pairs.new.items) }
    ensures memory { result ≡ Err Stop.OutOfSteps → ⊥ }
{
    match own {
        [] => Ok(()),
        [first, rest @ ..] => match named {
            [] => Ok(()),
            [into, more @ ..] => {
                put_pair(bank, *first, *into, pairs)?;
                put_pairs(bank, rest, more, pairs)?;
                Ok(())
            }
        },
    }
}
