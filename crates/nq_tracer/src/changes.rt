//! What the variables in the places of the measured formals become at a recursive call.
ghost use Rattle.std.specs.Prelude.{◌≡◌, All, IfOk};
ghost use Rattle.nq_logic.specs.RuleShapes.{variables_of};
ghost use Rattle.nq_bank.specs.Content.{Grows, IsIdOf, IsNamed, Stands, term_at, text_at};
ghost use Rattle.nq_clause.specs.Substitution.{PairStands, substitution_at};
ghost use Rattle.nq_tracer.specs.Cases.{change_of, changes_of, image_by};

use nq_bank::{Bank, BankFault, Node, Sym, TermId};
use nq_clause::{Pair, occurs_in, substitute};
use std::alloc::AllocError;

/// Makes the argument of a recursive call in the place of a formal, at the arguments of the call at hand.
fn image_at(
    bank: &mut Bank,
    here: &[Pair],
    there: &[Pair],
    formal: Sym,
) -> Result<TermId, BankFault>
    requires here { All (PairStands bank.old) here.now }
    requires there { All (PairStands bank.old) there.now }
    requires formal { IsNamed bank.old formal }
    ensures ok { IfOk result (λ t. IsIdOf bank.new t (image_by (substitution_at bank.old here.now) (substitution_at bank.old there.now) (text_at bank.old formal))) }
    ensures grows { Grows bank.old bank.new }
{
    let Ok(variable) = bank.var(formal) else {
        return Err(BankFault::Memory);
    };
    let at_call = substitute(bank, variable, there)?;
    substitute(bank, at_call, here)
}

/// And what a variable becomes, if the term is one.
fn with_change(
    bank: &Bank,
    t: TermId,
    image: TermId,
    changes: Vec<Pair>,
) -> Result<Vec<Pair>, AllocError>
    requires term { Stands bank.now t }
    requires image { Stands bank.now image }
    requires changes { All (PairStands bank.now) changes.items }
    ensures is { IfOk result (λ v. substitution_at bank.now v.items ≡ change_of (term_at bank.now t) (term_at bank.now image) (substitution_at bank.now changes.items)) }
    ensures stand { IfOk result (λ v. All (PairStands bank.now) v.items) }
{
    match bank.node(t) {
        Node::Var(variable) => {
            let mut all = Vec::new(bank.alloc());
            all.push(Pair {
                variable,
                term: image,
            })?;
            all.extend_from_slice(changes.as_slice())?;
            Ok(all)
        }
        Node::Num(_) => Ok(changes),
        Node::App(_, _) => Ok(changes),
    }
}

/// One change more, where the formal is measured.
fn change_first(
    bank: &mut Bank,
    here: &[Pair],
    there: &[Pair],
    first: Pair,
    later: Vec<Pair>,
) -> Result<Vec<Pair>, BankFault>
    requires here { All (PairStands bank.old) here.now }
    requires there { All (PairStands bank.old) there.now }
    requires first { PairStands bank.old first }
    requires later { All (PairStands bank.old) later.items }
    ensures is { IfOk result (λ v. substitution_at bank.new v.items ≡ change_of (term_at bank.old first.term) (image_by (substitution_at bank.old here.now) (substitution_at bank.old there.now) (text_at bank.old first.variable)) (substitution_at bank.old later.items)) }
    ensures stand { IfOk result (λ v. All (PairStands bank.new) v.items) }
    ensures grows { Grows bank.old bank.new }
{
    let image = image_at(bank, here, there, first.variable)?;
    match with_change(bank, first.term, image, later) {
        Ok(changes) => Ok(changes),
        Err(_) => Err(BankFault::Memory),
    }
}

/// What the variables become that stand in the places of the formals in the measure.
pub fn changes_at(
    bank: &mut Bank,
    measure: TermId,
    here: &[Pair],
    there: &[Pair],
    left: &[Pair],
) -> Result<Vec<Pair>, BankFault>
    requires measure { Stands bank.old measure }
    requires here { All (PairStands bank.old) here.now }
    requires there { All (PairStands bank.old) there.now }
    requires left { All (PairStands bank.old) left.now }
    ensures is { IfOk result (λ v. substitution_at bank.new v.items ≡ changes_of (variables_of (term_at bank.old measure)) (image_by (substitution_at bank.old here.now) (substitution_at bank.old there.now)) (substitution_at bank.old left.now)) }
    ensures stand { IfOk result (λ v. All (PairStands bank.new) v.items) }
    ensures grows { Grows bank.old bank.new }
{
    match left {
        [] => Ok(Vec::new(bank.alloc())),
        [first, rest @ ..] => {
            let later = changes_at(bank, measure, here, there, rest)?;
            let Ok(measured) = occurs_in(bank, first.variable, measure) else {
                return Err(BankFault::Memory);
            };
            if measured {
                change_first(bank, here, there, *first, later)
            } else {
                Ok(later)
            }
        }
    }
}
