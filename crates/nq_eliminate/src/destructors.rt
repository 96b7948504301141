//! The destructor calls of a rule.
ghost use Rattle.std.specs.Prelude.{◌≡◌, ◌++◌, ◌∷◌, [], All, IfOk, OnOk, if◌then◌else◌};
ghost use Rattle.nq_logic.specs.RuleShapes.{is_destructor_call};
ghost use Rattle.nq_logic.specs.Terms.{call};
ghost use Rattle.nq_bank.specs.Content.{IsNamed, Stands, term_at, terms_at, text_at};
ghost use Rattle.nq_proof.specs.Clauses.{distinct};
ghost use Rattle.nq_eliminate.specs.Serving.{calls_of};

use nq_bank::{Bank, Node, Sym, TermId};
use nq_moves::distinct_clause;
use nq_rules::are_of_destructor;
use nq_stuck::Fault;

/// Puts a term at the end, where it is to be kept.
fn keep_where(kept: &mut Vec<TermId>, wanted: bool, t: TermId) -> Result<(), Fault>
    ensures { OnOk result (kept.new.items ≡ kept.old.items ++ (if wanted then t ∷ [] else [])) }
{
    if !wanted {
        return Ok(());
    }
    match kept.push(t) {
        Ok(()) => Ok(()),
        Err(_) => Err(Fault::Memory),
    }
}

/// Puts the destructor calls of a variable in a term at the end, the outer ones first.
fn put_destructors(bank: &Bank, x: Sym, t: TermId, found: &mut Vec<TermId>) -> Result<(), Fault>
    requires name { IsNamed bank.now x }
    requires term { Stands bank.now t }
    requires found { All (Stands bank.now) found.old.items }
    ensures more { OnOk result (terms_at bank.now found.new.items ≡ terms_at bank.now found.old.items ++ calls_of (text_at bank.now x) (term_at bank.now t)) }
    ensures stand { OnOk result (All (Stands bank.now) found.new.items) }
{
    match bank.node(t) {
        Node::Var(_) => Ok(()),
        Node::Num(_) => Ok(()),
        Node::App(_, _) => {
            let arguments = bank.args(t);
            let here = are_of_destructor(bank, x, arguments);
            keep_where(found, here, t)?;
            for a in arguments {
                put_destructors(bank, x, *a, found)?;
            }
            Ok(())
        }
    }
}

/// The destructor calls of a variable in a term, each once.
pub fn destructors_in(bank: &Bank, x: Sym, t: TermId) -> Result<Vec<TermId>, Fault>
    requires name { IsNamed bank.now x }
    requires term { Stands bank.now t }
    ensures are { IfOk result (λ v. terms_at bank.now v.items ≡ distinct (calls_of (text_at bank.now x) (term_at bank.now t))) }
    ensures stand { IfOk result (λ v. All (Stands bank.now) v.items) }
{
    let mut found = Vec::new(bank.alloc());
    put_destructors(bank, x, t, &mut found)?;
    match distinct_clause(bank, found.as_slice()) {
        Ok(once) => Ok(once),
        Err(_) => Err(Fault::Memory),
    }
}
