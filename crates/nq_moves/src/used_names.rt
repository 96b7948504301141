//! The names of the variables that stand in terms.
ghost use Rattle.std.specs.Prelude.{◌≡◌, bytes_eq, All, IfOk, OnOk, Err};
ghost use Rattle.nq_proof.specs.Clauses.{Clause};
ghost use Rattle.nq_bank.specs.Content.{Stands, IsNamed, text_at, term_at, terms_at};
ghost use Rattle.nq_bank.specs.Parts.{occurs};
ghost use Rattle.nq_moves.specs.Naming.{occurs_in_one};
ghost use Rattle.nq_moves.specs.UsedNames.{Adds, AreNamed, AreKnown, AreNamesOf};

use crate::known::{keep_answer, known_answer};
use nq_bank::{Bank, Node, Sym, TermId};
use nq_kernel::Stop;
use std::alloc::AllocError;
use std::collections::HashMap;

/// Keeps the name of a variable.
fn keep_name(bank: &Bank, names: &mut HashMap<u64, bool>, s: Sym) -> Result<(), AllocError>
    requires name { IsNamed bank.now s }
    requires named { AreNamed bank.now names.old }
    ensures adds { OnOk result (Adds bank.now names.old names.new (λ x. bytes_eq x (text_at bank.now s))) }
    ensures named { OnOk result (AreNamed bank.now names.new) }
{
    bank.is_sound();
    names.insert(s.0, true)?;
    Ok(())
}

/// Keeps the names of the variables of a term, where those of some terms are kept. Each shared node is looked at once.
fn add_names(
    bank: &Bank,
    known: &mut HashMap<u64, bool>,
    names: &mut HashMap<u64, bool>,
    t: TermId,
) -> Result<(), AllocError>
    requires stands { Stands bank.now t }
    requires known { AreKnown bank.now known.old names.old }
    requires named { AreNamed bank.now names.old }
    ensures adds { OnOk result (Adds bank.now names.old names.new (λ x. occurs x (term_at bank.now t))) }
    ensures known { OnOk result (AreKnown bank.now known.new names.new) }
    ensures named { OnOk result (AreNamed bank.now names.new) }
{
    match bank.node(t) {
        Node::Var(s) => {
            keep_name(bank, names, s)?;
            Ok(())
        }
        Node::Num(_) => Ok(()),
        Node::App(_, _) => match known_answer(known, t) {
            Some(_) => Ok(()),
            None => {
                for a in bank.args(t) {
                    add_names(bank, known, names, *a)?;
                }
                keep_answer(known, t, true)?;
                Ok(())
            }
        },
    }
}

/// The names of the variables that stand in these terms. Each shared node is looked at once.
fn collect_names(bank: &Bank, terms: &[TermId]) -> Result<HashMap<u64, bool>, AllocError>
    requires { All (Stands bank.now) terms.now }
    ensures { IfOk result (λ names. AreNamesOf bank.now names (terms_at bank.now terms.now)) }
{
    bank.is_sound();
    let mut known = HashMap::new(bank.alloc());
    let mut names = HashMap::new(bank.alloc());
    for t in terms {
        add_names(bank, &mut known, &mut names, *t)?;
    }
    Ok(names)
}

/// The same, and want of memory stops the work.
pub fn names_in(bank: &Bank, terms: &[TermId]) -> Result<HashMap<u64, bool>, Stop>
    requires { All (Stands bank.now) terms.now }
    ensures names { IfOk result (λ names. AreNamesOf bank.now names (terms_at bank.now terms.now)) }
    ensures memory { result ≡ Err Stop.OutOfSteps → ⊥ }
{
    match collect_names(bank, terms) {
        Ok(names) => Ok(names),
        Err(_) => Err(Stop::Memory),
    }
}

/// Does the variable of a name stand in terms that have these names? It looks at none of the terms.
pub fn is_used(bank: &Bank, names: &HashMap<u64, bool>, s: Sym) -> bool
    requires { IsNamed bank.now s }
    ensures { (c : Clause) → AreNamesOf bank.now names.now c → result ≡ occurs_in_one (text_at bank.now s) c }
{
    bank.is_sound();
    names.contains_key(&s.0)
}
