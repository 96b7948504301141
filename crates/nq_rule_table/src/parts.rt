//! The parts of a conclusion, the functions of their left sides, and whether they say that these are true.
ghost use Rattle.std.specs.Prelude.{◌≡◌, ◌≤◌, ◌++◌, IfOk, OnOk, IfSome, All, length};
ghost use Rattle.nq_logic.specs.RuleShapes.{and_parts, rule_parts};
ghost use Rattle.nq_bank.specs.declared.node.Sym.{Sym};
ghost use Rattle.nq_bank.specs.Content.{Stands, IsNamed, term_at, terms_at};
ghost use Rattle.nq_rule_table.specs.Rules as rule;
ghost use Rattle.nq_rule_table.specs.Rules.{is_about, is_it, part_limit, permutes};

use nq_bank::{Bank, Node, Sym, TermId, ground};
use nq_clause::match_term;
use nq_rules::{conclusion_of, left_side, one_of, two_of};
use std::alloc::AllocError;

/// Puts the AND parts of a term at the end.
fn put_parts(bank: &Bank, parts: &mut Vec<TermId>, t: TermId) -> Result<(), AllocError>
    requires term { Stands bank.now t }
    requires stand { All (Stands bank.now) parts.old.items }
    ensures parts { OnOk result (terms_at bank.now parts.new.items ≡ terms_at bank.now parts.old.items ++ and_parts (term_at bank.now t)) }
    ensures stand { OnOk result (All (Stands bank.now) parts.new.items) }
{
    match two_of(bank, ground::AND, t) {
        Some((p, q)) => {
            put_parts(bank, parts, p)?;
            put_parts(bank, parts, q)?;
            Ok(())
        }
        None => {
            parts.push(t)?;
            Ok(())
        }
    }
}

/// The AND parts of the conclusion of a term. More of them than can be numbered are answered as a lack of memory.
pub fn parts_of(bank: &Bank, t: TermId) -> Result<Vec<TermId>, AllocError>
    requires { Stands bank.now t }
    ensures parts { IfOk result (λ parts. terms_at bank.now parts.items ≡ and_parts (rule_parts (term_at bank.now t)).conclusion) }
    ensures stand { IfOk result (λ parts. All (Stands bank.now) parts.items) }
    ensures few { IfOk result (λ parts. length parts.items ≤ part_limit) }
{
    let mut parts = Vec::new(bank.alloc());
    put_parts(bank, &mut parts, conclusion_of(bank, t))?;
    if parts.len() > PART_LIMIT {
        return Err(AllocError);
    }
    Ok(parts)
}

/// How many parts can be numbered.
const PART_LIMIT: usize = 4_294_967_296;

/// The function that a part is a rule about, if it is a rule: that of its left side, where this is a call and no value.
pub fn function_of(bank: &Bank, part: TermId) -> Option<Sym>
    requires { Stands bank.now part }
    ensures about { (g : Sym) → is_about bank.now g (term_at bank.now part) ≡ is_it g result }
    ensures stands { IfSome result (λ f. IsNamed bank.now f) }
{
    bank.is_sound();
    let left = left_side(bank, part);
    if bank.is_value(left) {
        return None;
    }
    match bank.node(left) {
        Node::App(f, _) => Some(f),
        Node::Num(_) => None,
        Node::Var(_) => None,
    }
}

/// Does a part say that its left side is true, and not what it equals or that it is false?
pub fn says_true(bank: &Bank, part: TermId) -> bool
    requires { Stands bank.now part }
    ensures { result ≡ rule.says_true (term_at bank.now part) }
{
    match two_of(bank, ground::EQUAL, part) {
        Some(_) => false,
        None => match one_of(bank, ground::NOT, part) {
            Some(_) => false,
            None => true,
        },
    }
}

/// Is one term an instance of another?
fn is_instance(bank: &Bank, pattern: TermId, t: TermId) -> Result<bool, AllocError>
    requires pattern { Stands bank.now pattern }
    requires term { Stands bank.now t }
    ensures { IfOk result (λ b. b ≡ rule.is_instance (term_at bank.now pattern) (term_at bank.now t)) }
{
    let mut bindings = Vec::new(bank.alloc());
    let fits = match_term(bank, pattern, t, &mut bindings)?;
    Ok(fits)
}

/// Is a part an equation whose right side is an instance of its left side?
pub fn is_permuting(bank: &Bank, part: TermId) -> Result<bool, AllocError>
    requires { Stands bank.now part }
    ensures { IfOk result (λ b. b ≡ permutes (term_at bank.now part)) }
{
    match two_of(bank, ground::EQUAL, part) {
        Some((left, right)) => {
            let fits = is_instance(bank, left, right)?;
            Ok(fits)
        }
        None => Ok(false),
    }
}
