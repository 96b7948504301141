//! The rules of an entry, put into their lists.
ghost use Rattle.std.specs.Prelude.{◌≡◌, ◌≤◌, ◌<◌, ◌++◌, OnOk, All, length};
ghost use Rattle.std.specs.List.{filter};
ghost use Rattle.nq_bank.specs.declared.node.Sym.{Sym};
ghost use Rattle.nq_bank.specs.Content.{Stands, term_at, terms_at};
ghost use Rattle.nq_rule_table.specs.Rules as rule;
ghost use Rattle.nq_rule_table.specs.Rules.{is_about, part_limit, part_rule, parts_rules, rule_if, term_rules};
ghost use Rattle.nq_rule_table.specs.Tables.{is_early, list_at};

use crate::lists::put_rule;
use crate::parts::{function_of, is_permuting, parts_of, says_true};
use crate::rule::RuleRef;
use nq_bank::{Bank, Sym, TermId};
use nq_history::Class;
use std::alloc::AllocError;

/// Is REWRITE among these classes?
fn has_rewrite(classes: &[Class]) -> bool
    ensures { result ≡ rule.has_rewrite classes.now }
{
    match classes {
        [] => false,
        [first, rest @ ..] => match first {
            Class::Rewrite => true,
            Class::Elim => has_rewrite(rest),
            Class::Generalize => has_rewrite(rest),
        },
    }
}

/// Puts the rule that a part is into the list of its function. The rules of earlier entries stay.
fn put_part(
    bank: &Bank,
    lists: &mut Vec<Vec<RuleRef>>,
    event: Sym,
    place: u64,
    number: u32,
    part: TermId,
) -> Result<(), AllocError>
    requires { Stands bank.now part }
    ensures ok { OnOk result ((f : Sym) → list_at lists.new.items f ≡ list_at lists.old.items f ++ rule_if (is_about bank.now f (term_at bank.now part)) (part_rule event place number (term_at bank.now part))) }
    ensures early { (f : Sym) → filter (is_early place) (list_at lists.new.items f) ≡ filter (is_early place) (list_at lists.old.items f) }
{
    match function_of(bank, part) {
        Some(f) => {
            let truth = says_true(bank, part);
            let permutes = is_permuting(bank, part)?;
            let rule = RuleRef {
                event,
                part: number,
                place,
                truth,
                permutes,
            };
            put_rule(bank.alloc(), lists, f, rule)?;
            Ok(())
        }
        None => Ok(()),
    }
}

/// Puts the rules that parts are into the lists of their functions, the last part first. The rules of earlier entries stay.
fn put_each(
    bank: &Bank,
    lists: &mut Vec<Vec<RuleRef>>,
    event: Sym,
    place: u64,
    parts: &[TermId],
) -> Result<(), AllocError>
    requires stand { All (Stands bank.now) parts.now }
    requires few { length parts.now ≤ part_limit }
    ensures ok { OnOk result ((f : Sym) → list_at lists.new.items f ≡ list_at lists.old.items f ++ parts_rules bank.now f event place 0 (terms_at bank.now parts.now)) }
    ensures early { (f : Sym) → filter (is_early place) (list_at lists.new.items f) ≡ filter (is_early place) (list_at lists.old.items f) }
{
    let count = parts.len();
    for done in 0..count {
        let at = count - 1 - done;
        put_part(bank, lists, event, place, at as u32, parts[at])?;
    }
    Ok(())
}

/// Puts the rules of an axiom or a lemma into the lists of their functions. The rules of earlier entries stay.
pub fn put_rules(
    bank: &Bank,
    lists: &mut Vec<Vec<RuleRef>>,
    event: Sym,
    place: u64,
    classes: &[Class],
    t: TermId,
) -> Result<(), AllocError>
    requires { Stands bank.now t }
    ensures ok { OnOk result ((f : Sym) → list_at lists.new.items f ≡ list_at lists.old.items f ++ term_rules bank.now f event place classes.now t) }
    ensures early { (f : Sym) → filter (is_early place) (list_at lists.new.items f) ≡ filter (is_early place) (list_at lists.old.items f) }
{
    if !has_rewrite(classes) {
        return Ok(());
    }
    let parts = parts_of(bank, t)?;
    put_each(bank, lists, event, place, parts.as_slice())?;
    Ok(())
}
