//! Rules in lists, one for each function, by the numbers of their names.
ghost use Rattle.std.specs.Prelude.{◌≡◌, ◌<◌, ◌++◌, OnOk, length, nat_eq};
ghost use Rattle.std.specs.List.{filter};
ghost use Rattle.nq_bank.specs.declared.node.Sym.{Sym};
ghost use Rattle.nq_rule_table.specs.Rules.{rule_if};
ghost use Rattle.nq_rule_table.specs.Tables.{is_early, list_at};

use crate::rule::RuleRef;
use nq_bank::Sym;
use std::alloc::{AllocError, Global};

/// Makes room for the list of a function. The rules stay.
fn widen(alloc: Global, lists: &mut Vec<Vec<RuleRef>>, f: Sym) -> Result<(), AllocError>
    ensures room { OnOk result (f.0 < length lists.new.items) }
    ensures same { (g : Sym) → list_at lists.new.items g ≡ list_at lists.old.items g }
{
    while lists.len() as u64 <= f.0 {
        lists.push(Vec::new(alloc))?;
    }
    Ok(())
}

/// Puts a rule at the end of the list of a function that has one. The rules of earlier entries stay.
fn put_at(lists: &mut Vec<Vec<RuleRef>>, f: Sym, rule: RuleRef) -> Result<(), AllocError>
    requires { f.0 < length lists.old.items }
    ensures ok { OnOk result ((g : Sym) → list_at lists.new.items g ≡ list_at lists.old.items g ++ rule_if (nat_eq g.0 f.0) rule) }
    ensures early { (g : Sym) → filter (is_early rule.place) (list_at lists.new.items g) ≡ filter (is_early rule.place) (list_at lists.old.items g) }
{
    lists[f.0 as usize].push(rule)?;
    Ok(())
}

/// Puts a rule at the end of the list of a function. The rules of earlier entries stay.
pub fn put_rule(
    alloc: Global,
    lists: &mut Vec<Vec<RuleRef>>,
    f: Sym,
    rule: RuleRef,
) -> Result<(), AllocError>
    ensures ok { OnOk result ((g : Sym) → list_at lists.new.items g ≡ list_at lists.old.items g ++ rule_if (nat_eq g.0 f.0) rule) }
    ensures early { (g : Sym) → filter (is_early rule.place) (list_at lists.new.items g) ≡ filter (is_early rule.place) (list_at lists.old.items g) }
{
    widen(alloc, lists, f)?;
    put_at(lists, f, rule)?;
    Ok(())
}

/// Keeps the rules of the first entries, so many of them, in a list.
fn keep_early(list: &mut Vec<RuleRef>, kept: u64)
    ensures { list.new.items ≡ filter (is_early kept) list.old.items }
{
    list.retain(|rule| rule.place < kept);
}

/// Keeps the rules of the first entries, so many of them, in each list. It takes no memory.
pub fn keep_each(lists: &mut Vec<Vec<RuleRef>>, kept: u64)
    ensures { (f : Sym) → list_at lists.new.items f ≡ filter (is_early kept) (list_at lists.old.items f) }
{
    for i in 0..lists.len() {
        keep_early(&mut lists[i], kept);
    }
}
