//! Histories with an axiom.
ghost use Rattle.std.specs.Prelude.{◌≡◌, nat_lt, length, IfOk, OnOk};
ghost use Rattle.nq_bank.specs.Content.{IsNamed, Stands};
ghost use Rattle.nq_history.specs.Events.{events_at, HistoryStands};
ghost use Rattle.nq_kernel.specs.Over.{TermIsIn};
ghost use Rattle.nq_kernel.specs.Ready.{IsReady};

use crate::goals::{is_in, stands};
use nq_bank::{Bank, Sym, TermId};
use nq_history::{Class, Entry, EntryKind, History, PushFault};
use std::process::Abort;
use std::test::Fail;

/// Adds an axiom with these classes.
fn push_axiom(
    bank: &Bank,
    history: &mut History,
    name: Sym,
    classes: Vec<Class>,
    t: TermId,
) -> Result<(), PushFault>
    requires stands { HistoryStands bank.now history.old }
    requires ready { IsReady (events_at bank.now history.old) }
    requires name { IsNamed bank.now name }
    requires term { Stands bank.now t }
    requires over { TermIsIn bank.now history.old t }
    ensures stands { OnOk result (HistoryStands bank.now history.new) }
    ensures ready { OnOk result (IsReady (events_at bank.now history.new)) }
{
    let entry = Entry {
        name,
        kind: EntryKind::Axiom(classes, t),
        mark: bank.mark(),
    };
    history.push(bank, entry)
}

fn named(bank: &Bank, s: Sym) -> bool
    ensures { result ≡ nat_lt s.0 (length bank.now.names) }
{
    s.0 < bank.mark().names
}

/// Adds an axiom that is one of the first terms of the bank.
fn add_axiom(
    rt: &impl Abort,
    bank: &Bank,
    history: &mut History,
    first: u64,
    name: Sym,
    classes: Vec<Class>,
    axiom: TermId,
)
    requires stands { HistoryStands bank.now history.old }
    requires ready { IsReady (events_at bank.now history.old) }
    ensures stands { HistoryStands bank.now history.new }
    ensures ready { IsReady (events_at bank.now history.new) }
{
    assert!(rt; named(bank, name));
    assert!(rt; stands(bank, axiom));
    assert!(rt; is_in(bank, history, first, axiom));
    let pushed = push_axiom(bank, history, name, classes, axiom);
    assert!(rt; pushed.is_ok());
}

/// The ground history and an axiom, with these classes, of one of the first terms of the bank.
pub fn history_with_rule(
    rt: &impl Abort,
    bank: &mut Bank,
    name: Sym,
    classes: Vec<Class>,
    axiom: TermId,
) -> Result<History, Fail>
    ensures stands { IfOk result (HistoryStands bank.new) }
    ensures ready { IfOk result (λ h. IsReady (events_at bank.new h)) }
{
    let made = bank.len();
    let mut history = History::ground(bank)?;
    add_axiom(rt, bank, &mut history, made, name, classes, axiom);
    Ok(history)
}

/// The ground history and an axiom, which is no rule, of one of the first terms of the bank.
pub fn history_with(
    rt: &impl Abort,
    bank: &mut Bank,
    name: Sym,
    axiom: TermId,
) -> Result<History, Fail>
    ensures stands { IfOk result (HistoryStands bank.new) }
    ensures ready { IfOk result (λ h. IsReady (events_at bank.new h)) }
{
    let classes = Vec::new(bank.alloc());
    history_with_rule(rt, bank, name, classes, axiom)
}
