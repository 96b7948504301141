//! The instances that hints name, and their negations.
ghost use Rattle.std.specs.Prelude.{◌≡◌, IfOk, IfSome};
ghost use Rattle.std.specs.Option.{option_map};
ghost use Rattle.nq_logic.specs.Words.{not_term};
ghost use Rattle.nq_bank.specs.Content.{Grows, IsIdOf, IsNamed, Stands, term_at, text_at};
ghost use Rattle.nq_history.specs.Events.{HistoryStands, events_at};
ghost use Rattle.nq_history.specs.Hints.{InstanceStands};
ghost use Rattle.nq_events.specs.HintRefusals.{instance_term, term_named};
ghost use Rattle.nq_event.specs.EventsAt.{instance_at};

use crate::stated::stated;
use nq_bank::{Bank, BankFault, Sym, TermId, ground, ground_name};
use nq_clause::substitute;
use nq_history::{History, Instance};

/// The NOT of a term.
fn denied(bank: &mut Bank, t: TermId) -> Result<TermId, BankFault>
    requires { Stands bank.old t }
    ensures ok { IfOk result (λ r. IsIdOf bank.new r (not_term (term_at bank.old t))) }
    ensures grows { Grows bank.old bank.new }
    ensures names { bank.new.names ≡ bank.old.names }
{
    let not = ground_name(bank, ground::NOT);
    bank.app(not, &[t])
}

/// The term that the event of this name states.
fn named(bank: &mut Bank, history: &History, name: Sym) -> Result<Option<TermId>, BankFault>
    requires history { HistoryStands bank.old history.now }
    requires name { IsNamed bank.old name }
    ensures is { IfOk result (λ o. option_map (term_at bank.new) o ≡ term_named (events_at bank.old history.now) (text_at bank.old name)) }
    ensures stands { IfOk result (λ o. IfSome o (Stands bank.new)) }
    ensures grows { Grows bank.old bank.new }
    ensures names { bank.new.names ≡ bank.old.names }
{
    bank.is_sound();
    match history.lookup(name) {
        Some(entry) => stated(bank, entry),
        None => Ok(None),
    }
}

/// The term of an instance: that of the axiom, lemma or definition that it names, with its terms in place of variables. None
/// exactly where the name is of no such event.
pub fn instance_term(
    bank: &mut Bank,
    history: &History,
    instance: &Instance,
) -> Result<Option<TermId>, BankFault>
    requires history { HistoryStands bank.old history.now }
    requires instance { InstanceStands bank.old instance.now }
    ensures is { IfOk result (λ o. option_map (term_at bank.new) o ≡ instance_term (events_at bank.old history.now) (instance_at bank.old instance.now)) }
    ensures stands { IfOk result (λ o. IfSome o (Stands bank.new)) }
    ensures grows { Grows bank.old bank.new }
    ensures names { bank.new.names ≡ bank.old.names }
{
    match named(bank, history, instance.name)? {
        Some(t) => {
            let r = substitute(bank, t, instance.pairs.as_slice())?;
            Ok(Some(r))
        }
        None => Ok(None),
    }
}

/// The NOT of the term of an instance.
pub(crate) fn denied_instance(
    bank: &mut Bank,
    history: &History,
    instance: &Instance,
) -> Result<Option<TermId>, BankFault>
    requires history { HistoryStands bank.old history.now }
    requires instance { InstanceStands bank.old instance.now }
    ensures is { IfOk result (λ o. option_map (term_at bank.new) o ≡ option_map not_term (instance_term (events_at bank.old history.now) (instance_at bank.old instance.now))) }
    ensures stands { IfOk result (λ o. IfSome o (Stands bank.new)) }
    ensures grows { Grows bank.old bank.new }
    ensures names { bank.new.names ≡ bank.old.names }
{
    match instance_term(bank, history, instance)? {
        Some(t) => {
            let r = denied(bank, t)?;
            Ok(Some(r))
        }
        None => Ok(None),
    }
}
