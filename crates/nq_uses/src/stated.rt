//! The term that an axiom, a lemma or a definition states.
ghost use Rattle.std.specs.Prelude.{◌≡◌, IfOk, IfSome};
ghost use Rattle.std.specs.Option.{option_map};
ghost use Rattle.nq_bank.specs.Content.{Grows, Stands, term_at};
ghost use Rattle.nq_history.specs.Events.{EntryStands, event_at};
ghost use Rattle.nq_events.specs.HintRefusals.{cited_term};

use crate::equations::equation;
use nq_bank::{Bank, BankFault, TermId};
use nq_history::{Entry, EntryKind};

/// The term of an axiom or a lemma, or the defining equation of a definition.
pub(crate) fn stated(bank: &mut Bank, entry: &Entry) -> Result<Option<TermId>, BankFault>
    requires { EntryStands bank.old entry.now }
    ensures is { IfOk result (λ o. option_map (term_at bank.new) o ≡ cited_term (event_at bank.old entry.now)) }
    ensures stands { IfOk result (λ o. IfSome o (Stands bank.new)) }
    ensures grows { Grows bank.old bank.new }
    ensures names { bank.new.names ≡ bank.old.names }
{
    match &entry.kind {
        EntryKind::Axiom(_, t) => Ok(Some(*t)),
        EntryKind::Lemma(_, t) => Ok(Some(*t)),
        EntryKind::Defn(formals, body, _) => {
            let t = equation(bank, entry.name, formals.as_slice(), *body)?;
            Ok(Some(t))
        }
        EntryKind::Shell(_) => Ok(None),
        EntryKind::Dcl(_) => Ok(None),
        EntryKind::Toggle(_, _) => Ok(None),
    }
}
