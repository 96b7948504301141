//! Whether a definition is admitted.
ghost use Rattle.std.specs.Prelude.{◌≡◌, ◌&&◌, All, IfErr, List, map};
ghost use Rattle.nq_logic.specs.Admissible.{has_variables};
ghost use Rattle.nq_bank.specs.Content.{IsNamed, text_at, term_at};
ghost use Rattle.nq_bank.specs.Shells.{texts_at};
ghost use Rattle.nq_bank.specs.declared.node.Sym.{Sym};
ghost use Rattle.nq_history.specs.Events.{HistoryStands};
ghost use Rattle.nq_event.specs.EventsAt.{measure_at, DefnStands, MeasureStands};
ghost use Rattle.nq_events.specs.OwnRefusals.{are_good_measures, is_relation};
ghost use Rattle.nq_admit.specs.Admission.{IsAdmission, IsNamedFault, refusal_at};
ghost use Rattle.nq_admit.specs.Formals.{IsSetOf};
ghost use Rattle.nq_admit.specs.declared.admission.AdmitFault.TheVariants.{Memory};

use crate::formals::{first_constant, first_repeated, formal_set};
use crate::terms::first_free;
use nq_bank::ground::{LESSP, ORD_LESSP};
use nq_bank::{Bank, Sym, TermId};
use nq_event::Measure;
use nq_history::{EVENT_LIMIT, History};
use std::alloc::AllocError;
use std::collections::HashSet;
use thiserror::Error;

/// Why a definition is not admitted.
#[derive(Clone, Copy, Debug, PartialEq, Eq, Error)]
pub enum AdmitFault {
    /// The name is in use.
    #[error("the name is in use")]
    NameInUse,
    /// A formal is T, F or NIL: the first such one.
    #[error("a formal is a constant")]
    FormalIsConstant(Sym),
    /// A formal stands twice: the first such one.
    #[error("a formal stands twice")]
    RepeatedFormal(Sym),
    /// A variable of the body is no formal: the first such one.
    #[error("a variable is free")]
    FreeVariable(Sym),
    /// A hint names another relation than LESSP and ORD-LESSP, or a measure with a variable that is no formal.
    #[error("a bad measure hint")]
    BadMeasureHint,
    /// As many events stand as may.
    #[error("too many events")]
    TooManyEvents,
    /// Memory is wanting.
    #[error("out of memory")]
    Memory,
}

impl From<AllocError> for AdmitFault {
    ghost from_gives = { λ _ e. e ≡ Memory };

    fn from(_: AllocError) -> Self {
        AdmitFault::Memory
    }
}

/// Is it one of the relations under which a measure may fall: LESSP or ORD-LESSP?
fn is_relation(bank: &Bank, relation: Sym) -> bool
    requires { IsNamed bank.now relation }
    ensures { result ≡ is_relation (text_at bank.now relation) }
{
    bank.is_ground(relation, LESSP) || bank.is_ground(relation, ORD_LESSP)
}

/// Is a measure over the formals, under a relation that is known?
fn is_good_measure(bank: &Bank, formals: &HashSet<u64>, measure: Measure) -> bool
    requires { MeasureStands bank.now measure }
    ensures { (names : List Sym) → IsSetOf bank.now names formals.now
        → result ≡ (is_relation (text_at bank.now measure.relation) && has_variables (texts_at bank.now names) (term_at bank.now measure.term)) }
{
    if !is_relation(bank, measure.relation) {
        return false;
    }
    first_free(bank, formals, measure.term).is_none()
}

/// Is each measure over the formals, under a relation that is known?
fn are_good_measures(bank: &Bank, formals: &HashSet<u64>, measures: &[Measure]) -> bool
    requires { All (MeasureStands bank.now) measures.now }
    ensures { (names : List Sym) → IsSetOf bank.now names formals.now
        → result ≡ are_good_measures (texts_at bank.now names) (map (measure_at bank.now) measures.now) }
{
    for measure in measures {
        if !is_good_measure(bank, formals, *measure) {
            return false;
        }
    }
    true
}

/// Whether a function may be defined so: its name is in no use, its formals are distinct variables, its body has no other
/// variables, each measure that is hinted is over the formals under a relation that is known, and there is room. The first
/// fault is answered.
pub fn admit(
    bank: &Bank,
    history: &History,
    name: Sym,
    formals: &[Sym],
    body: TermId,
    measures: &[Measure],
) -> Result<(), AdmitFault>
    requires history { HistoryStands bank.now history.now }
    requires event { DefnStands bank.now name formals.now body measures.now }
    ensures answer { IsAdmission bank.now (text_at bank.now name) (refusal_at bank.now history.now name formals.now body measures.now) result }
    ensures named { IfErr result (IsNamedFault bank.now) }
{
    if history.in_use(bank, name) {
        return Err(AdmitFault::NameInUse);
    }
    if let Some(formal) = first_constant(bank, formals) {
        return Err(AdmitFault::FormalIsConstant(formal));
    }
    if let Some(formal) = first_repeated(bank, formals)? {
        return Err(AdmitFault::RepeatedFormal(formal));
    }
    let known = formal_set(bank, formals)?;
    if let Some(variable) = first_free(bank, &known, body) {
        return Err(AdmitFault::FreeVariable(variable));
    }
    if !are_good_measures(bank, &known, measures) {
        return Err(AdmitFault::BadMeasureHint);
    }
    if history.past_ground().len() >= EVENT_LIMIT {
        return Err(AdmitFault::TooManyEvents);
    }
    Ok(())
}
