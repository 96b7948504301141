//! The measures of a definition.
ghost use Rattle.std.specs.Prelude.{◌≡◌, All, IfOk, IfErr, map};
ghost use Rattle.nq_bank.specs.Content.{Grows};
ghost use Rattle.nq_sexp.specs.Tree.{tree};
ghost use Rattle.nq_events.specs.Parts.{measure_in};
ghost use Rattle.nq_events.specs.TermRefusals.{measure_forms, term_refusal, terms_refusal};
ghost use Rattle.nq_events.specs.Reading.{measure_given};
ghost use Rattle.nq_event.specs.Arities.{arities_at, FunctionsStand};
ghost use Rattle.nq_event.specs.EventsAt.{measure_at as measure_of, MeasureStands};
ghost use Rattle.nq_event.specs.Reads.{value_or};
ghost use Rattle.nq_event.specs.Readings.{IsReadAs, IsToldOf};
ghost use Rattle.nq_event.specs.Shapes.{measure_at, measures_at, no_measure};

use crate::arities::Functions;
use crate::event::Measure;
use crate::fault::EventFault;
use crate::parts::{MeasureOutline, measure_of};
use crate::terms::term_by;
use nq_bank::Bank;
use nq_sexp::Sexp;

/// A measure with its term.
fn measure_by(
    bank: &mut Bank,
    functions: &Functions<'_>,
    outline: &MeasureOutline<'_>,
) -> Result<Measure, EventFault>
    requires { FunctionsStand bank.old functions.now }
    ensures read { IfOk result (IsReadAs (MeasureStands bank.new) (measure_of bank.new) (term_refusal (arities_at bank.old functions.now) (measure_at outline.now).form) (measure_given (arities_at bank.old functions.now) (measure_at outline.now))) }
    ensures refused { IfErr result (IsToldOf (term_refusal (arities_at bank.old functions.now) (measure_at outline.now).form)) }
    ensures grows { Grows bank.old bank.new }
{
    let term = term_by(bank, functions, outline.form)?;
    let relation = bank.name(outline.relation)?;
    Ok(Measure { relation, term })
}

/// The measure of a form. Any other form is one of the empty names.
#[tactic(auto, using(nq_sexp::proofs::Trees::tree_rules))]
fn measure_or_none(
    bank: &mut Bank,
    functions: &Functions<'_>,
    form: &Sexp<'_>,
) -> Result<Measure, EventFault>
    requires { FunctionsStand bank.old functions.now }
    ensures read { IfOk result (IsReadAs (MeasureStands bank.new) (measure_of bank.new) (term_refusal (arities_at bank.old functions.now) (value_or no_measure (measure_in (tree form.now))).form) (measure_given (arities_at bank.old functions.now) (value_or no_measure (measure_in (tree form.now))))) }
    ensures refused { IfErr result (IsToldOf (term_refusal (arities_at bank.old functions.now) (value_or no_measure (measure_in (tree form.now))).form)) }
    ensures grows { Grows bank.old bank.new }
{
    match measure_of(form) {
        Some(outline) => measure_by(bank, functions, &outline),
        None => {
            let empty = Sexp::Symbol(b"");
            let outline = MeasureOutline {
                relation: b"",
                form: &empty,
            };
            measure_by(bank, functions, &outline)
        }
    }
}

/// The measures of forms, in their order; or the first refusal of the term of one.
pub fn measures_by(
    bank: &mut Bank,
    functions: &Functions<'_>,
    forms: &[Sexp<'_>],
) -> Result<Vec<Measure>, EventFault>
    requires { FunctionsStand bank.old functions.now }
    ensures read { IfOk result (IsReadAs (λ measures. All (MeasureStands bank.new) measures.items) (λ measures. map (measure_of bank.new) measures.items) (terms_refusal (arities_at bank.old functions.now) (measure_forms (measures_at forms.now))) (map (measure_given (arities_at bank.old functions.now)) (measures_at forms.now))) }
    ensures refused { IfErr result (IsToldOf (terms_refusal (arities_at bank.old functions.now) (measure_forms (measures_at forms.now)))) }
    ensures grows { Grows bank.old bank.new }
{
    let mut measures = Vec::new(bank.alloc());
    for form in forms {
        let measure = measure_or_none(bank, functions, form)?;
        measures.push(measure)?;
    }
    Ok(measures)
}
