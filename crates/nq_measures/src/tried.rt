//! The measures that are tried of a recursive definition.
ghost use Rattle.std.specs.Prelude.{◌≡◌, ◌≤◌, ◌<◌, ◌++◌, All, IfOk, OnOk, List, [], ◌∷◌, map};
ghost use Rattle.nq_logic.specs.Terms.{call};
ghost use Rattle.nq_logic.specs.Sizes.{depth_of};
ghost use Rattle.nq_bank.specs.Content.{Grows, IsIdOf, IsNamed, Stands, text_at, term_at, terms_at};
ghost use Rattle.nq_bank.specs.GroundNames.{ground_count};
ghost use Rattle.nq_bank.specs.Shells.{texts_at};
ghost use Rattle.nq_bank.specs.Soundness.{ground_text};
ghost use Rattle.nq_event.specs.EventsAt.{measure_at, MeasureStands};
ghost use Rattle.nq_events.specs.Measures.{ordinal_of, size_measure, tried_measures};
ghost use Rattle.nq_kernel.specs.Ready.{body_depth};

use nq_bank::ground::{COUNT, FIX, LESSP};
use nq_bank::{Bank, BankFault, Sym, TermId, ground_name};
use nq_event::Measure;
use std::alloc::AllocError;

/// Makes the call of a ground function at a term that is not too deep.
fn call_of_one(bank: &mut Bank, known: Sym, t: TermId) -> Result<TermId, AllocError>
    requires known { known.0 < ground_count }
    requires term { Stands bank.old t }
    requires shallow { depth_of (term_at bank.old t) ≤ body_depth }
    ensures call { IfOk result (λ c. IsIdOf bank.new c (call (ground_text known) (term_at bank.old t ∷ []))) }
    ensures grows { Grows bank.old bank.new }
    ensures names { bank.new.names ≡ bank.old.names }
{
    let name = ground_name(bank, known);
    match bank.app(name, &[t]) {
        Ok(c) => Ok(c),
        Err(BankFault::Memory) => Err(AllocError),
        Err(BankFault::Deep) => unreachable!(),
    }
}

/// The measure of a hint: under LESSP it counts as a number.
fn hinted(bank: &mut Bank, measure: Measure) -> Result<TermId, AllocError>
    requires stands { MeasureStands bank.old measure }
    requires shallow { depth_of (term_at bank.old measure.term) ≤ body_depth }
    ensures measure { IfOk result (λ t. IsIdOf bank.new t (ordinal_of (measure_at bank.old measure))) }
    ensures grows { Grows bank.old bank.new }
    ensures names { bank.new.names ≡ bank.old.names }
{
    if bank.is_ground(measure.relation, LESSP) {
        return call_of_one(bank, FIX, measure.term);
    }
    Ok(measure.term)
}

/// The size of a formal.
fn size_of(bank: &mut Bank, formal: Sym) -> Result<TermId, AllocError>
    requires { IsNamed bank.old formal }
    ensures size { IfOk result (λ t. IsIdOf bank.new t (size_measure (text_at bank.old formal))) }
    ensures grows { Grows bank.old bank.new }
    ensures names { bank.new.names ≡ bank.old.names }
{
    let variable = bank.var(formal)?;
    call_of_one(bank, COUNT, variable)
}

/// The measures of the hint, in their order.
fn all_hinted(bank: &mut Bank, measures: &[Measure]) -> Result<Vec<TermId>, AllocError>
    requires stand { All (MeasureStands bank.old) measures.now }
    requires shallow { All (λ m. depth_of (term_at bank.old m.term) ≤ body_depth) measures.now }
    ensures terms { IfOk result (λ tried. terms_at bank.new tried.items ≡ map ordinal_of (map (measure_at bank.old) measures.now)) }
    ensures stand { IfOk result (λ tried. All (Stands bank.new) tried.items) }
    ensures grows { Grows bank.old bank.new }
    ensures names { bank.new.names ≡ bank.old.names }
{
    let mut tried = Vec::new(bank.alloc());
    for measure in measures {
        let t = hinted(bank, *measure)?;
        tried.push(t)?;
    }
    Ok(tried)
}

/// The size of each formal, in their order.
fn all_sizes(bank: &mut Bank, formals: &[Sym]) -> Result<Vec<TermId>, AllocError>
    requires named { All (IsNamed bank.old) formals.now }
    ensures terms { IfOk result (λ tried. terms_at bank.new tried.items ≡ map size_measure (texts_at bank.old formals.now)) }
    ensures stand { IfOk result (λ tried. All (Stands bank.new) tried.items) }
    ensures grows { Grows bank.old bank.new }
    ensures names { bank.new.names ≡ bank.old.names }
{
    let mut tried = Vec::new(bank.alloc());
    for formal in formals {
        let t = size_of(bank, *formal)?;
        tried.push(t)?;
    }
    Ok(tried)
}

/// Makes the measures that are tried of a definition: those of the hint in their order, and then the size of each formal.
pub fn tried_measures(
    bank: &mut Bank,
    formals: &[Sym],
    measures: &[Measure],
) -> Result<Vec<TermId>, AllocError>
    requires named { All (IsNamed bank.old) formals.now }
    requires stand { All (MeasureStands bank.old) measures.now }
    requires shallow { All (λ m. depth_of (term_at bank.old m.term) ≤ body_depth) measures.now }
    ensures terms { IfOk result (λ tried. terms_at bank.new tried.items ≡ tried_measures (texts_at bank.old formals.now) (map (measure_at bank.old) measures.now)) }
    ensures stand { IfOk result (λ tried. All (Stands bank.new) tried.items) }
    ensures grows { Grows bank.old bank.new }
    ensures names { bank.new.names ≡ bank.old.names }
{
    let mut tried = all_hinted(bank, measures)?;
    let sizes = all_sizes(bank, formals)?;
    tried.extend_from_slice(sizes.as_slice())?;
    Ok(tried)
}
