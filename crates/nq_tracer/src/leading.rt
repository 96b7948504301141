//! The induction that a call in a goal suggests.
ghost use Rattle.std.specs.Prelude.{◌≡◌, ◌<◌, All, get_or, length, IfOk, IfSome, None, Some, true};
ghost use Rattle.nq_logic.specs.Terms.{IsTerm};
ghost use Rattle.nq_logic.specs.Ground.{symbols_of};
ghost use Rattle.nq_logic.specs.Histories as logic;
ghost use Rattle.nq_logic.specs.Numerals.{number_of};
ghost use Rattle.nq_bank.specs.Content.{Grows, IsIdOf, IsNamed, Stands, term_at, terms_at, text_at};
ghost use Rattle.nq_bank.specs.Parts.{parts_of};
ghost use Rattle.nq_bank.specs.Shells.{texts_at};
ghost use Rattle.nq_history.specs.Events.{HistoryStands, events_at};
ghost use Rattle.nq_kernel.specs.Ready.{IsReady};
ghost use Rattle.nq_logic.specs.Admissible.{calls_of, matched};
ghost use Rattle.nq_clause.specs.Substitution.{PairStands, substitution_at};
ghost use Rattle.nq_calls.specs.Calls.{SiteStands, site_at, sites_at};
ghost use Rattle.nq_calls.specs.Mentions.{IsApart};
ghost use Rattle.nq_events.specs.Inductions.{suggests_by};
ghost use Rattle.nq_event.specs.Definitions.{DefinitionStands, definition_at};
ghost use Rattle.nq_goals.specs.Inducting.{claim_of};
ghost use Rattle.nq_tracer.specs.Leads.{IsInductionOf, IsSuggestedBy, LeadsBy, LeadsFrom, NextsStand};

use crate::drafts::{draft_of, pairs_of};
use crate::laws::{calls_give_cases, definitions_fall};
use crate::nexts::{Nexts, nexts_of};
use crate::sites::calls_within;
use nq_bank::{Bank, BankFault, Node, Sym, TermId, ground};
use nq_calls::Site;
use nq_clause::Pair;
use nq_event::{Definition, are_distinct_variables, definition_called, measured};
use nq_history::History;
use std::alloc::AllocError;

/// The size from which on a body is not walked.
const SIZE_LIMIT: u64 = 20000;

/// Is it none of the functions of which numerals and the NOTs of tests are built?
fn is_apart(bank: &Bank, f: Sym) -> bool
    requires { IsNamed bank.now f }
    ensures { result ≡ true → IsApart (text_at bank.now f) }
{
    !bank.is_ground(f, ground::ZERO)
        && !bank.is_ground(f, ground::ADD1)
        && !bank.is_ground(f, ground::NOT)
}

/// Does a call with these arguments suggest an induction by the measure?
fn suggests(
    bank: &Bank,
    formals: &[Sym],
    measure: TermId,
    arguments: &[TermId],
) -> Result<bool, AllocError>
    requires formals { All (IsNamed bank.now) formals.now }
    requires measure { Stands bank.now measure }
    requires arguments { All (Stands bank.now) arguments.now }
    ensures { IfOk result (λ b. (d : logic.Definition) → d.formals ≡ texts_at bank.now formals.now → b ≡ suggests_by d (Some (term_at bank.now measure)) (terms_at bank.now arguments.now)) }
{
    let variables = measured(bank, formals, arguments, measure)?;
    Ok(are_distinct_variables(bank, variables.as_slice()))
}

/// The goals of the induction by the recursive call at a place among some.
fn lead_from(
    bank: &mut Bank,
    p: TermId,
    definition: Definition<'_>,
    measure: TermId,
    here: &[Pair],
    sites: &[Site],
    place: usize,
) -> Result<Nexts, BankFault>
    requires claim { Stands bank.old p }
    requires definition { DefinitionStands bank.old definition }
    requires measure { Stands bank.old measure }
    requires here { All (PairStands bank.old) here.now }
    requires sites { All (SiteStands bank.old) sites.now }
    requires place { place < length sites.now }
    ensures leads { IfOk result (λ n. (d : Site) → LeadsFrom (texts_at bank.old definition.entry.formals.now) (term_at bank.old measure) (substitution_at bank.old here.now) (site_at bank.old (get_or sites.now place d)) (term_at bank.old p) bank.new n) }
    ensures stand { IfOk result (NextsStand bank.new) }
    ensures grows { Grows bank.old bank.new }
{
    let site = &sites[place];
    let draft = draft_of(bank, definition.formals, measure, here, site)?;
    let nexts = nexts_of(bank, p, &draft)?;
    Ok(nexts)
}

/// The recursive calls in the body of a function.
fn sites_of(bank: &Bank, definition: Definition<'_>) -> Result<Vec<Site>, BankFault>
    requires definition { DefinitionStands bank.now definition }
    requires apart { IsApart (text_at bank.now definition.name) }
    ensures calls { IfOk result (λ v. sites_at bank.now v.items ≡ calls_of (text_at bank.now definition.entry.name) (term_at bank.now definition.entry.body)) }
    ensures stand { IfOk result (λ v. All (SiteStands bank.now) v.items) }
{
    match calls_within(bank, definition.name, definition.body) {
        Ok(sites) => Ok(sites),
        Err(_) => Err(BankFault::Memory),
    }
}

/// Each formal with its argument.
fn pairs_here(bank: &Bank, formals: &[Sym], arguments: &[TermId]) -> Result<Vec<Pair>, BankFault>
    requires formals { All (IsNamed bank.now) formals.now }
    requires arguments { All (Stands bank.now) arguments.now }
    ensures pairs { IfOk result (λ v. substitution_at bank.now v.items ≡ matched (texts_at bank.now formals.now) (terms_at bank.now arguments.now)) }
    ensures stand { IfOk result (λ v. All (PairStands bank.now) v.items) }
{
    match pairs_of(bank, formals, arguments) {
        Ok(pairs) => Ok(pairs),
        Err(_) => Err(BankFault::Memory),
    }
}

/// The goals of the induction by the first recursive call in a body.
fn lead_with(
    bank: &mut Bank,
    p: TermId,
    definition: Definition<'_>,
    measure: TermId,
    arguments: &[TermId],
) -> Result<Option<Nexts>, BankFault>
    requires claim { Stands bank.old p }
    requires definition { DefinitionStands bank.old definition }
    requires measure { Stands bank.old measure }
    requires arguments { All (Stands bank.old) arguments.now }
    requires apart { IsApart (text_at bank.old definition.name) }
    ensures leads { IfOk result (λ found. IfSome found (λ n. LeadsBy (definition_at bank.old definition.entry) (term_at bank.old measure) (terms_at bank.old arguments.now) (term_at bank.old p) bank.new n)) }
    ensures stand { IfOk result (λ found. IfSome found (NextsStand bank.new)) }
    ensures grows { Grows bank.old bank.new }
{
    let sites = sites_of(bank, definition)?;
    let here = pairs_here(bank, definition.formals, arguments)?;
    if sites.len() < 1 {
        return Ok(None);
    }
    let nexts = lead_from(
        bank,
        p,
        definition,
        measure,
        here.as_slice(),
        sites.as_slice(),
        0,
    )?;
    Ok(Some(nexts))
}

/// A copy of the arguments of a call.
fn arguments_of(bank: &Bank, t: TermId) -> Result<Vec<TermId>, AllocError>
    requires { Stands bank.now t }
    ensures are { IfOk result (λ v. terms_at bank.now v.items ≡ parts_of (term_at bank.now t)) }
    ensures stand { IfOk result (λ v. All (Stands bank.now) v.items) }
{
    Vec::from_slice(bank.alloc(), bank.args(t))
}

/// Is it a call that suggests an induction by the measure, with an argument for each formal?
fn is_suggestion(
    bank: &Bank,
    definition: Definition<'_>,
    measure: TermId,
    t: TermId,
    arguments: &[TermId],
) -> Result<bool, AllocError>
    requires definition { DefinitionStands bank.now definition }
    requires measure { Stands bank.now measure }
    requires term { Stands bank.now t }
    requires arguments { All (Stands bank.now) arguments.now }
    ensures { IfOk result (λ b. b ≡ true → IsSuggestedBy bank.now definition.entry measure t arguments.now) }
{
    if arguments.len() != definition.formals.len() || !is_call(bank, t) {
        return Ok(false);
    }
    if !is_apart(bank, definition.name) || bank.size(definition.body) > SIZE_LIMIT {
        return Ok(false);
    }
    suggests(bank, definition.formals, measure, arguments)
}

/// Is the term a call, and no numeral?
fn is_call(bank: &Bank, t: TermId) -> bool
    requires { Stands bank.now t }
    ensures { result ≡ true → number_of (term_at bank.now t) ≡ None }
{
    match bank.node(t) {
        Node::Var(_) => false,
        Node::Num(_) => false,
        Node::App(_, _) => true,
    }
}

/// The goals of the induction on the claim of a goal that a call suggests.
pub fn lead_by(
    bank: &mut Bank,
    history: &History,
    goal: &[TermId],
    p: TermId,
    t: TermId,
) -> Result<Option<Nexts>, BankFault>
    requires history { HistoryStands bank.old history.now }
    requires ready { IsReady (events_at bank.old history.now) }
    requires claim { IsIdOf bank.old p (claim_of (terms_at bank.old goal.now)) }
    requires call { Stands bank.old t }
    requires over { IsTerm (symbols_of (events_at bank.old history.now)) (term_at bank.old t) }
    ensures leads { IfOk result (λ found. IfSome found (λ n. IsInductionOf (events_at bank.old history.now) (term_at bank.old t) (terms_at bank.old goal.now) (term_at bank.new n.base) (term_at bank.new n.step))) }
    ensures stand { IfOk result (λ found. IfSome found (NextsStand bank.new)) }
    ensures grows { Grows bank.old bank.new }
{
    definitions_fall();
    calls_give_cases();
    let Some(definition) = definition_called(bank, history, t) else {
        return Ok(None);
    };
    let Some(measure) = definition.measure else {
        return Ok(None);
    };
    let Ok(arguments) = arguments_of(bank, t) else {
        return Err(BankFault::Memory);
    };
    let Ok(suggested) = is_suggestion(bank, definition, measure, t, arguments.as_slice()) else {
        return Err(BankFault::Memory);
    };
    if suggested {
        lead_with(bank, p, definition, measure, arguments.as_slice())
    } else {
        Ok(None)
    }
}
