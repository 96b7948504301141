//! Which clauses show that a measure falls at a call. No term is made: so the answers are exact where the measure at the
//! arguments of a call is too deep to be made.
ghost use Rattle.std.specs.Prelude.{◌≡◌, ◌&&◌, All, IfOk, OnOk, map};
ghost use Rattle.nq_logic.specs.Terms.{substituted};
ghost use Rattle.nq_logic.specs.Words.{call2, not_term};
ghost use Rattle.nq_logic.specs.Admissible.{mentions};
ghost use Rattle.nq_bank.specs.Content.{IsNamed, Stands, text_at, term_at, terms_at};
ghost use Rattle.nq_bank.specs.Shells.{texts_at};
ghost use Rattle.nq_clause.specs.Substitution.{substitution_at, PairStands};
ghost use Rattle.nq_proof.specs.Clauses.{has_term, is_within, same_term};
ghost use Rattle.nq_calls.specs.Calls.{GuardStands, SiteStands, guard_at, guards_at, site_at};
ghost use Rattle.nq_calls.specs.Falls.{fall_clause, is_in_used, obligation_at, uses_of};
ghost use Rattle.nq_calls.specs.Mentions.{HasMentions};

use crate::calls::{Guard, Site};
use crate::falls::{pairs_of, shorter};
use crate::mentions::mentions_within;
use nq_bank::{Bank, Sym, TermId};
use nq_clause::{Pair, occurs_in};
use nq_rule::{contains_opposite, is_fall_line, under_nots_at};
use std::alloc::AllocError;
use std::collections::HashMap;

/// Are two terms one?
fn is_same(bank: &Bank, left: TermId, right: TermId) -> bool
    requires left { Stands bank.now left }
    requires right { Stands bank.now right }
    ensures { result ≡ same_term (term_at bank.now left) (term_at bank.now right) }
{
    bank.is_sound();
    left.0 == right.0
}

/// Is a literal the NOT of a test?
fn is_denial(bank: &Bank, test: TermId, literal: TermId) -> bool
    requires test { Stands bank.now test }
    requires literal { Stands bank.now literal }
    ensures { result ≡ same_term (term_at bank.now literal) (not_term (term_at bank.now test)) }
{
    let tests = [test];
    let literals = [literal];
    contains_opposite(bank, &tests, &literals)
}

/// Is a literal the NOT of the NOT of a test?
fn is_denied_denial(bank: &Bank, test: TermId, literal: TermId) -> bool
    requires test { Stands bank.now test }
    requires literal { Stands bank.now literal }
    ensures { result ≡ same_term (term_at bank.now literal) (not_term (not_term (term_at bank.now test))) }
{
    let literals = [literal];
    match under_nots_at(bank, &literals, 1) {
        Some(inner) => is_same(bank, inner, test),
        None => false,
    }
}

/// Is a literal the NOT of a test as it governs?
fn denies(bank: &Bank, guard: Guard, literal: TermId) -> bool
    requires guard { GuardStands bank.now guard }
    requires literal { Stands bank.now literal }
    ensures { result ≡ same_term (term_at bank.now literal) (not_term (guard_at bank.now guard)) }
{
    if guard.holds {
        is_denial(bank, guard.test, literal)
    } else {
        is_denied_denial(bank, guard.test, literal)
    }
}

/// Is a literal the NOT of one of these tests?
fn is_denied(bank: &Bank, guards: &[Guard], literal: TermId) -> bool
    requires guards { All (GuardStands bank.now) guards.now }
    requires literal { Stands bank.now literal }
    ensures { result ≡ has_term (term_at bank.now literal) (map not_term (guards_at bank.now guards.now)) }
{
    for guard in guards {
        if denies(bank, *guard, literal) {
            return true;
        }
    }
    false
}

/// Is a literal `(ORD-LESSP s m)`, where s is the measure m with the terms of the pairs?
fn is_fall(
    bank: &Bank,
    measure: TermId,
    pairs: &[Pair],
    literal: TermId,
) -> Result<bool, AllocError>
    requires measure { Stands bank.now measure }
    requires pairs { All (PairStands bank.now) pairs.now }
    requires literal { Stands bank.now literal }
    ensures { IfOk result (λ b. b ≡ same_term (term_at bank.now literal) (call2 "ORD-LESSP" (substituted (substitution_at bank.now pairs.now) (term_at bank.now measure)) (term_at bank.now measure))) }
{
    // The rule of induction allows a denied test besides. No literal is its own NOT, so as a test it allows nothing.
    let literals = [literal];
    is_fall_line(bank, measure, literal, pairs, &literals)
}

/// May a literal stand in the line of a call?
fn is_allowed(
    bank: &Bank,
    measure: TermId,
    pairs: &[Pair],
    guards: &[Guard],
    literal: TermId,
) -> Result<bool, AllocError>
    requires measure { Stands bank.now measure }
    requires pairs { All (PairStands bank.now) pairs.now }
    requires guards { All (GuardStands bank.now) guards.now }
    requires literal { Stands bank.now literal }
    ensures { IfOk result (λ b. b ≡ has_term (term_at bank.now literal) (fall_clause (substituted (substitution_at bank.now pairs.now) (term_at bank.now measure)) (term_at bank.now measure) (guards_at bank.now guards.now))) }
{
    if is_denied(bank, guards, literal) {
        return Ok(true);
    }
    is_fall(bank, measure, pairs, literal)
}

/// Has a clause only the NOTs of the tests of a call, and that the measure falls there?
pub fn is_obligation_line(
    bank: &Bank,
    formals: &[Sym],
    measure: TermId,
    site: &Site,
    clause: &[TermId],
) -> Result<bool, AllocError>
    requires formals { All (IsNamed bank.now) formals.now }
    requires measure { Stands bank.now measure }
    requires site { SiteStands bank.now site.now }
    requires clause { All (Stands bank.now) clause.now }
    ensures { IfOk result (λ b. b ≡ is_within (terms_at bank.now clause.now) (obligation_at (texts_at bank.now formals.now) (term_at bank.now measure) (site_at bank.now site.now))) }
{
    let pairs = pairs_of(bank, formals, site.arguments.as_slice())?;
    for literal in clause {
        if !is_allowed(
            bank,
            measure,
            pairs.as_slice(),
            site.guards.as_slice(),
            *literal,
        )? {
            return Ok(false);
        }
    }
    Ok(true)
}

/// Which formals stand in the measure.
pub fn uses_of(bank: &Bank, formals: &[Sym], measure: TermId) -> Result<Vec<bool>, AllocError>
    requires formals { All (IsNamed bank.now) formals.now }
    requires measure { Stands bank.now measure }
    ensures { IfOk result (λ uses. uses.items ≡ uses_of (texts_at bank.now formals.now) (term_at bank.now measure)) }
{
    let mut uses = Vec::new(bank.alloc());
    for formal in formals {
        let used = occurs_in(bank, *formal, measure)?;
        uses.push(used)?;
    }
    Ok(uses)
}

/// Does the function stand in the argument of a formal, where that is used?
fn is_in_used_one(
    bank: &Bank,
    known: &mut HashMap<u64, bool>,
    f: Sym,
    used: bool,
    argument: TermId,
) -> Result<bool, AllocError>
    requires function { IsNamed bank.now f }
    requires argument { Stands bank.now argument }
    requires answers { HasMentions bank.now (text_at bank.now f) known.old }
    ensures ok { IfOk result (λ answer. answer ≡ (used && mentions (text_at bank.now f) (term_at bank.now argument))) }
    ensures answers { OnOk result (HasMentions bank.now (text_at bank.now f) known.new) }
{
    if !used {
        return Ok(false);
    }
    mentions_within(bank, known, f, argument)
}

/// Does the function stand in the argument of a formal that is used, where the answers for some terms are known? Then the
/// measure at the arguments mentions it.
pub fn is_in_used(
    bank: &Bank,
    known: &mut HashMap<u64, bool>,
    f: Sym,
    uses: &[bool],
    arguments: &[TermId],
) -> Result<bool, AllocError>
    requires function { IsNamed bank.now f }
    requires arguments { All (Stands bank.now) arguments.now }
    requires answers { HasMentions bank.now (text_at bank.now f) known.old }
    ensures ok { IfOk result (λ answer. answer ≡ is_in_used (text_at bank.now f) uses.now (terms_at bank.now arguments.now)) }
    ensures answers { OnOk result (HasMentions bank.now (text_at bank.now f) known.new) }
{
    let count = shorter(uses.len(), arguments.len());
    for place in 0..count {
        if is_in_used_one(bank, known, f, uses[place], arguments[place])? {
            return Ok(true);
        }
    }
    Ok(false)
}
