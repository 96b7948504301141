//! What is taken out of a term that a line shows: parts of a conjunction, and what an implication leads to.
ghost use Rattle.std.specs.Prelude.{◌≡◌, IfOk, IfSome, Err};
ghost use Rattle.nq_bank.specs.Content.{IsIdOf, term_at};
ghost use Rattle.nq_logic.specs.Words.{false_term};
ghost use Rattle.nq_history.specs.Events.{events_at};
ghost use Rattle.nq_kernel.specs.Growing.{WorkGrows, WorkStands};
ghost use Rattle.nq_lines.specs.Facts.{IsOpening};
ghost use Rattle.nq_lines.specs.Lines.{IsTermIn};
ghost use Rattle.nq_lines.specs.OwnTerms.{HasOwnTerms};
ghost use Rattle.nq_instances.specs.Parts.{Derives, DerivesWith, IsLine, IsIfOf};

use nq_bank::TermId;
use nq_history::History;
use nq_kernel::{Stop, Work};
use nq_lines::{
    Fact, cut, falsity, from_equal_false, if_true, is_same, opening, rewrite_literal, second_chosen,
};
use nq_rule::{Branches, Side, branches_in};

/// The parts of a term that is an IF.
pub fn if_parts_of(work: &Work, history: &History, t: TermId) -> Option<Branches>
    requires stands { WorkStands history.now work.now }
    requires term { IsTermIn history.now work.now t }
    ensures { IfSome result (IsIfOf history.now work.now t) }
{
    branches_in(&work.bank, t)
}

/// The line of a call, with its opening.
fn opened(work: &mut Work, history: &History, fact: Fact) -> Result<Option<Fact>, Stop>
    requires stands { WorkStands history.now work.old }
    requires ready { HasOwnTerms (events_at work.old.bank history.now) }
    requires fact { IsLine history.now work.old fact }
    ensures fact { IfOk result (λ found. IfSome found (Derives history.now work.old work.new fact)) }
    ensures grows { WorkGrows history.now work.old work.new }
    ensures out { result ≡ Err Stop.OutOfSteps → work.new.counter.used ≡ work.new.counter.limit }
{
    match opening(work, history, fact.term)? {
        Some(body) => opened_by(work, history, fact, body),
        None => Ok(None),
    }
}

/// The same, by the line of the opening.
fn opened_by(
    work: &mut Work,
    history: &History,
    fact: Fact,
    body: Fact,
) -> Result<Option<Fact>, Stop>
    requires stands { WorkStands history.now work.old }
    requires fact { IsLine history.now work.old fact }
    requires body { IsOpening history.now work.old (term_at work.old.bank fact.term) body }
    ensures fact { IfOk result (λ found. IfSome found (Derives history.now work.old work.new fact)) }
    ensures grows { WorkGrows history.now work.old work.new }
    ensures out { result ≡ Err Stop.OutOfSteps → work.new.counter.used ≡ work.new.counter.limit }
{
    let line = rewrite_literal(
        work,
        history,
        Side::Forwards,
        fact.term,
        body.term,
        fact.line,
        body.line,
    )?;
    Ok(Some(Fact {
        term: body.term,
        line,
    }))
}

/// The test of an IF whose second branch is F.
fn tested(work: &mut Work, history: &History, fact: Fact) -> Result<Option<Fact>, Stop>
    requires stands { WorkStands history.now work.old }
    requires fact { IsLine history.now work.old fact }
    ensures fact { IfOk result (λ found. IfSome found (Derives history.now work.old work.new fact)) }
    ensures grows { WorkGrows history.now work.old work.new }
    ensures out { result ≡ Err Stop.OutOfSteps → work.new.counter.used ≡ work.new.counter.limit }
{
    match if_parts_of(work, history, fact.term) {
        Some(parts) => tested_if(work, history, fact, parts),
        None => Ok(None),
    }
}

/// The same, where the parts of the IF are known.
fn tested_if(
    work: &mut Work,
    history: &History,
    fact: Fact,
    parts: Branches,
) -> Result<Option<Fact>, Stop>
    requires stands { WorkStands history.now work.old }
    requires fact { IsLine history.now work.old fact }
    requires parts { IsIfOf history.now work.old fact.term parts }
    ensures fact { IfOk result (λ found. IfSome found (Derives history.now work.old work.new fact)) }
    ensures grows { WorkGrows history.now work.old work.new }
    ensures out { result ≡ Err Stop.OutOfSteps → work.new.counter.used ≡ work.new.counter.limit }
{
    let f = falsity(work, history)?;
    if is_same(parts.second, f) {
        test_of(work, history, fact, parts)
    } else {
        Ok(None)
    }
}

/// The test of an IF whose second branch is known to be F.
fn test_of(
    work: &mut Work,
    history: &History,
    fact: Fact,
    parts: Branches,
) -> Result<Option<Fact>, Stop>
    requires stands { WorkStands history.now work.old }
    requires fact { IsLine history.now work.old fact }
    requires parts { IsIfOf history.now work.old fact.term parts }
    requires otherwise { term_at work.old.bank parts.second ≡ false_term }
    ensures fact { IfOk result (λ found. IfSome found (Derives history.now work.old work.new fact)) }
    ensures grows { WorkGrows history.now work.old work.new }
    ensures out { result ≡ Err Stop.OutOfSteps → work.new.counter.used ≡ work.new.counter.limit }
{
    let law = second_chosen(work, history, parts.test, parts.first, parts.second)?;
    let denial = from_equal_false(work, history, fact.term, law)?;
    let line = cut(work, history, fact.line, denial, fact.term)?;
    Ok(Some(Fact {
        term: parts.test,
        line,
    }))
}

/// The first branch of an IF whose test another line shows.
fn taken(work: &mut Work, history: &History, fact: Fact, known: Fact) -> Result<Option<Fact>, Stop>
    requires stands { WorkStands history.now work.old }
    requires fact { IsLine history.now work.old fact }
    requires known { IsLine history.now work.old known }
    ensures fact { IfOk result (λ found. IfSome found (DerivesWith history.now work.old work.new fact known)) }
    ensures grows { WorkGrows history.now work.old work.new }
    ensures out { result ≡ Err Stop.OutOfSteps → work.new.counter.used ≡ work.new.counter.limit }
{
    match if_parts_of(work, history, fact.term) {
        Some(parts) => taken_if(work, history, fact, known, parts),
        None => Ok(None),
    }
}

/// The same, where the parts of the IF are known.
fn taken_if(
    work: &mut Work,
    history: &History,
    fact: Fact,
    known: Fact,
    parts: Branches,
) -> Result<Option<Fact>, Stop>
    requires stands { WorkStands history.now work.old }
    requires fact { IsLine history.now work.old fact }
    requires known { IsLine history.now work.old known }
    requires parts { IsIfOf history.now work.old fact.term parts }
    ensures fact { IfOk result (λ found. IfSome found (DerivesWith history.now work.old work.new fact known)) }
    ensures grows { WorkGrows history.now work.old work.new }
    ensures out { result ≡ Err Stop.OutOfSteps → work.new.counter.used ≡ work.new.counter.limit }
{
    if is_same(parts.test, known.term) {
        first_of(work, history, fact, known, parts)
    } else {
        Ok(None)
    }
}

/// The first branch of an IF whose test is the known term.
fn first_of(
    work: &mut Work,
    history: &History,
    fact: Fact,
    known: Fact,
    parts: Branches,
) -> Result<Option<Fact>, Stop>
    requires stands { WorkStands history.now work.old }
    requires fact { IsLine history.now work.old fact }
    requires known { IsLine history.now work.old known }
    requires parts { IsIfOf history.now work.old fact.term parts }
    requires test { parts.test ≡ known.term }
    ensures fact { IfOk result (λ found. IfSome found (DerivesWith history.now work.old work.new fact known)) }
    ensures grows { WorkGrows history.now work.old work.new }
    ensures out { result ≡ Err Stop.OutOfSteps → work.new.counter.used ≡ work.new.counter.limit }
{
    let equation = if_true(
        work,
        history,
        parts.test,
        parts.first,
        parts.second,
        known.line,
    )?;
    let line = rewrite_literal(
        work,
        history,
        Side::Forwards,
        fact.term,
        parts.first,
        fact.line,
        equation,
    )?;
    Ok(Some(Fact {
        term: parts.first,
        line,
    }))
}

/// The test of the first branch of an IF whose test another line shows, where the first branch is an IF that ends in F.
fn rest_of(
    work: &mut Work,
    history: &History,
    fact: Fact,
    known: Fact,
) -> Result<Option<Fact>, Stop>
    requires stands { WorkStands history.now work.old }
    requires fact { IsLine history.now work.old fact }
    requires known { IsLine history.now work.old known }
    ensures fact { IfOk result (λ found. IfSome found (DerivesWith history.now work.old work.new fact known)) }
    ensures grows { WorkGrows history.now work.old work.new }
    ensures out { result ≡ Err Stop.OutOfSteps → work.new.counter.used ≡ work.new.counter.limit }
{
    match taken(work, history, fact, known)? {
        Some(first) => tested(work, history, first),
        None => Ok(None),
    }
}

/// The first part of a conjunction.
pub fn first_part(work: &mut Work, history: &History, fact: Fact) -> Result<Option<Fact>, Stop>
    requires stands { WorkStands history.now work.old }
    requires ready { HasOwnTerms (events_at work.old.bank history.now) }
    requires fact { IsLine history.now work.old fact }
    ensures fact { IfOk result (λ found. IfSome found (Derives history.now work.old work.new fact)) }
    ensures grows { WorkGrows history.now work.old work.new }
    ensures out { result ≡ Err Stop.OutOfSteps → work.new.counter.used ≡ work.new.counter.limit }
{
    match opened(work, history, fact)? {
        Some(body) => tested(work, history, body),
        None => Ok(None),
    }
}

/// The second part of a conjunction.
pub fn second_part(work: &mut Work, history: &History, fact: Fact) -> Result<Option<Fact>, Stop>
    requires stands { WorkStands history.now work.old }
    requires ready { HasOwnTerms (events_at work.old.bank history.now) }
    requires fact { IsLine history.now work.old fact }
    ensures fact { IfOk result (λ found. IfSome found (Derives history.now work.old work.new fact)) }
    ensures grows { WorkGrows history.now work.old work.new }
    ensures out { result ≡ Err Stop.OutOfSteps → work.new.counter.used ≡ work.new.counter.limit }
{
    match opened(work, history, fact)? {
        Some(body) => second_test(work, history, body),
        None => Ok(None),
    }
}

/// The test of the first branch of an IF, where both the IF and the branch end in F.
fn second_test(work: &mut Work, history: &History, fact: Fact) -> Result<Option<Fact>, Stop>
    requires stands { WorkStands history.now work.old }
    requires fact { IsLine history.now work.old fact }
    ensures fact { IfOk result (λ found. IfSome found (Derives history.now work.old work.new fact)) }
    ensures grows { WorkGrows history.now work.old work.new }
    ensures out { result ≡ Err Stop.OutOfSteps → work.new.counter.used ≡ work.new.counter.limit }
{
    match tested(work, history, fact)? {
        Some(first) => rest_of(work, history, fact, first),
        None => Ok(None),
    }
}

/// What an implication leads to, where another line shows its hypothesis.
pub fn consequence(
    work: &mut Work,
    history: &History,
    fact: Fact,
    known: Fact,
) -> Result<Option<Fact>, Stop>
    requires stands { WorkStands history.now work.old }
    requires ready { HasOwnTerms (events_at work.old.bank history.now) }
    requires fact { IsLine history.now work.old fact }
    requires known { IsLine history.now work.old known }
    ensures fact { IfOk result (λ found. IfSome found (DerivesWith history.now work.old work.new fact known)) }
    ensures grows { WorkGrows history.now work.old work.new }
    ensures out { result ≡ Err Stop.OutOfSteps → work.new.counter.used ≡ work.new.counter.limit }
{
    match opened(work, history, fact)? {
        Some(body) => rest_of(work, history, body, known),
        None => Ok(None),
    }
}
