//! Lines that show that the size of a formal falls at each call, where each takes a part of it. No step is counted.
ghost use Rattle.std.specs.Prelude.{◌≡◌, ◌≤◌, All, IfOk, MatchOption, map};
ghost use Rattle.nq_logic.specs.Terms.{Each, Variable};
ghost use Rattle.nq_logic.specs.Words.{call1};
ghost use Rattle.nq_logic.specs.Ground.{symbols_of};
ghost use Rattle.nq_logic.specs.Sizes.{depth_of};
ghost use Rattle.nq_bank.specs.Content.{IsIdOf, IsNamed, Stands, text_at, term_at, terms_at};
ghost use Rattle.nq_history.specs.Events.{events_at};
ghost use Rattle.nq_arith.specs.Structural.{IsStructuralNest};
ghost use Rattle.nq_kernel.specs.Growing.{WorkStands};
ghost use Rattle.nq_kernel.specs.Over.{IsVariable};
ghost use Rattle.nq_kernel.specs.Ready.{IsReady, body_depth};
ghost use Rattle.nq_lines.specs.Lines.{IsTermIn, LineHasOnly};
ghost use Rattle.nq_replay.specs.Uncounted.{GrowsUncounted};
ghost use Rattle.nq_calls.specs.Calls.{GuardStands, guard_at, guards_at};
ghost use Rattle.nq_calls.specs.Falls.{fall_clause};
ghost use Rattle.nq_measures.specs.Measures.{ordinal_clause};
ghost use Rattle.nq_measures.specs.Trials.{AllDescend, AreFallLines, DescendsAt, IsEvidence, IsFallLine, IsNotStructural, IsShallowTerm, IsSiteOf, IsSizeOf, IsTrial, size_of_variable};

use crate::evidence::Evidence;
use crate::lines::deny;
use crate::sizes::{argument_for, sized_variable};
use nq_bank::{Sym, TermId};
use nq_calls::{Guard, Site, mentions_at};
use nq_decrease::{decrease, size_is_ordinal};
use nq_history::History;
use nq_kernel::Work;
use nq_lines::argument_at;
use std::alloc::AllocError;

/// Makes a test as it governs.
fn test_of(work: &mut Work, history: &History, guard: Guard) -> Result<TermId, AllocError>
    requires stands { WorkStands history.now work.old }
    requires guard { GuardStands work.old.bank guard }
    requires shallow { depth_of (guard_at work.old.bank guard) ≤ body_depth }
    ensures test { IfOk result (λ t. IsIdOf work.new.bank t (guard_at work.old.bank guard)) }
    ensures grows { GrowsUncounted history.now work.old work.new }
{
    if guard.holds {
        return Ok(guard.test);
    }
    deny(work, history, guard.test)
}

/// Makes the tests that govern a call.
fn tests_of(work: &mut Work, history: &History, guards: &[Guard]) -> Result<Vec<TermId>, AllocError>
    requires stands { WorkStands history.now work.old }
    requires guards { All (GuardStands work.old.bank) guards.now }
    requires shallow { Each (IsShallowTerm (symbols_of (events_at work.old.bank history.now))) (guards_at work.old.bank guards.now) }
    ensures tests { IfOk result (λ v. terms_at work.new.bank v.items ≡ guards_at work.old.bank guards.now) }
    ensures stand { IfOk result (λ v. All (Stands work.new.bank) v.items) }
    ensures grows { GrowsUncounted history.now work.old work.new }
{
    let mut tests = Vec::new(work.bank.alloc());
    for guard in guards {
        let test = test_of(work, history, *guard)?;
        tests.push(test)?;
    }
    Ok(tests)
}

/// Seeks the line that shows that a term is smaller than a variable under tests.
fn find_part(
    work: &mut Work,
    history: &History,
    x: Sym,
    part: TermId,
    guards: &[Guard],
) -> Result<Option<u64>, AllocError>
    requires stands { WorkStands history.now work.old }
    requires ready { IsReady (events_at work.old.bank history.now) }
    requires named { IsNamed work.old.bank x }
    requires variable { IsVariable (text_at work.old.bank x) }
    requires part { IsTermIn history.now work.old part }
    requires shallow { depth_of (term_at work.old.bank part) ≤ body_depth }
    requires guards { All (GuardStands work.old.bank) guards.now }
    requires tests { Each (IsShallowTerm (symbols_of (events_at work.old.bank history.now))) (guards_at work.old.bank guards.now) }
    ensures found { IfOk result (λ found. MatchOption found (IsStructuralNest (events_at work.old.bank history.now) (Variable (text_at work.old.bank x)) (guards_at work.old.bank guards.now) (term_at work.old.bank part) → ⊥)
        (λ n. LineHasOnly work.new n (fall_clause (call1 "COUNT" (term_at work.old.bank part)) (size_of_variable (text_at work.old.bank x)) (guards_at work.old.bank guards.now)))) }
    ensures grows { GrowsUncounted history.now work.old work.new }
{
    let tests = tests_of(work, history, guards)?;
    decrease(work, history, x, part, tests.as_slice())
}

/// Seeks the line that shows that the size of a formal falls at a call.
fn find_descent(
    work: &mut Work,
    history: &History,
    f: Sym,
    formals: &[Sym],
    measure: TermId,
    x: Sym,
    site: &Site,
) -> Result<Option<u64>, AllocError>
    requires stands { WorkStands history.now work.old }
    requires ready { IsReady (events_at work.old.bank history.now) }
    requires trial { IsTrial history.now work.old.bank f formals.now measure }
    requires size { IsSizeOf work.old.bank measure x }
    requires site { IsSiteOf history.now work.old.bank f formals.now site.now }
    ensures found { IfOk result (λ found. MatchOption found (DescendsAt history.now work.old.bank formals.now x site.now → ⊥) (IsFallLine work.new f formals.now measure site.now)) }
    ensures grows { GrowsUncounted history.now work.old work.new }
{
    match argument_for(&work.bank, formals, site.arguments.as_slice(), x) {
        None => Ok(None),
        Some(part) => {
            if mentions_at(&work.bank, f, part)? {
                return Ok(None);
            }
            find_part(work, history, x, part, site.guards.as_slice())
        }
    }
}

/// Seeks the lines that show that the size of a formal falls at each call.
fn find_descents(
    work: &mut Work,
    history: &History,
    f: Sym,
    formals: &[Sym],
    measure: TermId,
    x: Sym,
    sites: &[Site],
) -> Result<Option<Vec<u64>>, AllocError>
    requires stands { WorkStands history.now work.old }
    requires ready { IsReady (events_at work.old.bank history.now) }
    requires trial { IsTrial history.now work.old.bank f formals.now measure }
    requires size { IsSizeOf work.old.bank measure x }
    requires sites { All (IsSiteOf history.now work.old.bank f formals.now) sites.now }
    ensures found { IfOk result (λ found. MatchOption found (AllDescend history.now work.old.bank formals.now (text_at work.old.bank x) sites.now → ⊥) (λ falls. AreFallLines work.new f formals.now measure sites.now falls.items)) }
    ensures grows { GrowsUncounted history.now work.old work.new }
{
    let mut falls = Vec::new(work.bank.alloc());
    for site in sites {
        match find_descent(work, history, f, formals, measure, x, site)? {
            None => return Ok(None),
            Some(line) => falls.push(line)?,
        }
    }
    Ok(Some(falls))
}

/// Adds the line that shows that the size of a variable is an ordinal.
fn size_ordinal(
    work: &mut Work,
    history: &History,
    measure: TermId,
    x: Sym,
) -> Result<u64, AllocError>
    requires stands { WorkStands history.now work.old }
    requires measure { Stands work.old.bank measure }
    requires size { IsSizeOf work.old.bank measure x }
    requires variable { IsVariable (text_at work.old.bank x) }
    ensures line { IfOk result (λ n. LineHasOnly work.new n (ordinal_clause (term_at work.old.bank measure))) }
    ensures grows { GrowsUncounted history.now work.old work.new }
{
    let t = argument_at(&work.bank, measure, 1);
    size_is_ordinal(work, history, t)
}

/// Seeks the lines by which the size of a variable admits the definition, where each call takes a part of it.
fn size_evidence(
    work: &mut Work,
    history: &History,
    f: Sym,
    formals: &[Sym],
    measure: TermId,
    x: Sym,
    sites: &[Site],
) -> Result<Option<Evidence>, AllocError>
    requires stands { WorkStands history.now work.old }
    requires ready { IsReady (events_at work.old.bank history.now) }
    requires trial { IsTrial history.now work.old.bank f formals.now measure }
    requires size { IsSizeOf work.old.bank measure x }
    requires sites { All (IsSiteOf history.now work.old.bank f formals.now) sites.now }
    ensures found { IfOk result (λ found. MatchOption found (AllDescend history.now work.old.bank formals.now (text_at work.old.bank x) sites.now → ⊥) (IsEvidence work.new f formals.now measure sites.now)) }
    ensures grows { GrowsUncounted history.now work.old work.new }
{
    match find_descents(work, history, f, formals, measure, x, sites)? {
        None => Ok(None),
        Some(falls) => {
            let ordinal = size_ordinal(work, history, measure, x)?;
            Ok(Some(Evidence { ordinal, falls }))
        }
    }
}

/// Seeks the lines by which a measure admits the definition without a proof: it is the size of a variable, and each call takes
/// a part of that.
pub(crate) fn find_by_size(
    work: &mut Work,
    history: &History,
    f: Sym,
    formals: &[Sym],
    measure: TermId,
    sites: &[Site],
) -> Result<Option<Evidence>, AllocError>
    requires stands { WorkStands history.now work.old }
    requires ready { IsReady (events_at work.old.bank history.now) }
    requires trial { IsTrial history.now work.old.bank f formals.now measure }
    requires sites { All (IsSiteOf history.now work.old.bank f formals.now) sites.now }
    ensures found { IfOk result (λ found. MatchOption found (IsNotStructural history.now work.old.bank formals.now measure sites.now) (IsEvidence work.new f formals.now measure sites.now)) }
    ensures grows { GrowsUncounted history.now work.old work.new }
{
    match sized_variable(&work.bank, measure) {
        None => Ok(None),
        Some(x) => size_evidence(work, history, f, formals, measure, x, sites),
    }
}
