//! Lines that are added without counting steps, each told by the literals that it may hold.
ghost use Rattle.std.specs.Prelude.{◌≡◌, ◌<◌, ◌≤◌, ◌∷◌, [], List, All, IfOk, IsSome};
ghost use Rattle.nq_logic.specs.Terms.{Term, call};
ghost use Rattle.nq_logic.specs.Sizes.{depth_of, depth_limit};
ghost use Rattle.nq_logic.specs.Words.{not_term};
ghost use Rattle.nq_bank.specs.Content.{Stands, IsIdOf, term_at, terms_at};
ghost use Rattle.nq_bank.specs.GroundNames.{ground_count};
ghost use Rattle.nq_bank.specs.Soundness.{ground_text};
ghost use Rattle.nq_proof.specs.Clauses.{distinct};
ghost use Rattle.nq_rule.specs.Branches.{BranchesStand};
ghost use Rattle.nq_kernel.specs.Meaning.{RuleStands, clause_at, conclusion_at};
ghost use Rattle.nq_kernel.specs.Over.{RuleIsIn, TermIsIn};
ghost use Rattle.nq_kernel.specs.Growing.{WorkStands, LineStands, LineHolds};
ghost use Rattle.nq_quick.specs.Lines.{LineHasOnly, IsShallow, GrowsUncounted, signed, denial, if_at};

use nq_bank::{BankFault, Sym, TermId, ground, ground_name};
use nq_history::History;
use nq_kernel::{Rule, Work};
use nq_rule::Branches;
use std::alloc::AllocError;

/// Adds the line of an allowed rule whose clause has no term that is too deep.
pub fn add_line(work: &mut Work, history: &History, rule: Rule) -> Result<u64, AllocError>
    requires stands { WorkStands history.now work.old }
    requires rule { RuleStands work.old.bank rule }
    requires over { RuleIsIn work.old.bank history.now rule }
    requires allowed { IsSome (conclusion_at work.old.bank history.now work.old.log rule) }
    requires shallow { IsShallow (conclusion_at work.old.bank history.now work.old.log rule) }
    ensures line { IfOk result (λ n. clause_at work.new.bank work.new.log n ≡ conclusion_at work.old.bank history.now work.old.log rule) }
    ensures grows { GrowsUncounted history.now work.old work.new }
{
    match work.log.add(&mut work.bank, history, rule) {
        Ok(n) => Ok(n),
        Err(BankFault::Memory) => Err(AllocError),
        Err(BankFault::Deep) => unreachable!(),
    }
}

/// Makes the call of a ground function that is not too deep.
pub fn ground_call(
    work: &mut Work,
    history: &History,
    f: Sym,
    arguments: &[TermId],
) -> Result<TermId, AllocError>
    requires stands { WorkStands history.now work.old }
    requires function { f.0 < ground_count }
    requires arguments { All (Stands work.old.bank) arguments.now }
    requires shallow { depth_of (call (ground_text f) (terms_at work.old.bank arguments.now)) ≤ depth_limit }
    ensures call { IfOk result (λ t. IsIdOf work.new.bank t (call (ground_text f) (terms_at work.old.bank arguments.now))) }
    ensures grows { GrowsUncounted history.now work.old work.new }
{
    let name = ground_name(&work.bank, f);
    match work.bank.app(name, arguments) {
        Ok(t) => Ok(t),
        Err(BankFault::Memory) => Err(AllocError),
        Err(BankFault::Deep) => unreachable!(),
    }
}

/// Makes the NOT of a term that has room under one.
pub fn deny(work: &mut Work, history: &History, t: TermId) -> Result<TermId, AllocError>
    requires stands { WorkStands history.now work.old }
    requires term { Stands work.old.bank t }
    requires room { depth_of (term_at work.old.bank t) < depth_limit }
    ensures denied { IfOk result (λ d. IsIdOf work.new.bank d (not_term (term_at work.old.bank t))) }
    ensures grows { GrowsUncounted history.now work.old work.new }
{
    ground_call(work, history, ground::NOT, &[t])
}

/// Makes the literal that is false where a term is true or false.
pub fn denial_of(
    work: &mut Work,
    history: &History,
    value: bool,
    t: TermId,
) -> Result<TermId, AllocError>
    requires stands { WorkStands history.now work.old }
    requires term { Stands work.old.bank t }
    requires room { depth_of (term_at work.old.bank t) < depth_limit }
    ensures denied { IfOk result (λ d. IsIdOf work.new.bank d (denial value (term_at work.old.bank t))) }
    ensures grows { GrowsUncounted history.now work.old work.new }
{
    if value { deny(work, history, t) } else { Ok(t) }
}

/// Adds the line of t and its NOT.
pub fn add_either(work: &mut Work, history: &History, t: TermId) -> Result<u64, AllocError>
    requires stands { WorkStands history.now work.old }
    requires term { Stands work.old.bank t }
    requires over { TermIsIn work.old.bank history.now t }
    requires room { depth_of (term_at work.old.bank t) < depth_limit }
    ensures line { IfOk result (λ n. LineHolds work.new n (distinct (term_at work.old.bank t ∷ not_term (term_at work.old.bank t) ∷ []))) }
    ensures grows { GrowsUncounted history.now work.old work.new }
{
    let denied = deny(work, history, t)?;
    add_opposites(work, history, t, denied)
}

/// Adds the line of a term and its NOT.
fn add_opposites(
    work: &mut Work,
    history: &History,
    t: TermId,
    denied: TermId,
) -> Result<u64, AllocError>
    requires stands { WorkStands history.now work.old }
    requires term { Stands work.old.bank t }
    requires over { TermIsIn work.old.bank history.now t }
    requires denied { IsIdOf work.old.bank denied (not_term (term_at work.old.bank t)) }
    ensures line { IfOk result (λ n. LineHolds work.new n (distinct (term_at work.old.bank t ∷ not_term (term_at work.old.bank t) ∷ []))) }
    ensures grows { GrowsUncounted history.now work.old work.new }
{
    work.bank.is_sound();
    let terms = vec![in work.bank.alloc(); t, denied]?;
    add_line(work, history, Rule::Taut(terms))
}

/// Adds the line that is cut from two by t.
pub fn add_cut(
    work: &mut Work,
    history: &History,
    first: u64,
    second: u64,
    t: TermId,
) -> Result<u64, AllocError>
    requires stands { WorkStands history.now work.old }
    requires first { LineStands work.old first }
    requires second { LineStands work.old second }
    requires term { Stands work.old.bank t }
    requires over { TermIsIn work.old.bank history.now t }
    ensures line { IfOk result (λ n. (these : List Term) → LineHasOnly work.old first (term_at work.old.bank t ∷ these) → LineHasOnly work.old second (not_term (term_at work.old.bank t) ∷ these) → LineHasOnly work.new n these) }
    ensures stands { IfOk result (λ n. LineStands work.new n) }
    ensures grows { GrowsUncounted history.now work.old work.new }
{
    work.bank.is_sound();
    add_line(work, history, Rule::Cut(first, second, t))
}

/// Adds the line that is cut from the line of t, where t is true or false, and a line that holds the opposite.
pub fn add_resolved(
    work: &mut Work,
    history: &History,
    value: bool,
    t: TermId,
    line: u64,
    other: u64,
) -> Result<u64, AllocError>
    requires stands { WorkStands history.now work.old }
    requires line { LineStands work.old line }
    requires other { LineStands work.old other }
    requires term { Stands work.old.bank t }
    requires over { TermIsIn work.old.bank history.now t }
    ensures line { IfOk result (λ n. (these : List Term) → LineHasOnly work.old line (signed value (term_at work.old.bank t) ∷ these) → LineHasOnly work.old other (denial value (term_at work.old.bank t) ∷ these) → LineHasOnly work.new n these) }
    ensures stands { IfOk result (λ n. LineStands work.new n) }
    ensures grows { GrowsUncounted history.now work.old work.new }
{
    if value {
        add_cut(work, history, line, other, t)
    } else {
        add_cut(work, history, other, line, t)
    }
}

/// Adds the line of an IF that is joined from the lines of its branches.
pub fn add_join(
    work: &mut Work,
    history: &History,
    first: u64,
    second: u64,
    parts: Branches,
    t: TermId,
) -> Result<u64, AllocError>
    requires stands { WorkStands history.now work.old }
    requires first { LineStands work.old first }
    requires second { LineStands work.old second }
    requires parts { BranchesStand work.old.bank parts }
    requires whole { IsIdOf work.old.bank t (if_at work.old.bank parts) }
    requires over { TermIsIn work.old.bank history.now t }
    ensures line { IfOk result (λ n. (these : List Term) → LineHasOnly work.old first (not_term (term_at work.old.bank parts.test) ∷ term_at work.old.bank parts.first ∷ these) → LineHasOnly work.old second (term_at work.old.bank parts.test ∷ term_at work.old.bank parts.second ∷ these) → LineHasOnly work.new n (if_at work.old.bank parts ∷ these)) }
    ensures grows { GrowsUncounted history.now work.old work.new }
{
    work.bank.is_sound();
    add_line(work, history, Rule::Join(first, second, parts))
}
