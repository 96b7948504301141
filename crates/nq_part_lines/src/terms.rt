//! Terms that are made without counting steps.
ghost use Rattle.std.specs.Prelude.{◌≡◌, ◌<◌, ◌≤◌, All, IfOk};
ghost use Rattle.nq_logic.specs.Terms.{Variable, call};
ghost use Rattle.nq_logic.specs.Words.{add1_term, call1, call2};
ghost use Rattle.nq_logic.specs.Sizes.{depth_of, depth_limit};
ghost use Rattle.nq_bank.specs.Content.{Stands, IsIdOf, IsNamed, text_at, term_at, terms_at};
ghost use Rattle.nq_bank.specs.GroundNames.{ground_count};
ghost use Rattle.nq_bank.specs.Soundness.{ground_text};
ghost use Rattle.nq_arith.specs.Nests.{is_smaller};
ghost use Rattle.nq_kernel.specs.Growing.{WorkStands};
ghost use Rattle.nq_kernel.specs.Over.{IsVariable};
ghost use Rattle.nq_lines.specs.Lines.{IsTermIn};
ghost use Rattle.nq_replay.specs.Uncounted.{GrowsUncounted};
ghost use Rattle.nq_part_lines.specs.LawLines.{term_room};

use nq_bank::{BankFault, Sym, TermId, ground, ground_name};
use nq_history::History;
use nq_kernel::Work;
use std::alloc::AllocError;

/// Makes the call of a ground function that is not too deep.
pub fn ground_call(
    work: &mut Work,
    history: &History,
    f: Sym,
    arguments: &[TermId],
) -> Result<TermId, AllocError>
    requires stands { WorkStands history.now work.old }
    requires function { f.0 < ground_count }
    requires arguments { All (Stands work.old.bank) arguments.now }
    requires shallow { depth_of (call (ground_text f) (terms_at work.old.bank arguments.now)) ≤ depth_limit }
    ensures call { IfOk result (λ t. IsIdOf work.new.bank t (call (ground_text f) (terms_at work.old.bank arguments.now))) }
    ensures grows { GrowsUncounted history.now work.old work.new }
{
    let name = ground_name(&work.bank, f);
    match work.bank.app(name, arguments) {
        Ok(t) => Ok(t),
        Err(BankFault::Memory) => Err(AllocError),
        Err(BankFault::Deep) => unreachable!(),
    }
}

/// Makes a variable that a log can spell.
pub fn variable(work: &mut Work, history: &History, x: Sym) -> Result<TermId, AllocError>
    requires stands { WorkStands history.now work.old }
    requires named { IsNamed work.old.bank x }
    requires variable { IsVariable (text_at work.old.bank x) }
    ensures variable { IfOk result (λ t. IsIdOf work.new.bank t (Variable (text_at work.old.bank x))) }
    ensures over { IfOk result (λ t. IsTermIn history.now work.new t) }
    ensures grows { GrowsUncounted history.now work.old work.new }
{
    work.bank.var(x)
}

/// Makes the COUNT of a term.
fn size_term(work: &mut Work, history: &History, t: TermId) -> Result<TermId, AllocError>
    requires stands { WorkStands history.now work.old }
    requires term { IsTermIn history.now work.old t }
    requires room { depth_of (term_at work.old.bank t) ≤ term_room }
    ensures size { IfOk result (λ s. IsIdOf work.new.bank s (call1 "COUNT" (term_at work.old.bank t))) }
    ensures grows { GrowsUncounted history.now work.old work.new }
{
    ground_call(work, history, ground::COUNT, &[t])
}

/// Makes the LESSP of the COUNTs of two terms.
pub fn smaller_term(
    work: &mut Work,
    history: &History,
    t: TermId,
    u: TermId,
) -> Result<TermId, AllocError>
    requires stands { WorkStands history.now work.old }
    requires left { IsTermIn history.now work.old t }
    requires right { IsTermIn history.now work.old u }
    requires left_room { depth_of (term_at work.old.bank t) ≤ term_room }
    requires right_room { depth_of (term_at work.old.bank u) ≤ term_room }
    ensures smaller { IfOk result (λ s. IsIdOf work.new.bank s (is_smaller (term_at work.old.bank t) (term_at work.old.bank u))) }
    ensures over { IfOk result (λ s. IsTermIn history.now work.new s) }
    ensures grows { GrowsUncounted history.now work.old work.new }
{
    let left = size_term(work, history, t)?;
    let right = size_term(work, history, u)?;
    ground_call(work, history, ground::LESSP, &[left, right])
}

/// Makes that a term is less than one more than another.
pub fn less_than_more(
    work: &mut Work,
    history: &History,
    t: TermId,
    u: TermId,
) -> Result<TermId, AllocError>
    requires stands { WorkStands history.now work.old }
    requires left { IsTermIn history.now work.old t }
    requires right { IsTermIn history.now work.old u }
    requires left_room { depth_of (term_at work.old.bank t) ≤ term_room }
    requires right_room { depth_of (term_at work.old.bank u) ≤ term_room }
    ensures less { IfOk result (λ s. IsIdOf work.new.bank s (call2 "LESSP" (term_at work.old.bank t) (add1_term (term_at work.old.bank u)))) }
    ensures over { IfOk result (λ s. IsTermIn history.now work.new s) }
    ensures grows { GrowsUncounted history.now work.old work.new }
{
    let more = ground_call(work, history, ground::ADD1, &[u])?;
    ground_call(work, history, ground::LESSP, &[t, more])
}
