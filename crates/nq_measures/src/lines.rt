//! Lines that are added without counting steps.
ghost use Rattle.std.specs.Prelude.{◌≡◌, ◌<◌, ◌≤◌, ◌∷◌, List, All, IfOk, IsTrue};
ghost use Rattle.nq_logic.specs.Terms.{Term, call};
ghost use Rattle.nq_logic.specs.Sizes.{depth_of, depth_limit};
ghost use Rattle.nq_logic.specs.Words.{not_term};
ghost use Rattle.nq_logtext.specs.Symbols.{is_symbol};
ghost use Rattle.nq_bank.specs.Content.{Stands, IsIdOf, NamesText, term_at, terms_at};
ghost use Rattle.nq_bank.specs.GroundNames.{ground_count};
ghost use Rattle.nq_bank.specs.Soundness.{ground_text};
ghost use Rattle.nq_kernel.specs.Over.{TermIsIn};
ghost use Rattle.nq_kernel.specs.Growing.{WorkStands, LineStands};
ghost use Rattle.nq_lines.specs.Lines.{LineHasOnly};
ghost use Rattle.nq_replay.specs.Uncounted.{GrowsUncounted};

use nq_bank::{BankFault, Sym, TermId, ground, ground_name};
use nq_history::History;
use nq_kernel::{Rule, Work};
use nq_replay::add_line;
use std::alloc::AllocError;

/// Makes the call of a ground function that is not too deep.
pub fn ground_call(
    work: &mut Work,
    history: &History,
    f: Sym,
    arguments: &[TermId],
) -> Result<TermId, AllocError>
    requires stands { WorkStands history.now work.old }
    requires function { f.0 < ground_count }
    requires arguments { All (Stands work.old.bank) arguments.now }
    requires shallow { depth_of (call (ground_text f) (terms_at work.old.bank arguments.now)) ≤ depth_limit }
    ensures call { IfOk result (λ t. IsIdOf work.new.bank t (call (ground_text f) (terms_at work.old.bank arguments.now))) }
    ensures grows { GrowsUncounted history.now work.old work.new }
{
    let name = ground_name(&work.bank, f);
    match work.bank.app(name, arguments) {
        Ok(t) => Ok(t),
        Err(BankFault::Memory) => Err(AllocError),
        Err(BankFault::Deep) => unreachable!(),
    }
}

/// Makes the NOT of a term that has room under one.
pub fn deny(work: &mut Work, history: &History, t: TermId) -> Result<TermId, AllocError>
    requires stands { WorkStands history.now work.old }
    requires term { Stands work.old.bank t }
    requires room { depth_of (term_at work.old.bank t) < depth_limit }
    ensures denied { IfOk result (λ d. IsIdOf work.new.bank d (not_term (term_at work.old.bank t))) }
    ensures grows { GrowsUncounted history.now work.old work.new }
{
    ground_call(work, history, ground::NOT, &[t])
}

/// Adds the line that is cut from two by t.
pub fn add_cut(
    work: &mut Work,
    history: &History,
    first: u64,
    second: u64,
    t: TermId,
) -> Result<u64, AllocError>
    requires stands { WorkStands history.now work.old }
    requires first { LineStands work.old first }
    requires second { LineStands work.old second }
    requires term { Stands work.old.bank t }
    requires over { TermIsIn work.old.bank history.now t }
    ensures line { IfOk result (λ n. (these : List Term) → LineHasOnly work.old first (term_at work.old.bank t ∷ these) → LineHasOnly work.old second (not_term (term_at work.old.bank t) ∷ these) → LineHasOnly work.new n these) }
    ensures stands { IfOk result (λ n. LineStands work.new n) }
    ensures grows { GrowsUncounted history.now work.old work.new }
{
    work.bank.is_sound();
    add_line(work, history, Rule::Cut(first, second, t))
}

/// The symbol of a text in upper case.
pub fn symbol(work: &mut Work, history: &History, text: &[u8]) -> Result<Sym, AllocError>
    requires stands { WorkStands history.now work.old }
    requires symbol { IsTrue (is_symbol text.now) }
    ensures name { IfOk result (λ s. NamesText work.new.bank s text.now) }
    ensures grows { GrowsUncounted history.now work.old work.new }
{
    work.bank.name(text)
}
