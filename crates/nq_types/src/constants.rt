//! Terms that are T or F.
ghost use Rattle.std.specs.Prelude.{◌≡◌, ◌∷◌, ◌<◌, [], Bool, IfOk, Err};
ghost use Rattle.nq_logic.specs.Words.{equal_term};
ghost use Rattle.nq_bank.specs.Content.{IsIdOf, IsNamed, text_at, term_at, terms_at};
ghost use Rattle.nq_bank.specs.GroundNames.{ground_count};
ghost use Rattle.nq_bank.specs.Soundness.{ground_text};
ghost use Rattle.nq_clause.specs.Substitution.{substitution_at};
ghost use Rattle.nq_kernel.specs.Growing.{LineStands, WorkGrows, WorkStands};
ghost use Rattle.nq_lines.specs.Instances.{ArePairsIn};
ghost use Rattle.nq_lines.specs.Lines.{IsTermIn, LineHasOnly, MakesOf};
ghost use Rattle.nq_types.specs.Parts.{constant_of, recognizer_of};
ghost use Rattle.nq_types.specs.TypeSets.{recognized_by};
ghost use Rattle.std.specs.Prelude.{codes};

use nq_bank::{Sym, TermId, ground, ground_name};
use nq_clause::Pair;
use nq_history::History;
use nq_kernel::{Stop, Work};
use nq_lines::{axiom_row, equate, reflexive, rewrite_literal, symbol};
use nq_rule::Side;

/// The pair of X and a term.
pub fn pair_of_x(work: &mut Work, history: &History, t: TermId) -> Result<Vec<Pair>, Stop>
    requires stands { WorkStands history.now work.old }
    requires term { IsTermIn history.now work.old t }
    ensures pairs { IfOk result (λ ps. substitution_at work.new.bank ps.items ≡ (codes "X", term_at work.old.bank t) ∷ []) }
    ensures over { IfOk result (λ ps. ArePairsIn history.now work.new ps.items) }
    ensures grows { WorkGrows history.now work.old work.new }
    ensures memory { result ≡ Err Stop.OutOfSteps → ⊥ }
{
    let x = symbol(work, history, b"X")?;
    match vec![in work.bank.alloc();
        Pair {
            variable: x,
            term: t
        },
    ] {
        Ok(pairs) => Ok(pairs),
        Err(_) => Err(Stop::Memory),
    }
}

/// The recognizer of T or of F.
fn recognizer(truth: bool) -> Sym
    ensures ground { result.0 < ground_count }
    ensures name { ground_text result ≡ recognizer_of truth }
{
    if truth { ground::TRUEP } else { ground::FALSEP }
}

/// Adds the line of the definition of the recognizer of T or of F, at a term.
pub fn recognizer_opens(
    work: &mut Work,
    history: &History,
    truth: bool,
    t: TermId,
) -> Result<u64, Stop>
    requires stands { WorkStands history.now work.old }
    requires term { IsTermIn history.now work.old t }
    ensures line { IfOk result (λ n. LineHasOnly work.new n (equal_term (recognized_by (recognizer_of truth) (term_at work.old.bank t)) (equal_term (term_at work.old.bank t) (constant_of truth)) ∷ [])) }
    ensures grows { WorkGrows history.now work.old work.new }
    ensures out { result ≡ Err Stop.OutOfSteps → work.new.counter.used ≡ work.new.counter.limit }
{
    let pairs = pair_of_x(work, history, t)?;
    let name = ground_name(&work.bank, recognizer(truth));
    axiom_row(work, history, name, 1, 0, pairs)
}

/// Makes the call of the recognizer of T or of F on a term.
pub fn recognized(
    work: &mut Work,
    history: &History,
    truth: bool,
    t: TermId,
) -> Result<TermId, Stop>
    requires stands { WorkStands history.now work.old }
    requires term { IsTermIn history.now work.old t }
    ensures call { IfOk result (λ u. IsIdOf work.new.bank u (recognized_by (recognizer_of truth) (term_at work.old.bank t))) }
    ensures over { IfOk result (λ u. IsTermIn history.now work.new u) }
    ensures grows { WorkGrows history.now work.old work.new }
    ensures out { result ≡ Err Stop.OutOfSteps → work.new.counter.used ≡ work.new.counter.limit }
{
    let name = ground_name(&work.bank, recognizer(truth));
    work.app(history, name, &[t])
}

/// Adds a line that a term is recognized as T or F, from one that it equals it; `c` is the id of that.
pub fn by_equation(
    work: &mut Work,
    history: &History,
    truth: bool,
    t: TermId,
    c: TermId,
    line: u64,
) -> Result<u64, Stop>
    requires stands { WorkStands history.now work.old }
    requires term { IsTermIn history.now work.old t }
    requires constant { IsTermIn history.now work.old c }
    requires denotes { term_at work.old.bank c ≡ constant_of truth }
    requires line { LineStands work.old line }
    ensures line { IfOk result (λ n. MakesOf work.old work.new (equal_term (term_at work.old.bank t) (constant_of truth)) (recognized_by (recognizer_of truth) (term_at work.old.bank t)) line n) }
    ensures stands { IfOk result (λ n. LineStands work.new n) }
    ensures grows { WorkGrows history.now work.old work.new }
    ensures out { result ≡ Err Stop.OutOfSteps → work.new.counter.used ≡ work.new.counter.limit }
{
    let e = equate(work, history, t, c)?;
    let r = recognized(work, history, truth, t)?;
    let law = recognizer_opens(work, history, truth, t)?;
    rewrite_literal(work, history, Side::Backwards, e, r, line, law)
}

/// Adds the line that T or F is recognized as such; `c` is its id.
pub fn constant_line(
    work: &mut Work,
    history: &History,
    truth: bool,
    c: TermId,
) -> Result<u64, Stop>
    requires stands { WorkStands history.now work.old }
    requires constant { IsTermIn history.now work.old c }
    requires denotes { term_at work.old.bank c ≡ constant_of truth }
    ensures line { IfOk result (λ n. LineHasOnly work.new n (recognized_by (recognizer_of truth) (term_at work.old.bank c) ∷ [])) }
    ensures grows { WorkGrows history.now work.old work.new }
    ensures out { result ≡ Err Stop.OutOfSteps → work.new.counter.used ≡ work.new.counter.limit }
{
    let line = reflexive(work, history, c)?;
    by_equation(work, history, truth, c, c, line)
}
