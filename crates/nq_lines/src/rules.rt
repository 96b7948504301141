//! Single rules, each told by the literals that its line may hold.
ghost use Rattle.std.specs.Prelude.{◌≡◌, ◌∷◌, [], IfOk, Err};
ghost use Rattle.nq_logic.specs.Words.{not_term, equal_term};
ghost use Rattle.nq_bank.specs.Content.{IsIdOf, term_at};
ghost use Rattle.nq_rule.specs.Sides.{side_of};
ghost use Rattle.nq_kernel.specs.Growing.{WorkStands, WorkGrows, LineStands};
ghost use Rattle.nq_lines.specs.Lines.{IsTermIn, LineLeads, CutsTo, CanReplace, ReplacesTo};
ghost use Rattle.nq_lines.specs.Weakening.{WeakensTo};

use nq_bank::{TermId, ground, ground_name};
use nq_history::History;
use nq_kernel::{Rule, Stop, Work};
use nq_rule::Side;

/// Adds the line that is cut from two by t: the first without t, and the second without `(NOT t)`.
pub fn cut(work: &mut Work, history: &History, a: u64, b: u64, t: TermId) -> Result<u64, Stop>
    requires stands { WorkStands history.now work.old }
    requires first { LineStands work.old a }
    requires second { LineStands work.old b }
    requires term { IsTermIn history.now work.old t }
    ensures line { IfOk result (λ n. CutsTo work.old work.new (term_at work.old.bank t) a b n) }
    ensures stands { IfOk result (λ n. LineStands work.new n) }
    ensures grows { WorkGrows history.now work.old work.new }
    ensures out { result ≡ Err Stop.OutOfSteps → work.new.counter.used ≡ work.new.counter.limit }
{
    work.add(history, Rule::Cut(a, b, t))
}

/// Makes the NOT of a term.
pub fn deny(work: &mut Work, history: &History, t: TermId) -> Result<TermId, Stop>
    requires stands { WorkStands history.now work.old }
    requires term { IsTermIn history.now work.old t }
    ensures denied { IfOk result (λ d. IsIdOf work.new.bank d (not_term (term_at work.old.bank t))) }
    ensures over { IfOk result (λ d. IsTermIn history.now work.new d) }
    ensures grows { WorkGrows history.now work.old work.new }
    ensures out { result ≡ Err Stop.OutOfSteps → work.new.counter.used ≡ work.new.counter.limit }
{
    let name = ground_name(&work.bank, ground::NOT);
    work.app(history, name, &[t])
}

/// Makes the EQUAL of two terms.
pub fn equate(work: &mut Work, history: &History, t: TermId, u: TermId) -> Result<TermId, Stop>
    requires stands { WorkStands history.now work.old }
    requires left { IsTermIn history.now work.old t }
    requires right { IsTermIn history.now work.old u }
    ensures equation { IfOk result (λ e. IsIdOf work.new.bank e (equal_term (term_at work.old.bank t) (term_at work.old.bank u))) }
    ensures over { IfOk result (λ e. IsTermIn history.now work.new e) }
    ensures grows { WorkGrows history.now work.old work.new }
    ensures out { result ≡ Err Stop.OutOfSteps → work.new.counter.used ≡ work.new.counter.limit }
{
    let name = ground_name(&work.bank, ground::EQUAL);
    work.app(history, name, &[t, u])
}

/// Adds the line of t and its NOT, t first.
pub fn opposites(work: &mut Work, history: &History, t: TermId) -> Result<u64, Stop>
    requires stands { WorkStands history.now work.old }
    requires term { IsTermIn history.now work.old t }
    ensures line { IfOk result (λ n. LineLeads work.new n (term_at work.old.bank t) (not_term (term_at work.old.bank t) ∷ [])) }
    ensures grows { WorkGrows history.now work.old work.new }
    ensures out { result ≡ Err Stop.OutOfSteps → work.new.counter.used ≡ work.new.counter.limit }
{
    let denied = deny(work, history, t)?;
    opposites_of(work, history, t, denied)
}

/// Adds the line of t and its NOT, whose id is known.
fn opposites_of(work: &mut Work, history: &History, t: TermId, denied: TermId) -> Result<u64, Stop>
    requires stands { WorkStands history.now work.old }
    requires term { IsTermIn history.now work.old t }
    requires denied { IsIdOf work.old.bank denied (not_term (term_at work.old.bank t)) }
    requires over { IsTermIn history.now work.old denied }
    ensures line { IfOk result (λ n. LineLeads work.new n (term_at work.old.bank t) (not_term (term_at work.old.bank t) ∷ [])) }
    ensures grows { WorkGrows history.now work.old work.new }
    ensures out { result ≡ Err Stop.OutOfSteps → work.new.counter.used ≡ work.new.counter.limit }
{
    match vec![in work.bank.alloc(); t, denied] {
        Ok(terms) => work.find_or_add(history, Rule::Taut(terms)),
        Err(_) => Err(Stop::Memory),
    }
}

/// Adds a line with t after the literals of another, if it is not among them.
pub fn weaken(work: &mut Work, history: &History, line: u64, t: TermId) -> Result<u64, Stop>
    requires stands { WorkStands history.now work.old }
    requires line { LineStands work.old line }
    requires term { IsTermIn history.now work.old t }
    ensures line { IfOk result (λ n. WeakensTo work.old work.new line (term_at work.old.bank t) n) }
    ensures grows { WorkGrows history.now work.old work.new }
    ensures out { result ≡ Err Stop.OutOfSteps → work.new.counter.used ≡ work.new.counter.limit }
{
    match vec![in work.bank.alloc(); t] {
        Ok(terms) => work.add(history, Rule::Weaken(line, terms)),
        Err(_) => Err(Stop::Memory),
    }
}

/// Adds the line of `(EQUAL t t)`.
pub fn reflexive(work: &mut Work, history: &History, t: TermId) -> Result<u64, Stop>
    requires stands { WorkStands history.now work.old }
    requires term { IsTermIn history.now work.old t }
    ensures line { IfOk result (λ n. LineLeads work.new n (equal_term (term_at work.old.bank t) (term_at work.old.bank t)) []) }
    ensures grows { WorkGrows history.now work.old work.new }
    ensures out { result ≡ Err Stop.OutOfSteps → work.new.counter.used ≡ work.new.counter.limit }
{
    work.find_or_add(history, Rule::Reflexive(t))
}

/// Adds a line with u at a path of its first literal, and with the equation of what stood there and u as a hypothesis.
pub fn replace_first(
    work: &mut Work,
    history: &History,
    line: u64,
    path: Vec<u64>,
    u: TermId,
    side: Side,
) -> Result<u64, Stop>
    requires stands { WorkStands history.now work.old }
    requires term { IsTermIn history.now work.old u }
    requires can { CanReplace work.old line path.items (term_at work.old.bank u) }
    ensures line { IfOk result (λ n. ReplacesTo work.old work.new line path.items (term_at work.old.bank u) (side_of side) n) }
    ensures grows { WorkGrows history.now work.old work.new }
    ensures out { result ≡ Err Stop.OutOfSteps → work.new.counter.used ≡ work.new.counter.limit }
{
    work.add(history, Rule::Replace(line, 1, path, u, side))
}
