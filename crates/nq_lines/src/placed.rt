//! Literals that are replaced in the line where they stand.
ghost use Rattle.std.specs.Prelude.{◌≡◌, ◌≤◌, ◌-◌, IfOk, IfSome, IsSome, Err, Some, false, slice_get};
ghost use Rattle.nq_logic.specs.Words.{not_term, equal_term};
ghost use Rattle.nq_bank.specs.Content.{term_at};
ghost use Rattle.nq_proof.specs.Paths.{replaced_at};
ghost use Rattle.nq_proof.specs.Rules.{used_equation};
ghost use Rattle.nq_rule.specs.Sides.{side_of};
ghost use Rattle.nq_kernel.specs.Growing.{WorkStands, WorkGrows, LineStands};
ghost use Rattle.nq_lines.specs.Lines.{IsTermIn, IsLiteralAt, LacksLiteral, MakesUnder, ReplacesAnywhere};

use crate::equality::one_place;
use crate::facts::is_same;
use crate::rules::{deny, equate};
use nq_bank::TermId;
use nq_history::History;
use nq_kernel::{Rule, Stop, Work};
use nq_rule::{Side, contains};

/// The place of a term among these, counted from 1.
fn place_among(terms: &[TermId], t: TermId) -> Option<u64>
    ensures { IfSome result (λ k. (1 ≤ k) × (slice_get terms.now (k - 1) ≡ Some t)) }
{
    for (i, u) in terms.iter().enumerate() {
        if is_same(*u, t) {
            return Some(i as u64 + 1);
        }
    }
    None
}

/// The place of a literal of a line, counted from 1.
fn place_of(work: &Work, history: &History, line: u64, literal: TermId) -> Option<u64>
    requires stands { WorkStands history.now work.now }
    requires line { LineStands work.now line }
    ensures { IfSome result (λ k. IsLiteralAt work.now line k (term_at work.now.bank literal)) }
{
    place_among(work.log.clause_over(&work.bank, line), literal)
}

/// Is a term a literal of a line?
fn has_literal(work: &Work, history: &History, line: u64, t: TermId) -> bool
    requires stands { WorkStands history.now work.now }
    requires line { LineStands work.now line }
    requires term { IsTermIn history.now work.now t }
    ensures { result ≡ false → LacksLiteral work.now line (term_at work.now.bank t) }
{
    contains(&work.bank, t, work.log.clause_over(&work.bank, line))
}

/// Adds a line with u at a path of a literal of another, and with the equation of what stood there and u as a hypothesis, if the
/// other has the literal, and just once.
pub fn replace_literal(
    work: &mut Work,
    history: &History,
    line: u64,
    literal: TermId,
    path: Vec<u64>,
    u: TermId,
    side: Side,
) -> Result<Option<u64>, Stop>
    requires stands { WorkStands history.now work.old }
    requires line { LineStands work.old line }
    requires literal { IsTermIn history.now work.old literal }
    requires term { IsTermIn history.now work.old u }
    requires path { IsSome (replaced_at path.items (term_at work.old.bank u) (term_at work.old.bank literal)) }
    ensures line { IfOk result (λ found. IfSome found (ReplacesAnywhere work.old work.new line (term_at work.old.bank literal) path.items (term_at work.old.bank u) (side_of side))) }
    ensures stands { IfOk result (λ found. IfSome found (LineStands work.new)) }
    ensures grows { WorkGrows history.now work.old work.new }
    ensures out { result ≡ Err Stop.OutOfSteps → work.new.counter.used ≡ work.new.counter.limit }
{
    match place_of(work, history, line, literal) {
        Some(place) => {
            let n = work.add(history, Rule::Replace(line, place, path, u, side))?;
            if has_literal(work, history, n, literal) {
                Ok(None)
            } else {
                Ok(Some(n))
            }
        }
        None => Ok(None),
    }
}

/// Adds a line with `(EQUAL t v)` for the literal `(EQUAL t u)` of another, and with the equation of u and v as a hypothesis, if
/// the other has the literal, and just once.
pub fn replace_right(
    work: &mut Work,
    history: &History,
    t: TermId,
    u: TermId,
    v: TermId,
    line: u64,
) -> Result<Option<u64>, Stop>
    requires stands { WorkStands history.now work.old }
    requires left { IsTermIn history.now work.old t }
    requires middle { IsTermIn history.now work.old u }
    requires right { IsTermIn history.now work.old v }
    requires line { LineStands work.old line }
    ensures line { IfOk result (λ found. IfSome found (MakesUnder work.old work.new (equal_term (term_at work.old.bank t) (term_at work.old.bank u)) (equal_term (term_at work.old.bank t) (term_at work.old.bank v)) (not_term (equal_term (term_at work.old.bank u) (term_at work.old.bank v))) line)) }
    ensures stands { IfOk result (λ found. IfSome found (LineStands work.new)) }
    ensures grows { WorkGrows history.now work.old work.new }
    ensures out { result ≡ Err Stop.OutOfSteps → work.new.counter.used ≡ work.new.counter.limit }
{
    let path = one_place(work.bank.alloc(), 2)?;
    let e = equate(work, history, t, u)?;
    replace_literal(work, history, line, e, path, v, Side::Forwards)
}

/// Adds a line with `(NOT u)` for the literal `(NOT t)` of another, and with the equation of t and u as a hypothesis, if the other
/// has the literal, and just once.
pub fn replace_denied(
    work: &mut Work,
    history: &History,
    side: Side,
    t: TermId,
    u: TermId,
    line: u64,
) -> Result<Option<u64>, Stop>
    requires stands { WorkStands history.now work.old }
    requires left { IsTermIn history.now work.old t }
    requires right { IsTermIn history.now work.old u }
    requires line { LineStands work.old line }
    ensures line { IfOk result (λ found. IfSome found (MakesUnder work.old work.new (not_term (term_at work.old.bank t)) (not_term (term_at work.old.bank u)) (used_equation (side_of side) (term_at work.old.bank t) (term_at work.old.bank u)) line)) }
    ensures stands { IfOk result (λ found. IfSome found (LineStands work.new)) }
    ensures grows { WorkGrows history.now work.old work.new }
    ensures out { result ≡ Err Stop.OutOfSteps → work.new.counter.used ≡ work.new.counter.limit }
{
    let path = one_place(work.bank.alloc(), 1)?;
    let denied = deny(work, history, t)?;
    replace_literal(work, history, line, denied, path, u, side)
}
