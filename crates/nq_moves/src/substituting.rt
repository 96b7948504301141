//! SUBST: which hypothesis equation of a goal is used up.
ghost use Rattle.std.specs.Prelude.{◌≡◌, ◌∷◌, [], All, IfOk, Some, None, Ok, Err, MatchOption};
ghost use Rattle.nq_logic.specs.Terms.{Variable};
ghost use Rattle.nq_bank.specs.Content.{Stands, IsNamed, text_at, term_at, terms_at};
ghost use Rattle.nq_goals.specs.Equations.{both_orders, readings};
ghost use Rattle.nq_goals.specs.Substituting.{from_sides, from_readings, from_literals, substitutions_of, substituted_goal};
ghost use Rattle.nq_lines.specs.Lines.{IsTermIn, LineHasOnly};
ghost use Rattle.nq_moves.specs.Dropped.{HoldChildren};
ghost use Rattle.nq_moves.specs.Found.{goals_at, sides_at, SidesStand, FindsOne, FoundStands, IsFound, IsSubstituted, substituting_at};
ghost use Rattle.nq_kernel.specs.declared.verdict.MoveKind.TheVariants as kind;
ghost use Rattle.nq_kernel.specs.Growing.{WorkStands, WorkGrows};

use crate::back::{close_exchanged, other_side};
use crate::clauses::{clause_without, distinct_clause};
use crate::counted::substitute_all;
use crate::equations::{Sides, sides_under};
use crate::moved::{Moved, Why};
use nq_bank::{Bank, Node, Sym, TermId};
use nq_clause::{Pair, occurs_in};
use nq_history::History;
use nq_kernel::{MoveKind, Stop, Work};
use std::alloc::{AllocError, Global};

/// A literal that denies an equation of a variable and a term.
#[derive(Clone, Copy, Debug, PartialEq, Eq)]
pub struct Found {
    /// The literal.
    pub literal: TermId,
    /// The name of the variable.
    pub variable: Sym,
    /// The term.
    pub term: TermId,
}

/// What an equation gives that is read from left to right.
fn find_in_sides(
    bank: &Bank,
    literal: TermId,
    left: TermId,
    right: TermId,
) -> Result<Option<Found>, AllocError>
    requires literal { Stands bank.now literal }
    requires left { Stands bank.now left }
    requires right { Stands bank.now right }
    ensures { IfOk result (FindsOne bank.now (from_sides (term_at bank.now literal) (term_at bank.now left) (term_at bank.now right))) }
{
    match bank.node(left) {
        Node::Var(v) => find_of_variable(bank, literal, v, right),
        Node::Num(_) => Ok(None),
        Node::App(_, _) => Ok(None),
    }
}

fn find_of_variable(
    bank: &Bank,
    literal: TermId,
    variable: Sym,
    term: TermId,
) -> Result<Option<Found>, AllocError>
    requires literal { Stands bank.now literal }
    requires variable { IsNamed bank.now variable }
    requires term { Stands bank.now term }
    ensures { IfOk result (FindsOne bank.now (from_sides (term_at bank.now literal) (Variable (text_at bank.now variable)) (term_at bank.now term))) }
{
    if occurs_in(bank, variable, term)? {
        Ok(None)
    } else {
        Ok(Some(Found {
            literal,
            variable,
            term,
        }))
    }
}

/// What an equation gives that is read in either order.
fn find_in_equation(bank: &Bank, literal: TermId, sides: Sides) -> Result<Option<Found>, AllocError>
    requires literal { Stands bank.now literal }
    requires sides { SidesStand bank.now sides }
    ensures { IfOk result (FindsOne bank.now (from_readings (term_at bank.now literal) (both_orders (Some (sides_at bank.now sides))))) }
{
    match find_in_sides(bank, literal, sides.left, sides.right)? {
        Some(found) => Ok(Some(found)),
        None => find_in_sides(bank, literal, sides.right, sides.left),
    }
}

/// What a literal gives.
fn find_in_literal(bank: &Bank, literal: TermId) -> Result<Option<Found>, AllocError>
    requires literal { Stands bank.now literal }
    ensures { IfOk result (FindsOne bank.now (from_readings (term_at bank.now literal) (readings (term_at bank.now literal)))) }
{
    match sides_under(bank, literal) {
        Some(sides) => find_in_equation(bank, literal, sides),
        None => Ok(None),
    }
}

/// The first candidate of a goal; none exactly where there is no candidate.
pub fn find_substitution(bank: &Bank, goal: &[TermId]) -> Result<Option<Found>, AllocError>
    requires { All (Stands bank.now) goal.now }
    ensures { IfOk result (FindsOne bank.now (substitutions_of (terms_at bank.now goal.now))) }
{
    for literal in goal {
        if let Some(found) = find_in_literal(bank, *literal)? {
            return Ok(Some(found));
        }
    }
    Ok(None)
}

/// The same, where want of memory stops work.
fn first_substitution(bank: &Bank, goal: &[TermId]) -> Result<Option<Found>, Stop>
    requires { All (Stands bank.now) goal.now }
    ensures found { IfOk result (FindsOne bank.now (substitutions_of (terms_at bank.now goal.now))) }
    ensures memory { result ≡ Err Stop.OutOfSteps → ⊥ }
{
    match find_substitution(bank, goal) {
        Ok(found) => Ok(found),
        Err(_) => Err(Stop::Memory),
    }
}

/// The goal without the equation, with the term in place of the variable.
fn substituted(
    work: &mut Work,
    history: &History,
    goal: &[TermId],
    found: Found,
) -> Result<Vec<TermId>, Stop>
    requires stands { WorkStands history.now work.old }
    requires goal { All (Stands work.old.bank) goal.now }
    requires found { FoundStands work.old.bank found }
    ensures goal { IfOk result (λ c. terms_at work.new.bank c.items ≡ substituted_goal (substituting_at work.old.bank found) (terms_at work.old.bank goal.now)) }
    ensures stand { IfOk result (λ c. All (Stands work.new.bank) c.items) }
    ensures grows { WorkGrows history.now work.old work.new }
    ensures out { result ≡ Err Stop.OutOfSteps → work.new.counter.used ≡ work.new.counter.limit }
{
    let rest = clause_without(&work.bank, found.literal, goal)?;
    let pair = Pair {
        variable: found.variable,
        term: found.term,
    };
    let terms = substitute_all(work, history, rest.as_slice(), &[pair])?;
    distinct_clause(&work.bank, terms.as_slice())
}

/// What SUBST leads to.
fn moved_by(alloc: Global, found: Found, child: Vec<TermId>) -> Result<Moved, Stop>
    ensures kind { IfOk result (λ moved. moved.why.kind ≡ kind.Subst) }
    ensures children { IfOk result (λ moved. moved.children.items ≡ child ∷ []) }
    ensures pairs { IfOk result (λ moved. moved.why.pairs.items ≡ record { variable = found.variable; term = found.term } ∷ []) }
    ensures literals { IfOk result (λ moved. moved.why.literals.items ≡ found.literal ∷ []) }
    ensures memory { result ≡ Err Stop.OutOfSteps → ⊥ }
{
    match try_moved_by(alloc, found, child) {
        Ok(moved) => Ok(moved),
        Err(_) => Err(Stop::Memory),
    }
}

fn try_moved_by(alloc: Global, found: Found, child: Vec<TermId>) -> Result<Moved, AllocError>
    ensures kind { IfOk result (λ moved. moved.why.kind ≡ kind.Subst) }
    ensures children { IfOk result (λ moved. moved.children.items ≡ child ∷ []) }
    ensures pairs { IfOk result (λ moved. moved.why.pairs.items ≡ record { variable = found.variable; term = found.term } ∷ []) }
    ensures literals { IfOk result (λ moved. moved.why.literals.items ≡ found.literal ∷ []) }
{
    let pair = Pair {
        variable: found.variable,
        term: found.term,
    };
    let pairs = vec![in alloc; pair]?;
    let literals = vec![in alloc; found.literal]?;
    let mut children = Vec::new(alloc);
    children.push(child)?;
    let why = Why {
        kind: MoveKind::Subst,
        lines: Vec::new(alloc),
        pairs,
        literals,
        crossing: None,
        eliminated: None,
    };
    Ok(Moved { children, why })
}

/// The move of a candidate.
fn substitute_found(
    work: &mut Work,
    history: &History,
    goal: &[TermId],
    found: Found,
) -> Result<Moved, Stop>
    requires stands { WorkStands history.now work.old }
    requires goal { All (Stands work.old.bank) goal.now }
    requires found { IsFound work.old.bank (substitutions_of (terms_at work.old.bank goal.now)) found }
    ensures moved { IfOk result (IsSubstituted work.old.bank work.new.bank goal.now) }
    ensures grows { WorkGrows history.now work.old work.new }
    ensures out { result ≡ Err Stop.OutOfSteps → work.new.counter.used ≡ work.new.counter.limit }
{
    let child = substituted(work, history, goal, found)?;
    moved_by(work.bank.alloc(), found, child)
}

/// SUBST of the first candidate. It is none exactly where there is no candidate, and then uses no steps.
pub fn substitute_first(
    work: &mut Work,
    history: &History,
    goal: &[TermId],
) -> Result<Option<Moved>, Stop>
    requires stands { WorkStands history.now work.old }
    requires goal { All (Stands work.old.bank) goal.now }
    ensures moved { IfOk result (λ moved. MatchOption moved (substitutions_of (terms_at work.old.bank goal.now) ≡ []) (IsSubstituted work.old.bank work.new.bank goal.now)) }
    ensures none { result ≡ Ok None → work.new ≡ work.old }
    ensures candidate { result ≡ Err Stop.OutOfSteps → substitutions_of (terms_at work.old.bank goal.now) ≡ [] → ⊥ }
    ensures grows { WorkGrows history.now work.old work.new }
    ensures out { result ≡ Err Stop.OutOfSteps → work.new.counter.used ≡ work.new.counter.limit }
{
    match first_substitution(&work.bank, goal)? {
        Some(found) => {
            let moved = substitute_found(work, history, goal, found)?;
            Ok(Some(moved))
        }
        None => Ok(None),
    }
}

/// Adds the line of a goal, from that of the goal to which a candidate leads.
fn close_found(
    work: &mut Work,
    history: &History,
    goal: &[TermId],
    found: Found,
    line: u64,
) -> Result<u64, Stop>
    requires stands { WorkStands history.now work.old }
    requires goal { All (IsTermIn history.now work.old) goal.now }
    requires found { IsFound work.old.bank (substitutions_of (terms_at work.old.bank goal.now)) found }
    requires line { LineHasOnly work.old line (substituted_goal (substituting_at work.old.bank found) (terms_at work.old.bank goal.now)) }
    ensures line { IfOk result (λ n. LineHasOnly work.new n (terms_at work.old.bank goal.now)) }
    ensures grows { WorkGrows history.now work.old work.new }
    ensures out { result ≡ Err Stop.OutOfSteps → work.new.counter.used ≡ work.new.counter.limit }
{
    let from = other_side(&work.bank, found.literal, found.term);
    close_exchanged(work, history, goal, found.literal, from, found.term, line)
}

/// Adds the line of a goal, from that of the one child of SUBST.
pub fn close_substitution(
    work: &mut Work,
    history: &History,
    goal: &[TermId],
    moved: &Moved,
    lines: &[u64],
) -> Result<u64, Stop>
    requires stands { WorkStands history.now work.old }
    requires goal { All (IsTermIn history.now work.old) goal.now }
    requires moved { IsSubstituted work.old.bank work.old.bank goal.now moved.now }
    requires lines { HoldChildren work.old (goals_at work.old.bank moved.now.children.items) lines.now }
    ensures line { IfOk result (λ n. LineHasOnly work.new n (terms_at work.old.bank goal.now)) }
    ensures grows { WorkGrows history.now work.old work.new }
    ensures out { result ≡ Err Stop.OutOfSteps → work.new.counter.used ≡ work.new.counter.limit }
{
    let literal = moved.why.literals[0];
    let pair = moved.why.pairs[0];
    let found = Found {
        literal,
        variable: pair.variable,
        term: pair.term,
    };
    close_found(work, history, goal, found, lines[0])
}
