//! Terms that lines show.
ghost use Rattle.std.specs.Prelude.{◌≡◌, ◌<◌, All, IfSome, IsTrue};
ghost use Rattle.nq_logic.specs.Terms.{call};
ghost use Rattle.nq_bank.specs.Content.{Stands, IsNamed, text_at, term_at, terms_at};
ghost use Rattle.nq_kernel.specs.Growing.{LineStands, WorkStands};
ghost use Rattle.nq_lines.specs.Lines.{IsTermIn};
ghost use Rattle.nq_lines.specs.Facts.{HasSides, IsEquation, IsOnlyLiteral};

use nq_bank::{Bank, Node, Sym, TermId, ground};
use nq_history::History;
use nq_kernel::Work;

/// A term, and the number of a line that shows it.
#[derive(Clone, Copy, Debug, PartialEq, Eq)]
pub struct Fact {
    /// The term.
    pub term: TermId,
    /// The line.
    pub line: u64,
}

/// The sides of an equation.
#[derive(Clone, Copy, Debug, PartialEq, Eq)]
pub struct Sides {
    /// The left side.
    pub left: TermId,
    /// The right side.
    pub right: TermId,
}

/// The literal of a line, where it has just one.
pub fn literal_of(work: &Work, history: &History, line: u64) -> Option<TermId>
    requires stands { WorkStands history.now work.now }
    requires line { LineStands work.now line }
    ensures { IfSome result (IsOnlyLiteral work.now line) }
{
    let literals = work.log.clause_over(&work.bank, line);
    match literals {
        [t] => Some(*t),
        [] => None,
        _ => None,
    }
}

/// Are two ids one?
pub fn is_same(left: TermId, right: TermId) -> bool
    ensures { IsTrue result → left ≡ right }
{
    left == right
}

/// The sides of a term that is an equation, which are over the history where the term is.
pub fn sides_of(work: &Work, history: &History, t: TermId) -> Option<Sides>
    requires stands { WorkStands history.now work.now }
    requires term { IsTermIn history.now work.now t }
    ensures { IfSome result (IsEquation history.now work.now t) }
{
    match equation_sides(&work.bank, t) {
        Some(sides) => Some(sides),
        None => None,
    }
}

/// The sides of a term that is an equation.
fn equation_sides(bank: &Bank, t: TermId) -> Option<Sides>
    requires { Stands bank.now t }
    ensures { IfSome result (HasSides bank.now t) }
{
    match bank.node(t) {
        Node::App(f, _) => sides_of_call(bank, t, f, bank.args(t)),
        Node::Num(_) => None,
        Node::Var(_) => None,
    }
}

/// The same, of a call of f on these arguments.
fn sides_of_call(bank: &Bank, t: TermId, f: Sym, arguments: &[TermId]) -> Option<Sides>
    requires function { IsNamed bank.now f }
    requires before { All (λ a. a.0 < t.0) arguments.now }
    requires call { term_at bank.now t ≡ call (text_at bank.now f) (terms_at bank.now arguments.now) }
    ensures { IfSome result (HasSides bank.now t) }
{
    if !bank.is_ground(f, ground::EQUAL) {
        return None;
    }
    match arguments {
        [left, right] => Some(Sides {
            left: *left,
            right: *right,
        }),
        [] => None,
        [_] => None,
        _ => None,
    }
}
