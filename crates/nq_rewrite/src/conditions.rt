//! IFs whose tests are calls of NOT or IFs, rewritten by laws of IF.
//!
//! The equation of a law is made, and it is tested that the line of the law has it alone.
ghost use Rattle.std.specs.Prelude.{◌≡◌, IfOk, IfSome, Err};
ghost use Rattle.nq_bank.specs.Content.{term_at, terms_at};
ghost use Rattle.nq_kernel.specs.Growing.{LineStands, WorkGrows, WorkStands};
ghost use Rattle.nq_lines.specs.Branches.{AreBranchesIn};
ghost use Rattle.nq_lines.specs.Facts.{IsFact};
ghost use Rattle.nq_lines.specs.Lines.{IsTermIn};
ghost use Rattle.nq_reduce.specs.Rewriting.{CanRewrite, IsRewritten};

use crate::search::Search;
use nq_bank::TermId;
use nq_history::History;
use nq_kernel::{Stop, Work};
use nq_lines::{
    Fact, Sides, condition, deny, equate, has_only, is_same, literal_of, matched_fact, variable,
};
use nq_number_laws::{PlainLaw, plain_line};
use nq_reduce::{Rewritten, rewritten_by, unchanged};
use nq_rule::Branches;

/// A law of IF.
#[derive(Clone, Copy)]
pub enum TestLaw {
    /// `(IF (NOT A) X Y)` is `(IF A Y X)`.
    Turned,
    /// `(IF (IF A B Z) X Y)` is `(IF A (IF B X Y) (IF Z X Y))`.
    Nested,
}

/// The number of a law, and which it is of the laws of the log.
fn law_of(law: TestLaw) -> (u64, PlainLaw) {
    match law {
        TestLaw::Turned => (0, PlainLaw::TurnedTest),
        TestLaw::Nested => (1, PlainLaw::NestedTest),
    }
}

/// The sides of the first law, over variables.
fn turned_sides(work: &mut Work, history: &History) -> Result<Sides, Stop>
    requires stands { WorkStands history.now work.old }
    ensures left { IfOk result (λ sides. IsTermIn history.now work.new sides.left) }
    ensures right { IfOk result (λ sides. IsTermIn history.now work.new sides.right) }
    ensures grows { WorkGrows history.now work.old work.new }
    ensures out { result ≡ Err Stop.OutOfSteps → work.new.counter.used ≡ work.new.counter.limit }
{
    let a = variable(work, history, b"A")?;
    let x = variable(work, history, b"X")?;
    let y = variable(work, history, b"Y")?;
    let test = deny(work, history, a)?;
    sides_of_parts(
        work,
        history,
        Branches {
            test,
            first: x,
            second: y,
        },
        Branches {
            test: a,
            first: y,
            second: x,
        },
    )
}

/// Two IFs as sides.
fn sides_of_parts(
    work: &mut Work,
    history: &History,
    left: Branches,
    right: Branches,
) -> Result<Sides, Stop>
    requires stands { WorkStands history.now work.old }
    requires left { AreBranchesIn history.now work.old left }
    requires right { AreBranchesIn history.now work.old right }
    ensures left { IfOk result (λ sides. IsTermIn history.now work.new sides.left) }
    ensures right { IfOk result (λ sides. IsTermIn history.now work.new sides.right) }
    ensures grows { WorkGrows history.now work.old work.new }
    ensures out { result ≡ Err Stop.OutOfSteps → work.new.counter.used ≡ work.new.counter.limit }
{
    let left = condition(work, history, left)?;
    let right = condition(work, history, right)?;
    Ok(Sides { left, right })
}

/// The sides of the second law, where the parts of the test are known.
fn spread_sides(
    work: &mut Work,
    history: &History,
    test: Branches,
    x: TermId,
    y: TermId,
) -> Result<Sides, Stop>
    requires stands { WorkStands history.now work.old }
    requires test { AreBranchesIn history.now work.old test }
    requires first { IsTermIn history.now work.old x }
    requires second { IsTermIn history.now work.old y }
    ensures left { IfOk result (λ sides. IsTermIn history.now work.new sides.left) }
    ensures right { IfOk result (λ sides. IsTermIn history.now work.new sides.right) }
    ensures grows { WorkGrows history.now work.old work.new }
    ensures out { result ≡ Err Stop.OutOfSteps → work.new.counter.used ≡ work.new.counter.limit }
{
    let whole = condition(work, history, test)?;
    let first = condition(
        work,
        history,
        Branches {
            test: test.first,
            first: x,
            second: y,
        },
    )?;
    let second = condition(
        work,
        history,
        Branches {
            test: test.second,
            first: x,
            second: y,
        },
    )?;
    sides_of_parts(
        work,
        history,
        Branches {
            test: whole,
            first: x,
            second: y,
        },
        Branches {
            test: test.test,
            first,
            second,
        },
    )
}

/// The sides of the second law, over variables.
fn nested_sides(work: &mut Work, history: &History) -> Result<Sides, Stop>
    requires stands { WorkStands history.now work.old }
    ensures left { IfOk result (λ sides. IsTermIn history.now work.new sides.left) }
    ensures right { IfOk result (λ sides. IsTermIn history.now work.new sides.right) }
    ensures grows { WorkGrows history.now work.old work.new }
    ensures out { result ≡ Err Stop.OutOfSteps → work.new.counter.used ≡ work.new.counter.limit }
{
    let a = variable(work, history, b"A")?;
    let b = variable(work, history, b"B")?;
    let z = variable(work, history, b"Z")?;
    let x = variable(work, history, b"X")?;
    let y = variable(work, history, b"Y")?;
    spread_sides(
        work,
        history,
        Branches {
            test: a,
            first: b,
            second: z,
        },
        x,
        y,
    )
}

/// The sides of a law, over variables.
fn sides_of_law(work: &mut Work, history: &History, law: TestLaw) -> Result<Sides, Stop>
    requires stands { WorkStands history.now work.old }
    ensures left { IfOk result (λ sides. IsTermIn history.now work.new sides.left) }
    ensures right { IfOk result (λ sides. IsTermIn history.now work.new sides.right) }
    ensures grows { WorkGrows history.now work.old work.new }
    ensures out { result ≡ Err Stop.OutOfSteps → work.new.counter.used ≡ work.new.counter.limit }
{
    match law {
        TestLaw::Turned => turned_sides(work, history),
        TestLaw::Nested => nested_sides(work, history),
    }
}

/// The line of a law: the one that was added before, or a new one, which is not counted.
fn law_line(
    work: &mut Work,
    history: &History,
    search: &mut Search,
    law: TestLaw,
) -> Result<u64, Stop>
    requires stands { WorkStands history.now work.old }
    ensures grows { WorkGrows history.now work.old work.new }
    ensures memory { result ≡ Err Stop.OutOfSteps → ⊥ }
{
    let (number, plain) = law_of(law);
    match search.learnt.law_line(number) {
        Some(line) => Ok(line),
        None => match plain_line(work, history, plain) {
            Ok(line) => {
                search.learnt.keep_law(number, line);
                Ok(line)
            }
            Err(_) => Err(Stop::Memory),
        },
    }
}

/// Rewrites an IF by an instance of a law whose sides these are.
fn by_sides(
    work: &mut Work,
    history: &History,
    assumed: &[TermId],
    t: TermId,
    sides: Sides,
    line: u64,
) -> Result<Rewritten, Stop>
    requires can { CanRewrite history.now work.old assumed.now t }
    requires left { IsTermIn history.now work.old sides.left }
    requires right { IsTermIn history.now work.old sides.right }
    ensures ok { IfOk result (λ r. IsRewritten history.now work.new (terms_at work.old.bank assumed.now) (term_at work.old.bank t) r) }
    ensures grows { WorkGrows history.now work.old work.new }
    ensures out { result ≡ Err Stop.OutOfSteps → work.new.counter.used ≡ work.new.counter.limit }
{
    let equation = equate(work, history, sides.left, sides.right)?;
    if has_only(work, history, line, &[equation]) {
        by_line(work, history, assumed, t, sides.left, equation, line)
    } else {
        Ok(unchanged(t))
    }
}

/// The same, where a line has no literal but the equation.
fn by_line(
    work: &mut Work,
    history: &History,
    assumed: &[TermId],
    t: TermId,
    left: TermId,
    equation: TermId,
    line: u64,
) -> Result<Rewritten, Stop>
    requires can { CanRewrite history.now work.old assumed.now t }
    requires left { IsTermIn history.now work.old left }
    requires equation { IsTermIn history.now work.old equation }
    requires line { LineStands work.old line }
    ensures ok { IfOk result (λ r. IsRewritten history.now work.new (terms_at work.old.bank assumed.now) (term_at work.old.bank t) r) }
    ensures grows { WorkGrows history.now work.old work.new }
    ensures out { result ≡ Err Stop.OutOfSteps → work.new.counter.used ≡ work.new.counter.limit }
{
    match fact_of(work, history, equation, line) {
        Some(fact) => by_fact(work, history, assumed, t, left, fact),
        None => Ok(unchanged(t)),
    }
}

/// A term that a line shows, if it is the line's one literal.
fn fact_of(work: &Work, history: &History, t: TermId, line: u64) -> Option<Fact>
    requires stands { WorkStands history.now work.now }
    requires term { IsTermIn history.now work.now t }
    requires line { LineStands work.now line }
    ensures { IfSome result (IsFact history.now work.now) }
{
    match literal_of(work, history, line) {
        Some(literal) => {
            if is_same(literal, t) {
                Some(Fact { term: t, line })
            } else {
                None
            }
        }
        None => None,
    }
}

/// Rewrites a term by the instance of a shown equation that takes its left side to the term.
fn by_fact(
    work: &mut Work,
    history: &History,
    assumed: &[TermId],
    t: TermId,
    left: TermId,
    fact: Fact,
) -> Result<Rewritten, Stop>
    requires can { CanRewrite history.now work.old assumed.now t }
    requires left { IsTermIn history.now work.old left }
    requires fact { IsFact history.now work.old fact }
    ensures ok { IfOk result (λ r. IsRewritten history.now work.new (terms_at work.old.bank assumed.now) (term_at work.old.bank t) r) }
    ensures grows { WorkGrows history.now work.old work.new }
    ensures out { result ≡ Err Stop.OutOfSteps → work.new.counter.used ≡ work.new.counter.limit }
{
    match matched_fact(work, history, fact, left, t)? {
        Some(instance) => rewritten_by(work, history, assumed, instance, t),
        None => Ok(unchanged(t)),
    }
}

/// Rewrites an IF by a law.
pub fn by_test_law(
    work: &mut Work,
    history: &History,
    search: &mut Search,
    assumed: &[TermId],
    law: TestLaw,
    t: TermId,
) -> Result<Rewritten, Stop>
    requires can { CanRewrite history.now work.old assumed.now t }
    ensures ok { IfOk result (λ r. IsRewritten history.now work.new (terms_at work.old.bank assumed.now) (term_at work.old.bank t) r) }
    ensures grows { WorkGrows history.now work.old work.new }
    ensures out { result ≡ Err Stop.OutOfSteps → work.new.counter.used ≡ work.new.counter.limit }
{
    let line = law_line(work, history, search, law)?;
    let sides = sides_of_law(work, history, law)?;
    by_sides(work, history, assumed, t, sides, line)
}
