//! Terms that are numbers by the functions that make them.
ghost use Rattle.std.specs.Prelude.{◌≡◌, IfOk, IfSome, Err};
ghost use Rattle.nq_bank.specs.Content.{Stands};
ghost use Rattle.nq_kernel.specs.Growing.{LineStands, WorkGrows, WorkStands};
ghost use Rattle.nq_lines.specs.Lines.{IsTermIn};
ghost use Rattle.nq_arithmetic.specs.Claims.{AreOperandsIn};

use crate::lines::{law_at, law_with};
use crate::making::one_more_than_x;
use crate::reading::{Operands, operands_of};
use crate::template::ArithmeticLaw;
use nq_bank::{Bank, Node, Sym, TermId, ground};
use nq_division_laws::DivisionLaw;
use nq_history::History;
use nq_kernel::{Stop, Work};
use nq_lines::match_pairs;
use nq_number_laws::{InductiveLaw, PlainLaw};

/// The functions whose calls are numbers, each with the law that says so.
const NUMBERS: &[(Sym, ArithmeticLaw)] = &[
    (
        ground::ADD1,
        ArithmeticLaw::Plain(PlainLaw::OneMoreIsNumber),
    ),
    (ground::PLUS, ArithmeticLaw::Plain(PlainLaw::SumIsNumber)),
    (
        ground::SUB1,
        ArithmeticLaw::Plain(PlainLaw::OneLessIsNumber),
    ),
    (ground::COUNT, ArithmeticLaw::Plain(PlainLaw::SizeIsNumber)),
    (
        ground::TIMES,
        ArithmeticLaw::Inductive(InductiveLaw::ProductIsNumber),
    ),
    (
        ground::DIFFERENCE,
        ArithmeticLaw::Inductive(InductiveLaw::DifferenceIsNumber),
    ),
    (
        ground::QUOTIENT,
        ArithmeticLaw::Plain(PlainLaw::QuotientIsNumber),
    ),
    (
        ground::REMAINDER,
        ArithmeticLaw::Division(DivisionLaw::RemainderIsNumber),
    ),
    (ground::FIX, ArithmeticLaw::Plain(PlainLaw::FixIsNumber)),
];

/// The law that says that a function's calls are numbers.
fn law_of_calls(f: Sym) -> Option<ArithmeticLaw> {
    for i in 0..NUMBERS.len() {
        if NUMBERS[i].0.0 == f.0 {
            return Some(NUMBERS[i].1);
        }
    }
    None
}

/// The law that says that a numeral is a number. One above 0 is a call of ADD1.
fn law_of_numeral(n: u128) -> ArithmeticLaw {
    if n == 0 {
        ArithmeticLaw::Plain(PlainLaw::ZeroIsNumber)
    } else {
        ArithmeticLaw::Plain(PlainLaw::OneMoreIsNumber)
    }
}

/// The law that says that a term is a number.
pub fn number_law(bank: &Bank, t: TermId) -> Option<ArithmeticLaw>
    requires { Stands bank.now t }
{
    match bank.node(t) {
        Node::App(f, _) => law_of_calls(f),
        Node::Num(n) => Some(law_of_numeral(n)),
        Node::Var(_) => None,
    }
}

/// Does a law of arithmetic say that a term is a number? That of `(PLUS X Y)` does, and none of a variable.
pub fn is_number_by_law(bank: &Bank, t: TermId) -> bool
    requires { Stands bank.now t }
{
    number_law(bank, t).is_some()
}

/// The arguments of a term; of one that has none, the term itself.
fn operands_or_whole(work: &Work, history: &History, t: TermId) -> Operands
    requires stands { WorkStands history.now work.now }
    requires term { IsTermIn history.now work.now t }
    ensures { AreOperandsIn history.now work.now result }
{
    match operands_of(work, history, t) {
        Some(at) => at,
        None => Operands {
            first: t,
            second: t,
        },
    }
}

/// Is a term a numeral above 0?
fn is_above_zero(bank: &Bank, t: TermId) -> bool
    requires { Stands bank.now t }
{
    match bank.node(t) {
        Node::Num(n) => n > 0,
        Node::App(_, _) => false,
        Node::Var(_) => false,
    }
}

/// Adds the line of a law that speaks of `(ADD1 X)`, of a numeral above 0.
fn numeral_line(
    work: &mut Work,
    history: &History,
    law: ArithmeticLaw,
    t: TermId,
) -> Result<Option<u64>, Stop>
    requires stands { WorkStands history.now work.old }
    requires term { IsTermIn history.now work.old t }
    ensures line { IfOk result (λ found. IfSome found (λ n. LineStands work.new n)) }
    ensures grows { WorkGrows history.now work.old work.new }
    ensures out { result ≡ Err Stop.OutOfSteps → work.new.counter.used ≡ work.new.counter.limit }
{
    let one_more = one_more_than_x(work, history)?;
    match match_pairs(work, history, one_more, t)? {
        Some(pairs) => {
            let line = law_with(work, history, law, pairs)?;
            Ok(Some(line))
        }
        None => Ok(None),
    }
}

/// Adds the line of a law that says that a term is a number.
fn line_by_law(
    work: &mut Work,
    history: &History,
    law: ArithmeticLaw,
    t: TermId,
) -> Result<Option<u64>, Stop>
    requires stands { WorkStands history.now work.old }
    requires term { IsTermIn history.now work.old t }
    ensures line { IfOk result (λ found. IfSome found (λ n. LineStands work.new n)) }
    ensures grows { WorkGrows history.now work.old work.new }
    ensures out { result ≡ Err Stop.OutOfSteps → work.new.counter.used ≡ work.new.counter.limit }
{
    if is_above_zero(&work.bank, t) {
        numeral_line(work, history, law, t)
    } else {
        let at = operands_or_whole(work, history, t);
        let line = law_at(work, history, law, at)?;
        Ok(Some(line))
    }
}

/// Adds the line that a term is a number, where a law says so.
pub fn number_line(work: &mut Work, history: &History, t: TermId) -> Result<Option<u64>, Stop>
    requires stands { WorkStands history.now work.old }
    requires term { IsTermIn history.now work.old t }
    ensures line { IfOk result (λ found. IfSome found (λ n. LineStands work.new n)) }
    ensures grows { WorkGrows history.now work.old work.new }
    ensures out { result ≡ Err Stop.OutOfSteps → work.new.counter.used ≡ work.new.counter.limit }
{
    match number_law(&work.bank, t) {
        Some(law) => line_by_law(work, history, law, t),
        None => Ok(None),
    }
}
