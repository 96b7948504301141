//! Lines that show of what kind the calls of a function are, as `(NUMBERP (PLUS X Y))`, and their instances. The work knows the
//! numbers of such lines by the functions; what a line says is read from its clause each time.
ghost use Rattle.std.specs.Prelude.{◌≡◌, IfOk, IfSome, IsTrue, Err};
ghost use Rattle.nq_logic.specs.Terms.{IsAmong};
ghost use Rattle.nq_logic.specs.Ground.{symbols_of};
ghost use Rattle.nq_bank.specs.Content.{IsNamed, Stands, text_at};
ghost use Rattle.nq_history.specs.Events.{events_at};
ghost use Rattle.nq_kernel.specs.Growing.{LineStands, WorkGrows, WorkStands};
ghost use Rattle.nq_lines.specs.Facts.{IsFact};
ghost use Rattle.nq_lines.specs.Lines.{IsTermIn};
ghost use Rattle.nq_lines.specs.OwnTerms.{HasOwnTerms};

use crate::told_kinds::told_kind;
use nq_bank::{Bank, Node, Sym, TermId};
use nq_history::History;
use nq_kernel::{Stop, Work};
use nq_lines::{Fact, is_same, literal_of, matched_fact, row_fact, sides_of};
use nq_reduce::argument_of;

/// The line that shows of what kind the calls of a function are, if one is known.
pub fn kind_line(work: &Work, history: &History, f: Sym) -> Option<u64>
    requires { WorkStands history.now work.now }
    ensures { IfSome result (LineStands work.now) }
{
    for p in work.known.as_slice() {
        if p.function.0 == f.0 {
            return Some(p.line);
        }
    }
    None
}

/// The recognizer that is known to hold of the calls of a function.
pub fn known_recognizer(work: &Work, history: &History, f: Sym) -> Option<Sym>
    requires { WorkStands history.now work.now }
    ensures { IfSome result (IsNamed work.now.bank) }
{
    match kind_line(work, history, f) {
        Some(line) => recognizer_of(work, history, line),
        None => None,
    }
}

/// The function of a call.
pub fn named_function(bank: &Bank, t: TermId) -> Option<Sym>
    requires { Stands bank.now t }
    ensures { IfSome result (IsNamed bank.now) }
{
    match bank.node(t) {
        Node::App(f, _) => Some(f),
        Node::Num(_) => None,
        Node::Var(_) => None,
    }
}

fn is_one(n: u64) -> bool
    ensures { IsTrue result → n ≡ 1 }
{
    n == 1
}

/// Has the history a function of this name that takes one argument?
fn takes_one(work: &Work, history: &History, f: Sym) -> bool
    requires stands { WorkStands history.now work.now }
    requires function { IsNamed work.now.bank f }
    ensures { IsTrue result → IsAmong (text_at work.now.bank f, 1) (symbols_of (events_at work.now.bank history.now)) }
{
    work.bank.is_sound();
    match history.arity(f) {
        Some(n) => is_one(n),
        None => false,
    }
}

/// Makes the call of a function on one argument, if it takes just one.
pub fn one_call(
    work: &mut Work,
    history: &History,
    f: Sym,
    a: TermId,
) -> Result<Option<TermId>, Stop>
    requires stands { WorkStands history.now work.old }
    requires function { IsNamed work.old.bank f }
    requires argument { IsTermIn history.now work.old a }
    ensures call { IfOk result (λ found. IfSome found (IsTermIn history.now work.new)) }
    ensures grows { WorkGrows history.now work.old work.new }
    ensures out { result ≡ Err Stop.OutOfSteps → work.new.counter.used ≡ work.new.counter.limit }
{
    if takes_one(work, history, f) {
        let t = one_call_made(work, history, f, a)?;
        Ok(Some(t))
    } else {
        Ok(None)
    }
}

/// Makes the call of a function that takes one argument.
fn one_call_made(work: &mut Work, history: &History, f: Sym, a: TermId) -> Result<TermId, Stop>
    requires stands { WorkStands history.now work.old }
    requires function { IsNamed work.old.bank f }
    requires takes { IsAmong (text_at work.old.bank f, 1) (symbols_of (events_at work.old.bank history.now)) }
    requires argument { IsTermIn history.now work.old a }
    ensures call { IfOk result (IsTermIn history.now work.new) }
    ensures grows { WorkGrows history.now work.old work.new }
    ensures out { result ≡ Err Stop.OutOfSteps → work.new.counter.used ≡ work.new.counter.limit }
{
    work.app(history, f, &[a])
}

/// The line that shows of what kind a call of this function is, by the line that is known of the function.
pub fn kind_fact(
    work: &mut Work,
    history: &History,
    f: Sym,
    t: TermId,
) -> Result<Option<Fact>, Stop>
    requires stands { WorkStands history.now work.old }
    requires ready { HasOwnTerms (events_at work.old.bank history.now) }
    requires function { IsNamed work.old.bank f }
    requires term { IsTermIn history.now work.old t }
    ensures fact { IfOk result (λ found. IfSome found (IsFact history.now work.new)) }
    ensures grows { WorkGrows history.now work.old work.new }
    ensures out { result ≡ Err Stop.OutOfSteps → work.new.counter.used ≡ work.new.counter.limit }
{
    match row_fact(work, history, f)? {
        Some(definition) => kind_by_definition(work, history, f, definition, t),
        None => kind_by_event(work, history, f, t),
    }
}

/// The same, by an axiom or a lemma that says it, of a function that is not defined.
fn kind_by_event(
    work: &mut Work,
    history: &History,
    f: Sym,
    t: TermId,
) -> Result<Option<Fact>, Stop>
    requires stands { WorkStands history.now work.old }
    requires ready { HasOwnTerms (events_at work.old.bank history.now) }
    requires term { IsTermIn history.now work.old t }
    ensures fact { IfOk result (λ found. IfSome found (IsFact history.now work.new)) }
    ensures grows { WorkGrows history.now work.old work.new }
    ensures out { result ≡ Err Stop.OutOfSteps → work.new.counter.used ≡ work.new.counter.limit }
{
    match told_kind(work, history, f)? {
        Some(told) => kind_by_row(work, history, told, t),
        None => Ok(None),
    }
}

/// The same, by the definition of the function.
fn kind_by_definition(
    work: &mut Work,
    history: &History,
    f: Sym,
    definition: Fact,
    t: TermId,
) -> Result<Option<Fact>, Stop>
    requires stands { WorkStands history.now work.old }
    requires definition { IsFact history.now work.old definition }
    requires term { IsTermIn history.now work.old t }
    ensures fact { IfOk result (λ found. IfSome found (IsFact history.now work.new)) }
    ensures grows { WorkGrows history.now work.old work.new }
    ensures out { result ≡ Err Stop.OutOfSteps → work.new.counter.used ≡ work.new.counter.limit }
{
    match sides_of(work, history, definition.term) {
        Some(sides) => kind_by_pattern(work, history, f, sides.left, t),
        None => kind_by_row(work, history, definition, t),
    }
}

/// The same, by a row, an axiom or a lemma that says itself of what kind the calls of the function are, as row 1 of COUNT does.
fn kind_by_row(
    work: &mut Work,
    history: &History,
    row: Fact,
    t: TermId,
) -> Result<Option<Fact>, Stop>
    requires stands { WorkStands history.now work.old }
    requires row { IsFact history.now work.old row }
    requires term { IsTermIn history.now work.old t }
    ensures fact { IfOk result (λ found. IfSome found (IsFact history.now work.new)) }
    ensures grows { WorkGrows history.now work.old work.new }
    ensures out { result ≡ Err Stop.OutOfSteps → work.new.counter.used ≡ work.new.counter.limit }
{
    match argument_of(work, history, row.term, 1) {
        Some(pattern) => matched_fact(work, history, row, pattern, t),
        None => Ok(None),
    }
}

/// The same, by the call of the function on its formals.
fn kind_by_pattern(
    work: &mut Work,
    history: &History,
    f: Sym,
    pattern: TermId,
    t: TermId,
) -> Result<Option<Fact>, Stop>
    requires stands { WorkStands history.now work.old }
    requires pattern { IsTermIn history.now work.old pattern }
    requires term { IsTermIn history.now work.old t }
    ensures fact { IfOk result (λ found. IfSome found (IsFact history.now work.new)) }
    ensures grows { WorkGrows history.now work.old work.new }
    ensures out { result ≡ Err Stop.OutOfSteps → work.new.counter.used ≡ work.new.counter.limit }
{
    match kind_line(work, history, f) {
        Some(line) => kind_by_line(work, history, line, pattern, t),
        None => Ok(None),
    }
}

/// The same, by the line that is known of the function.
fn kind_by_line(
    work: &mut Work,
    history: &History,
    line: u64,
    pattern: TermId,
    t: TermId,
) -> Result<Option<Fact>, Stop>
    requires stands { WorkStands history.now work.old }
    requires line { LineStands work.old line }
    requires pattern { IsTermIn history.now work.old pattern }
    requires term { IsTermIn history.now work.old t }
    ensures fact { IfOk result (λ found. IfSome found (IsFact history.now work.new)) }
    ensures grows { WorkGrows history.now work.old work.new }
    ensures out { result ≡ Err Stop.OutOfSteps → work.new.counter.used ≡ work.new.counter.limit }
{
    match recognizer_of(work, history, line) {
        Some(r) => kind_by_recognizer(work, history, line, r, pattern, t),
        None => Ok(None),
    }
}

/// The function of the literal of a line, if it has just one.
fn recognizer_of(work: &Work, history: &History, line: u64) -> Option<Sym>
    requires stands { WorkStands history.now work.now }
    requires line { LineStands work.now line }
    ensures { IfSome result (IsNamed work.now.bank) }
{
    match literal_of(work, history, line) {
        Some(p) => named_function(&work.bank, p),
        None => None,
    }
}

/// The same, by the recognizer of which the line speaks.
fn kind_by_recognizer(
    work: &mut Work,
    history: &History,
    line: u64,
    r: Sym,
    pattern: TermId,
    t: TermId,
) -> Result<Option<Fact>, Stop>
    requires stands { WorkStands history.now work.old }
    requires line { LineStands work.old line }
    requires recognizer { IsNamed work.old.bank r }
    requires pattern { IsTermIn history.now work.old pattern }
    requires term { IsTermIn history.now work.old t }
    ensures fact { IfOk result (λ found. IfSome found (IsFact history.now work.new)) }
    ensures grows { WorkGrows history.now work.old work.new }
    ensures out { result ≡ Err Stop.OutOfSteps → work.new.counter.used ≡ work.new.counter.limit }
{
    match one_call(work, history, r, pattern)? {
        Some(p) => kind_by_literal(work, history, line, p, pattern, t),
        None => Ok(None),
    }
}

/// The same, where the line has this literal alone.
fn kind_by_literal(
    work: &mut Work,
    history: &History,
    line: u64,
    p: TermId,
    pattern: TermId,
    t: TermId,
) -> Result<Option<Fact>, Stop>
    requires stands { WorkStands history.now work.old }
    requires line { LineStands work.old line }
    requires literal { IsTermIn history.now work.old p }
    requires pattern { IsTermIn history.now work.old pattern }
    requires term { IsTermIn history.now work.old t }
    ensures fact { IfOk result (λ found. IfSome found (IsFact history.now work.new)) }
    ensures grows { WorkGrows history.now work.old work.new }
    ensures out { result ≡ Err Stop.OutOfSteps → work.new.counter.used ≡ work.new.counter.limit }
{
    match shown_literal(work, history, line, p) {
        Some(fact) => matched_fact(work, history, fact, pattern, t),
        None => Ok(None),
    }
}

/// A term with its line, where the line has it as its one literal.
fn shown_literal(work: &Work, history: &History, line: u64, p: TermId) -> Option<Fact>
    requires stands { WorkStands history.now work.now }
    requires line { LineStands work.now line }
    requires literal { IsTermIn history.now work.now p }
    ensures { IfSome result (IsFact history.now work.now) }
{
    match literal_of(work, history, line) {
        Some(q) => if is_same(p, q) {
            Some(Fact { term: p, line })
        } else {
            None
        },
        None => None,
    }
}
