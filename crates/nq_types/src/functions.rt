//! What the calls of single functions are: sizes and other numbers, truth values, and what prescriptions say.
ghost use Rattle.std.specs.Prelude.{◌≡◌, ◌≤◌, IfOk, IfSome, All, Err, length};
ghost use Rattle.nq_logic.specs.ShellPrinciple.{shells_of};
ghost use Rattle.nq_bank.specs.Content.{IsNamed};
ghost use Rattle.nq_bank.specs.Shells.{ShellStands};
ghost use Rattle.nq_history.specs.Events.{events_at};
ghost use Rattle.nq_kernel.specs.Growing.{LineStands, WorkGrows, WorkStands};
ghost use Rattle.nq_kernel.specs.Ready.{IsReady};
ghost use Rattle.nq_lines.specs.Lines.{IsTermIn};

use crate::numbers::number_line;
use crate::prescriptions::prescribed;
use crate::rows::{argument, equation_row, row_at_argument};
use crate::truths::truth_value;
use nq_bank::{Bank, Node, Shell, Sym, TermId, ground};
use nq_history::History;
use nq_kernel::{Stop, Work};

/// Adds the line that an equation equals T or F.
fn equation_line(work: &mut Work, history: &History, t: TermId) -> Result<Option<u64>, Stop>
    requires stands { WorkStands history.now work.old }
    requires term { IsTermIn history.now work.old t }
    ensures line { IfOk result (λ found. IfSome found (LineStands work.new)) }
    ensures grows { WorkGrows history.now work.old work.new }
    ensures out { result ≡ Err Stop.OutOfSteps → work.new.counter.used ≡ work.new.counter.limit }
{
    match argument(work, history, t, 0) {
        Some(a) => match argument(work, history, t, 1) {
            Some(b) => equation_row(work, history, a, b),
            None => Ok(None),
        },
        None => Ok(None),
    }
}

/// The constructor of the first of these shells that has this recognizer.
fn maker_among(bank: &Bank, shells: &[Shell], f: Sym) -> Option<Sym>
    requires { All (ShellStands bank.now) shells.now }
    ensures { IfSome result (IsNamed bank.now) }
{
    let _ = bank.alloc();
    for shell in shells {
        if shell.recognizer.0 == f.0 {
            return Some(shell.constructor);
        }
    }
    None
}

/// The constructor of the shell that has this recognizer.
fn maker_of(work: &Work, history: &History, f: Sym) -> Option<Sym>
    requires { WorkStands history.now work.now }
    ensures { IfSome result (IsNamed work.now.bank) }
{
    maker_among(&work.bank, history.shells(), f)
}

/// Adds the line that a call of a recognizer of a shell equals T or F.
fn recognizer_line(
    work: &mut Work,
    history: &History,
    f: Sym,
    t: TermId,
) -> Result<Option<u64>, Stop>
    requires stands { WorkStands history.now work.old }
    requires term { IsTermIn history.now work.old t }
    ensures line { IfOk result (λ found. IfSome found (LineStands work.new)) }
    ensures grows { WorkGrows history.now work.old work.new }
    ensures out { result ≡ Err Stop.OutOfSteps → work.new.counter.used ≡ work.new.counter.limit }
{
    match maker_of(work, history, f) {
        Some(name) => row_at_argument(work, history, name, t),
        None => Ok(None),
    }
}

/// Adds the line that a call is a truth value, from one that it equals T or F.
fn truth_value_if(
    work: &mut Work,
    history: &History,
    t: TermId,
    line: Option<u64>,
) -> Result<Option<u64>, Stop>
    requires stands { WorkStands history.now work.old }
    requires term { IsTermIn history.now work.old t }
    requires line { IfSome line (LineStands work.old) }
    ensures line { IfOk result (λ found. IfSome found (LineStands work.new)) }
    ensures grows { WorkGrows history.now work.old work.new }
    ensures out { result ≡ Err Stop.OutOfSteps → work.new.counter.used ≡ work.new.counter.limit }
{
    match line {
        Some(n) => {
            let told = truth_value(work, history, t, n)?;
            Ok(Some(told))
        }
        None => Ok(None),
    }
}

/// Adds the line that a call of EQUAL or of a shell's recognizer equals T or F.
fn test_line(work: &mut Work, history: &History, f: Sym, t: TermId) -> Result<Option<u64>, Stop>
    requires stands { WorkStands history.now work.old }
    requires function { IsNamed work.old.bank f }
    requires term { IsTermIn history.now work.old t }
    ensures line { IfOk result (λ found. IfSome found (LineStands work.new)) }
    ensures grows { WorkGrows history.now work.old work.new }
    ensures out { result ≡ Err Stop.OutOfSteps → work.new.counter.used ≡ work.new.counter.limit }
{
    if work.bank.is_ground(f, ground::EQUAL) {
        equation_line(work, history, t)
    } else {
        recognizer_line(work, history, f, t)
    }
}

/// Adds a line of what a call is, by what its function is known to give.
fn given_line(work: &mut Work, history: &History, f: Sym, t: TermId) -> Result<Option<u64>, Stop>
    requires stands { WorkStands history.now work.old }
    requires ready { IsReady (events_at work.old.bank history.now) }
    requires function { IsNamed work.old.bank f }
    requires term { IsTermIn history.now work.old t }
    ensures line { IfOk result (λ found. IfSome found (LineStands work.new)) }
    ensures grows { WorkGrows history.now work.old work.new }
    ensures out { result ≡ Err Stop.OutOfSteps → work.new.counter.used ≡ work.new.counter.limit }
{
    match number_line(work, history, f, t)? {
        Some(line) => Ok(Some(line)),
        None => prescribed(work, history, f, t),
    }
}

/// Adds a line of what a call is, by its function.
fn function_line(work: &mut Work, history: &History, f: Sym, t: TermId) -> Result<Option<u64>, Stop>
    requires stands { WorkStands history.now work.old }
    requires ready { IsReady (events_at work.old.bank history.now) }
    requires function { IsNamed work.old.bank f }
    requires term { IsTermIn history.now work.old t }
    ensures line { IfOk result (λ found. IfSome found (LineStands work.new)) }
    ensures grows { WorkGrows history.now work.old work.new }
    ensures out { result ≡ Err Stop.OutOfSteps → work.new.counter.used ≡ work.new.counter.limit }
{
    let line = test_line(work, history, f, t)?;
    match truth_value_if(work, history, t, line)? {
        Some(found) => Ok(Some(found)),
        None => given_line(work, history, f, t),
    }
}

/// Adds a line of what a term is, by its function.
pub fn plain_line(work: &mut Work, history: &History, t: TermId) -> Result<Option<u64>, Stop>
    requires stands { WorkStands history.now work.old }
    requires ready { IsReady (events_at work.old.bank history.now) }
    requires term { IsTermIn history.now work.old t }
    ensures line { IfOk result (λ found. IfSome found (LineStands work.new)) }
    ensures grows { WorkGrows history.now work.old work.new }
    ensures out { result ≡ Err Stop.OutOfSteps → work.new.counter.used ≡ work.new.counter.limit }
{
    match work.bank.node(t) {
        Node::App(f, _) => function_line(work, history, f, t),
        Node::Num(_) => Ok(None),
        Node::Var(_) => Ok(None),
    }
}
