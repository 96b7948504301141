//! Lines of terms whose kind stands in them.
ghost use Rattle.std.specs.Prelude.{◌≡◌, ◌∷◌, ◌+◌, ◌≤◌, ◌<◌, [], List, All, Bool, IfOk, MatchOption, OnOk, Err, Some, length, slice_get, ℕ};
ghost use Rattle.nq_logic.specs.Terms.{Name, Term, call};
ghost use Rattle.nq_logic.specs.Words.{equal_term, numeral};
ghost use Rattle.nq_logic.specs.Histories.{Shell};
ghost use Rattle.nq_logic.specs.ShellPrinciple.{shells_of};
ghost use Rattle.nq_bank.specs.Content.{IsNamed, IsIdOf, text_at, term_at, terms_at};
ghost use Rattle.nq_bank.specs.Parts.{parts_of};
ghost use Rattle.nq_history.specs.Events.{events_at, HistoryStands};
ghost use Rattle.nq_kernel.specs.Growing.{LineStands, WorkGrows, WorkStands};
ghost use Rattle.nq_kernel.specs.Ready.{IsReady};
ghost use Rattle.nq_lines.specs.Lines.{IsTermIn, LineHasOnly, MakesOf};
ghost use Rattle.nq_types.specs.Kinds.{HasKind, IsBaseAt, IsMadeAt, IsOfKind};
ghost use Rattle.nq_types.specs.Parts.{constant_of, recognizer_of};
ghost use Rattle.nq_types.specs.Shown.{IsKnown, IsRecognized};
ghost use Rattle.nq_types.specs.TypeSets.{recognized_by};

use crate::kinds::{Kind, kind_of};
use crate::naming::part_pairs;
use crate::sets::{TypeSet, single};
use nq_bank::{Bank, Node, Sym, TermId, ground, ground_name};
use nq_history::History;
use nq_kernel::{Stop, Work};
use nq_lines::{axiom_row, equate, reflexive, rewrite_literal, row_line};
use nq_rule::Side;
use std::alloc::Global;

/// The constructor of the shell at a place.
fn constructor_at(bank: &Bank, history: &History, place: usize) -> Sym
    requires history { HistoryStands bank.now history.now }
    ensures named { IsNamed bank.now result }
    ensures name { (s : Shell) → slice_get (shells_of (events_at bank.now history.now)) place ≡ Some s → text_at bank.now result ≡ s.constructor }
{
    let shells = history.shells();
    if place < shells.len() {
        return shells[place].constructor;
    }
    ground_name(bank, ground::TRUE)
}

/// Adds the line that the base of the shell at a place is of its kind.
pub fn base_line(work: &mut Work, history: &History, place: usize, t: TermId) -> Result<u64, Stop>
    requires stands { WorkStands history.now work.old }
    requires ready { IsReady (events_at work.old.bank history.now) }
    requires base { IsBaseAt (events_at work.old.bank history.now) (term_at work.old.bank t) place }
    ensures line { IfOk result (λ n. IsRecognized (events_at work.old.bank history.now) work.new (term_at work.old.bank t) (place + 2) n) }
    ensures grows { WorkGrows history.now work.old work.new }
    ensures out { result ≡ Err Stop.OutOfSteps → work.new.counter.used ≡ work.new.counter.limit }
{
    let name = constructor_at(&work.bank, history, place);
    row_line(work, history, name, 3, 0)
}

/// One term in a list.
fn one_term(alloc: Global, t: TermId) -> Result<Vec<TermId>, Stop>
    ensures term { IfOk result (λ v. v.items ≡ t ∷ []) }
    ensures memory { result ≡ Err Stop.OutOfSteps → ⊥ }
{
    match vec![in alloc; t] {
        Ok(terms) => Ok(terms),
        Err(_) => Err(Stop::Memory),
    }
}

/// The id of a number.
fn number_id(work: &mut Work, history: &History, n: u128) -> Result<TermId, Stop>
    requires stands { WorkStands history.now work.old }
    ensures number { IfOk result (λ u. IsIdOf work.new.bank u (numeral n)) }
    ensures grows { WorkGrows history.now work.old work.new }
    ensures memory { result ≡ Err Stop.OutOfSteps → ⊥ }
{
    let _ = history.len();
    match work.bank.num(n) {
        Ok(u) => Ok(u),
        Err(_) => Err(Stop::Memory),
    }
}

/// The argument of a number above zero.
fn number_argument(
    work: &mut Work,
    history: &History,
    t: TermId,
    n: u128,
) -> Result<Vec<TermId>, Stop>
    requires stands { WorkStands history.now work.old }
    requires term { IsTermIn history.now work.old t }
    requires number { term_at work.old.bank t ≡ numeral n }
    requires positive { 0 < n }
    ensures arguments { IfOk result (λ v. (f : Name) (ts : List Term) → term_at work.old.bank t ≡ call f ts → terms_at work.new.bank v.items ≡ ts) }
    ensures over { IfOk result (λ v. All (IsTermIn history.now work.new) v.items) }
    ensures grows { WorkGrows history.now work.old work.new }
    ensures memory { result ≡ Err Stop.OutOfSteps → ⊥ }
{
    let alloc = work.bank.alloc();
    let u = number_id(work, history, n - 1)?;
    one_term(alloc, u)
}

/// The arguments of a call that is no number.
fn copied_arguments(work: &Work, history: &History, t: TermId) -> Result<Vec<TermId>, Stop>
    requires stands { WorkStands history.now work.now }
    requires term { IsTermIn history.now work.now t }
    ensures arguments { IfOk result (λ v. terms_at work.now.bank v.items ≡ parts_of (term_at work.now.bank t)) }
    ensures over { IfOk result (λ v. All (IsTermIn history.now work.now) v.items) }
    ensures memory { result ≡ Err Stop.OutOfSteps → ⊥ }
{
    let arguments = work.bank.args(t);
    match Vec::from_slice(work.bank.alloc(), arguments) {
        Ok(copied) => Ok(copied),
        Err(_) => Err(Stop::Memory),
    }
}

/// The arguments of a call; a number above zero is a call of ADD1.
fn arguments_of(work: &mut Work, history: &History, t: TermId) -> Result<Vec<TermId>, Stop>
    requires stands { WorkStands history.now work.old }
    requires term { IsTermIn history.now work.old t }
    ensures arguments { IfOk result (λ v. (f : Name) (ts : List Term) → term_at work.old.bank t ≡ call f ts → terms_at work.new.bank v.items ≡ ts) }
    ensures over { IfOk result (λ v. All (IsTermIn history.now work.new) v.items) }
    ensures grows { WorkGrows history.now work.old work.new }
    ensures memory { result ≡ Err Stop.OutOfSteps → ⊥ }
{
    match work.bank.node(t) {
        Node::App(_, _) => copied_arguments(work, history, t),
        Node::Num(n) => {
            if n == 0 {
                Ok(Vec::new(work.bank.alloc()))
            } else {
                number_argument(work, history, t, n)
            }
        }
        Node::Var(_) => Ok(Vec::new(work.bank.alloc())),
    }
}

/// Adds the line that a call of the constructor of the shell at a place is of its kind.
pub fn made_line(work: &mut Work, history: &History, place: usize, t: TermId) -> Result<u64, Stop>
    requires stands { WorkStands history.now work.old }
    requires ready { IsReady (events_at work.old.bank history.now) }
    requires term { IsTermIn history.now work.old t }
    requires made { IsMadeAt (events_at work.old.bank history.now) (term_at work.old.bank t) place }
    ensures line { IfOk result (λ n. IsRecognized (events_at work.old.bank history.now) work.new (term_at work.old.bank t) (place + 2) n) }
    ensures grows { WorkGrows history.now work.old work.new }
    ensures out { result ≡ Err Stop.OutOfSteps → work.new.counter.used ≡ work.new.counter.limit }
{
    let name = constructor_at(&work.bank, history, place);
    let arguments = arguments_of(work, history, t)?;
    let pairs = part_pairs(work, history, arguments.as_slice())?;
    axiom_row(work, history, name, 2, 0, pairs)
}
