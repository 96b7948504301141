//! A part of a value is smaller than the value.
//!
//! The line that what the accessor takes from an object just made is smaller holds whatever its parts are. With the parts of X for
//! them it speaks of the object that is made again of the parts of X, which is X where the recognizer says so.
ghost use Rattle.std.specs.Prelude.{◌≡◌, ◌<◌, ◌≤◌, ◌+◌, ◌^◌, All, IfOk, Some, length};
ghost use Rattle.nq_logic.specs.Terms.{Each, IsAmong};
ghost use Rattle.nq_logic.specs.Ground.{symbols_of};
ghost use Rattle.nq_logic.specs.Sizes.{depth_of};
ghost use Rattle.nq_logic.specs.Shells.{accessed, made, part_variable, remade, whole};
ghost use Rattle.nq_bank.specs.Content.{IsIdOf, Stands, term_at, terms_at, text_at};
ghost use Rattle.nq_bank.specs.Parts.{parts_of};
ghost use Rattle.nq_bank.specs.Shells.{PartStands, ShellStands, parts_at, shell_at};
ghost use Rattle.nq_clause.specs.Substitution.{PairStands, substitution_at};
ghost use Rattle.nq_proof.specs.Clauses.{literal_at};
ghost use Rattle.nq_history.specs.Events.{events_at};
ghost use Rattle.nq_kernel.specs.Growing.{WorkStands};
ghost use Rattle.nq_lines.specs.Instances.{ArePairsIn};
ghost use Rattle.nq_replay.specs.Uncounted.{GrowsUncounted};
ghost use Rattle.nq_part_lines.specs.Known.{HasKnownRows, IsKnownShell, row_room};
ghost use Rattle.nq_part_lines.specs.Small.{IsSmallIn};
ghost use Rattle.nq_part_lines.specs.Wholes.{IsPartLine, IsTakenFrom, MovesTo, RemadeLine, WholeLine, part_name, part_pairs};

use crate::cutting::cut_by;
use crate::lines::{cut, instance, symbol};
use crate::objects::{call_on, taken_line};
use crate::replacing::{opposites, replace};
use crate::rows::row_line;
use crate::terms::{smaller_term, variable};
use nq_bank::{BankFault, Node, Part, Shell, TermId, ground};
use nq_clause::Pair;
use nq_history::History;
use nq_kernel::Work;
use nq_lines::argument_at;
use nq_rule::Side;
use std::alloc::AllocError;

const REMADE_IS_SAME: u64 = 5;

/// An object that is made again of the parts of X, with a line that speaks of it.
#[derive(Clone, Copy, Debug, PartialEq, Eq)]
pub struct Again {
    /// The object.
    pub object: TermId,
    /// The line.
    pub line: u64,
}

/// Makes the variable X.
fn whole(work: &mut Work, history: &History) -> Result<TermId, AllocError>
    requires stands { WorkStands history.now work.old }
    ensures whole { IfOk result (λ t. IsIdOf work.new.bank t whole) }
    ensures small { IfOk result (λ t. IsSmallIn history.now work.new t) }
    ensures grows { GrowsUncounted history.now work.old work.new }
{
    let x = symbol(work, history, b"X")?;
    variable(work, history, x)
}

/// The calls of the accessors of parts on X.
fn calls_on(
    work: &mut Work,
    history: &History,
    parts: &[Part],
    x: TermId,
) -> Result<Vec<TermId>, AllocError>
    requires stands { WorkStands history.now work.old }
    requires parts { All (PartStands work.old.bank) parts.now }
    requires accessors { Each (λ part. IsAmong (part.accessor, 1) (symbols_of (events_at work.old.bank history.now))) (parts_at work.old.bank parts.now) }
    requires term { IsSmallIn history.now work.old x }
    requires whole { term_at work.old.bank x ≡ whole }
    ensures calls { IfOk result (λ v. terms_at work.new.bank v.items ≡ accessed whole (parts_at work.old.bank parts.now)) }
    ensures small { IfOk result (λ v. All (IsSmallIn history.now work.new) v.items) }
    ensures grows { GrowsUncounted history.now work.old work.new }
{
    let mut calls = Vec::new(work.bank.alloc());
    for part in parts {
        let call = call_on(work, history, part.accessor, x)?;
        calls.push(call)?;
    }
    Ok(calls)
}

/// The variable of an object at a place, with a term.
fn pair_of(work: &Work, object: TermId, place: usize, term: TermId) -> Pair
    requires object { Stands work.now.bank object }
    requires variable { literal_at (place + 1) (parts_of (term_at work.now.bank object)) ≡ Some (part_variable place) }
    requires term { Stands work.now.bank term }
    requires room { place + 1 < 2 ^ 64 }
    ensures stands { PairStands work.now.bank result }
    ensures variable { text_at work.now.bank result.variable ≡ part_name place }
    ensures term { result.term ≡ term }
{
    let t = argument_at(&work.bank, object, place as u64 + 1);
    match work.bank.node(t) {
        Node::Var(variable) => Pair { variable, term },
        Node::App(_, _) => unreachable!(),
        Node::Num(_) => unreachable!(),
    }
}

/// The variables of the object, each with that part of X.
fn pairs_of(
    work: &Work,
    history: &History,
    shell: &Shell,
    object: TermId,
    calls: &[TermId],
) -> Result<Vec<Pair>, AllocError>
    requires object { IsSmallIn history.now work.now object }
    requires made { term_at work.now.bank object ≡ made (shell_at work.now.bank shell.now) }
    requires calls { terms_at work.now.bank calls.now ≡ accessed whole (shell_at work.now.bank shell.now).parts }
    requires small { All (IsSmallIn history.now work.now) calls.now }
    ensures pairs { IfOk result (λ v. substitution_at work.now.bank v.items ≡ part_pairs 0 (shell_at work.now.bank shell.now).parts) }
    ensures over { IfOk result (λ v. ArePairsIn history.now work.now v.items) }
{
    let mut pairs = Vec::new(work.bank.alloc());
    for place in 0..calls.len() {
        let pair = pair_of(work, object, place, calls[place]);
        pairs.push(pair)?;
    }
    Ok(pairs)
}

/// Adds the line that what an accessor takes from the object that is made again of the parts of X is smaller than the object.
fn remade_line(
    work: &mut Work,
    history: &History,
    shell: &Shell,
    place: usize,
    calls: &[TermId],
) -> Result<u64, AllocError>
    requires stands { WorkStands history.now work.old }
    requires shell { ShellStands work.old.bank shell.now }
    requires known { IsKnownShell (events_at work.old.bank history.now) (shell_at work.old.bank shell.now) }
    requires rows { HasKnownRows (events_at work.old.bank history.now) }
    requires place { place < length shell.now.parts.items }
    requires calls { terms_at work.old.bank calls.now ≡ accessed whole (shell_at work.old.bank shell.now).parts }
    requires small { All (IsSmallIn history.now work.old) calls.now }
    ensures line { IfOk result (λ n. RemadeLine work.new (shell_at work.old.bank shell.now) place n) }
    ensures grows { GrowsUncounted history.now work.old work.new }
{
    let taken = taken_line(work, history, shell, place)?;
    let pairs = pairs_of(work, history, shell, taken.object, calls)?;
    instance(work, history, taken.line, pairs)
}

/// Makes the constructor's call of the parts of X.
fn made_of(
    work: &mut Work,
    history: &History,
    shell: &Shell,
    calls: &[TermId],
) -> Result<TermId, AllocError>
    requires stands { WorkStands history.now work.old }
    requires shell { ShellStands work.old.bank shell.now }
    requires known { IsKnownShell (events_at work.old.bank history.now) (shell_at work.old.bank shell.now) }
    requires rows { HasKnownRows (events_at work.old.bank history.now) }
    requires calls { terms_at work.old.bank calls.now ≡ accessed whole (shell_at work.old.bank shell.now).parts }
    requires small { All (IsSmallIn history.now work.old) calls.now }
    ensures made { IfOk result (λ t. IsIdOf work.new.bank t (remade (shell_at work.old.bank shell.now))) }
    ensures small { IfOk result (λ t. IsSmallIn history.now work.new t) }
    ensures grows { GrowsUncounted history.now work.old work.new }
{
    match work.bank.app(shell.constructor, calls) {
        Ok(t) => Ok(t),
        Err(BankFault::Memory) => Err(AllocError),
        Err(BankFault::Deep) => unreachable!(),
    }
}

/// Makes the object again of the parts of X, and adds the line that what an accessor takes from it is smaller.
fn made_again(
    work: &mut Work,
    history: &History,
    shell: &Shell,
    place: usize,
    x: TermId,
) -> Result<Again, AllocError>
    requires stands { WorkStands history.now work.old }
    requires shell { ShellStands work.old.bank shell.now }
    requires known { IsKnownShell (events_at work.old.bank history.now) (shell_at work.old.bank shell.now) }
    requires rows { HasKnownRows (events_at work.old.bank history.now) }
    requires place { place < length shell.now.parts.items }
    requires term { IsSmallIn history.now work.old x }
    requires whole { term_at work.old.bank x ≡ whole }
    ensures object { IfOk result (λ a. IsIdOf work.new.bank a.object (remade (shell_at work.old.bank shell.now))) }
    ensures small { IfOk result (λ a. IsSmallIn history.now work.new a.object) }
    ensures line { IfOk result (λ a. RemadeLine work.new (shell_at work.old.bank shell.now) place a.line) }
    ensures grows { GrowsUncounted history.now work.old work.new }
{
    let calls = calls_on(work, history, shell.parts.as_slice(), x)?;
    let line = remade_line(work, history, shell, place, calls.as_slice())?;
    let object = made_of(work, history, shell, calls.as_slice())?;
    Ok(Again { object, line })
}

/// Adds the line that what an accessor takes from X is smaller than X, or what it takes from a term is not smaller than the term, or
/// the term is not X.
fn moved_line(
    work: &mut Work,
    history: &History,
    smaller: TermId,
    x: TermId,
) -> Result<u64, AllocError>
    requires stands { WorkStands history.now work.old }
    requires smaller { IsSmallIn history.now work.old smaller }
    requires taken { IsTakenFrom (term_at work.old.bank smaller) }
    requires term { IsSmallIn history.now work.old x }
    requires low { depth_of (term_at work.old.bank x) ≤ row_room }
    ensures line { IfOk result (λ n. MovesTo work.new (term_at work.old.bank smaller) (term_at work.old.bank x) n) }
    ensures grows { GrowsUncounted history.now work.old work.new }
{
    let opposites = opposites(work, history, smaller)?;
    let taken = replace(work, history, opposites, &[1, 1, 1], x, Side::Forwards)?;
    replace(work, history, taken, &[2, 1], x, Side::Forwards)
}

/// Adds a line with X for the object made again in the literal, which says that what the accessor takes from it is smaller. It has the
/// denial that the two are equal then.
fn about_whole(
    work: &mut Work,
    history: &History,
    shell: &Shell,
    place: usize,
    again: Again,
    x: TermId,
) -> Result<u64, AllocError>
    requires stands { WorkStands history.now work.old }
    requires shell { ShellStands work.old.bank shell.now }
    requires known { IsKnownShell (events_at work.old.bank history.now) (shell_at work.old.bank shell.now) }
    requires place { place < length shell.now.parts.items }
    requires whole { term_at work.old.bank x ≡ whole }
    requires term { IsSmallIn history.now work.old x }
    requires again_is { term_at work.old.bank again.object ≡ remade (shell_at work.old.bank shell.now) }
    requires again { IsSmallIn history.now work.old again.object }
    requires line { RemadeLine work.old (shell_at work.old.bank shell.now) place again.line }
    ensures line { IfOk result (λ n. WholeLine work.new (shell_at work.old.bank shell.now) place n) }
    ensures grows { GrowsUncounted history.now work.old work.new }
{
    let taken = call_on(work, history, shell.parts[place].accessor, again.object)?;
    let smaller = smaller_term(work, history, taken, again.object)?;
    let moved = moved_line(work, history, smaller, x)?;
    cut(work, history, again.line, moved, smaller)
}

/// Adds the line that a part of X is smaller than X, with the denial that X is of the shell's kind, and that X is the base.
pub fn part_line(
    work: &mut Work,
    history: &History,
    shell: &Shell,
    place: usize,
) -> Result<u64, AllocError>
    requires stands { WorkStands history.now work.old }
    requires shell { ShellStands work.old.bank shell.now }
    requires known { IsKnownShell (events_at work.old.bank history.now) (shell_at work.old.bank shell.now) }
    requires rows { HasKnownRows (events_at work.old.bank history.now) }
    requires place { place < length shell.now.parts.items }
    ensures line { IfOk result (λ n. IsPartLine work.new (shell_at work.old.bank shell.now) place n) }
    ensures grows { GrowsUncounted history.now work.old work.new }
{
    let x = whole(work, history)?;
    let again = made_again(work, history, shell, place, x)?;
    let about = about_whole(work, history, shell, place, again, x)?;
    let row = row_line(work, history, shell.constructor, REMADE_IS_SAME, 0)?;
    cut_by(work, history, row, about, ground::EQUAL, again.object, x)
}
