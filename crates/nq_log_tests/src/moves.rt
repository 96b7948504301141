//! The moves: goals that have a candidate of a kind, and goals that have none.
ghost use Rattle.std.specs.Prelude.{All, IfOk, IfSome};
ghost use Rattle.nq_bank.specs.Content.{Content};
ghost use Rattle.nq_history.specs.Events.{events_at, HistoryStands};
ghost use Rattle.nq_history.specs.Hints.{HintsStand};
ghost use Rattle.nq_kernel.specs.Growing.{WorkStands, WorkGrows};
ghost use Rattle.nq_kernel.specs.Ready.{IsReady};
ghost use Rattle.nq_lines.specs.Lines.{IsTermIn};
ghost use Rattle.nq_moves.specs.Ways.{IsMove};

use crate::axioms::history_with;
use crate::closed::{closed, has_only};
use crate::goals::{are_terms_in, term};
use nq_bank::{Bank, TermId};
use nq_eliminate::eliminate_move;
use nq_generalize::generalize_move;
use nq_history::{Hints, History};
use nq_kernel::{Log, MoveKind, Stop, Work};
use nq_moves::{Moved, fertilize_move, irrelevant_move, substitute_move};
use std::alloc::Global;
use std::process::Abort;
use std::test::Fail;

/// Hints that say nothing, but whether they forbid generalizations.
fn hints_with(alloc: Global, no_generalize: bool) -> Hints
    ensures { (bank : Content) → HintsStand bank result }
{
    Hints {
        instances: Vec::new(alloc),
        enable: Vec::new(alloc),
        disable: Vec::new(alloc),
        expand: Vec::new(alloc),
        induct: None,
        hands_off: Vec::new(alloc),
        no_induct: false,
        no_generalize,
        no_arith: false,
    }
}

/// What the move of a kind finds in a goal, where there are no goals above it.
fn moved(
    work: &mut Work,
    history: &History,
    hints: &Hints,
    kind: MoveKind,
    goal: &[TermId],
) -> Result<Option<Moved>, Stop>
    requires stands { WorkStands history.now work.old }
    requires ready { IsReady (events_at work.old.bank history.now) }
    requires hints { HintsStand work.old.bank hints.now }
    requires goal { All (IsTermIn history.now work.old) goal.now }
    ensures moved { IfOk result (λ found. IfSome found (IsMove history.now work.new goal.now)) }
    ensures grows { WorkGrows history.now work.old work.new }
{
    match kind {
        MoveKind::Subst => substitute_move(work, history, hints, goal),
        MoveKind::Fert => fertilize_move(work, history, hints, goal),
        MoveKind::Gen => generalize_move(work, history, hints, &[], goal),
        MoveKind::Irr => irrelevant_move(work, history, hints, goal),
        MoveKind::Simp => Ok(None),
        MoveKind::Elim => eliminate_move(work, history, hints, &[], goal),
        MoveKind::Ind => Ok(None),
    }
}

/// How many goals the move of a kind leads to, and the line of the goal that is made from theirs; none where it finds nothing.
fn led_on(
    work: &mut Work,
    history: &History,
    hints: &Hints,
    kind: MoveKind,
    goal: &[TermId],
) -> Result<Option<(usize, Option<u64>)>, Stop>
    requires stands { WorkStands history.now work.old }
    requires ready { IsReady (events_at work.old.bank history.now) }
    requires hints { HintsStand work.old.bank hints.now }
    requires goal { All (IsTermIn history.now work.old) goal.now }
{
    match moved(work, history, hints, kind, goal) {
        Ok(Some(found)) => {
            let line = closed(work, history, goal, &found);
            Ok(Some((found.children.len(), line)))
        }
        Ok(None) => Ok(None),
        Err(stop) => Err(stop),
    }
}

/// How many goals the move of a kind leads to in work with few steps, where the goal's line is made from theirs; none where it finds
/// nothing, and then it uses no steps.
fn led_in(
    rt: &impl Abort,
    bank: Bank,
    history: &History,
    made: u64,
    kind: MoveKind,
    no_generalize: bool,
    goal: &[TermId],
) -> Result<Option<usize>, Fail>
    requires stands { HistoryStands bank history.now }
    requires ready { IsReady (events_at bank history.now) }
{
    let alloc = bank.alloc();
    let mut work = Work::new(bank, Log::new(alloc), 1000);
    let hints = hints_with(alloc, no_generalize);
    assert!(rt; are_terms_in(&work, history, made, goal));
    match led_on(&mut work, history, &hints, kind, goal) {
        Ok(Some((count, line))) => {
            assert!(rt; has_only(&work, line, goal));
            Ok(Some(count))
        }
        Ok(None) => {
            assert!(rt; work.counter.used() == 0);
            Ok(None)
        }
        Err(_) => Err("there are steps enough".into()),
    }
}

/// The same, of a goal with the literals of these texts, in the ground history with an axiom that proves all goals.
fn led(
    rt: &impl Abort,
    alloc: Global,
    kind: MoveKind,
    no_generalize: bool,
    literals: &[&str],
) -> Result<Option<usize>, Fail> {
    let mut bank = Bank::new(alloc)?;
    let name = bank.name(b"FIRST")?;
    let axiom = term(rt, &mut bank, b"P")?;
    let mut goal = Vec::new(alloc);
    for text in literals {
        let t = term(rt, &mut bank, text.as_bytes())?;
        goal.push(t)?;
    }
    let made = bank.len();
    let history = history_with(rt, &mut bank, name, axiom)?;
    led_in(
        rt,
        bank,
        &history,
        made,
        kind,
        no_generalize,
        goal.as_slice(),
    )
}

// Each row is a goal, and whether it has a candidate.
#[test]
fn substitutions_are_of_variables(rt: HostRuntime) -> Result<(), Fail> {
    for (literals, found) in [
        (["!~X$Q", "*XQ"], true),
        (["!~$QX", "*XQ"], true),
        // the variable stands in the term
        (["!~X$X", "*XQ"], false),
        // the equation is claimed
        (["~X$Q", "*XQ"], false),
        // no side is a variable
        (["!~$X$Q", "*XQ"], false),
    ] {
        let told = led(&rt, rt.alloc(), MoveKind::Subst, false, &literals)?;
        assert!(rt; told.is_some() == found);
    }
    Ok(())
}

#[test]
fn fertilizations_are_of_calls_elsewhere(rt: HostRuntime) -> Result<(), Fail> {
    for (literals, found) in [
        (["!~*XPQ", "~*XPR"], true),
        (["!~Q*XP", "~*XPR"], true),
        // the side stands in no other literal
        (["!~*XPQ", "~*PXR"], false),
        // it is a value
        (["!~2*XP", "~R2"], false),
        // it is a variable
        (["!~X*QR", "~XP"], false),
    ] {
        let told = led(&rt, rt.alloc(), MoveKind::Fert, false, &literals)?;
        assert!(rt; told.is_some() == found);
    }
    Ok(())
}

#[test]
fn generalizations_are_of_calls_that_stand_twice(rt: HostRuntime) -> Result<(), Fail> {
    for (literals, no_generalize, found) in [
        // on both sides of one literal, and of the NOT of one
        (["~*XQ+*XQ", "P"], false, true),
        (["!~*XQ+*XQ", "P"], false, true),
        // in two literals
        (["$*XQ", "@*XQ"], false, true),
        // on one side alone
        (["~+*XQX", "P"], false, false),
        // twice in one literal that is no equation
        (["@**XQ*XQ", "P"], false, false),
        // an accessor, and a value
        (["$$X", "@$X"], false, false),
        (["~22", "@2"], false, false),
        // a hint forbids it
        (["$*XQ", "@*XQ"], true, false),
    ] {
        let told = led(&rt, rt.alloc(), MoveKind::Gen, no_generalize, &literals)?;
        assert!(rt; told.is_some() == found);
    }
    Ok(())
}

#[test]
fn groups_without_recursion_are_irrelevant(rt: HostRuntime) -> Result<(), Fail> {
    for (literals, found) in [
        (["@X", "~*PQQ"], true),
        // a call of a recursive function on distinct variables
        (["*XR", "~*PQQ"], true),
        // it is on one variable twice
        (["*XX", "~*PQQ"], false),
        // the literals share a variable
        (["@P", "~*PQQ"], false),
    ] {
        let told = led(&rt, rt.alloc(), MoveKind::Irr, false, &literals)?;
        assert!(rt; told.is_some() == found);
    }
    Ok(())
}

// Each row is a goal, and to how many goals it is led: one for the rule's hypothesis, and one more.
#[test]
fn eliminations_are_of_accessors_on_variables(rt: HostRuntime) -> Result<(), Fail> {
    for (literals, count) in [
        (["@$X", "~XP"], Some(2)),
        (["P", "$*QdX"], Some(2)),
        // no accessor is called on a variable
        (["@$^XP", "~XP"], None),
        (["@X", "*XP"], None),
        (["@.XP", "$2"], None),
    ] {
        let told = led(&rt, rt.alloc(), MoveKind::Elim, false, &literals)?;
        assert!(rt; told == count);
    }
    Ok(())
}
