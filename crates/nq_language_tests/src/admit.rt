//! Which definitions are refused.
ghost use Rattle.std.specs.Prelude.{IfErr};
ghost use Rattle.nq_admit.specs.Admission.{IsNamedFault};
ghost use Rattle.nq_event.specs.EventsAt.{EventStands};
ghost use Rattle.nq_history.specs.Events.{HistoryStands};

use crate::texts::forms_of;
use bumpalo::Bump;
use nq_admit::{AdmitFault, admit};
use nq_bank::Bank;
use nq_event::{Event, parse_event};
use nq_history::History;
use nq_sexp::Sexp;
use std::alloc::{AllocError, Global};
use std::test::Fail;

/// A code and its word, and the text of a name.
fn with_name(alloc: Global, word: &[u8], name: &[u8]) -> Result<Vec<u8>, AllocError> {
    let mut text = word.to_vec(alloc)?;
    text.push(b' ')?;
    text.extend_from_slice(name)?;
    Ok(text)
}

/// An answer in the words of a report.
fn told(alloc: Global, bank: &Bank, answer: Result<(), AdmitFault>) -> Result<Vec<u8>, AllocError>
    requires { IfErr answer (IsNamedFault bank.now) }
{
    match answer {
        Ok(()) => b"accepted".to_vec(alloc),
        Err(AdmitFault::NameInUse) => b"60 NameInUse".to_vec(alloc),
        Err(AdmitFault::FormalIsConstant(x)) => {
            with_name(alloc, b"63 FormalIsConstant", bank.text(x))
        }
        Err(AdmitFault::RepeatedFormal(x)) => with_name(alloc, b"61 RepeatedFormal", bank.text(x)),
        Err(AdmitFault::FreeVariable(x)) => with_name(alloc, b"62 FreeVariable", bank.text(x)),
        Err(AdmitFault::BadMeasureHint) => b"65 BadMeasureHint".to_vec(alloc),
        Err(AdmitFault::TooManyEvents) => b"33 TooManyEvents".to_vec(alloc),
        Err(AdmitFault::Memory) => b"memory".to_vec(alloc),
    }
}

/// What is told of an event.
fn told_of_event(
    alloc: Global,
    bank: &Bank,
    history: &History,
    event: Event,
) -> Result<Vec<u8>, AllocError>
    requires history { HistoryStands bank.now history.now }
    requires event { EventStands bank.now event }
{
    match event {
        Event::Defn(name, formals, body, measures) => {
            let answer = admit(
                bank,
                history,
                name,
                formals.as_slice(),
                body,
                measures.as_slice(),
            );
            told(alloc, bank, answer)
        }
        _ => b"no definition".to_vec(alloc),
    }
}

/// What is told of the event of a form.
#[tactic(auto, using(crate::proofs::TestLemmas::read_stands))]
fn told_of_form(
    alloc: Global,
    bank: &mut Bank,
    history: &History,
    form: &Sexp<'_>,
) -> Result<Vec<u8>, AllocError>
    requires { HistoryStands bank.old history.now }
{
    match parse_event(bank, history, form) {
        Ok(event) => told_of_event(alloc, bank, history, event),
        Err(_) => b"no event".to_vec(alloc),
    }
}

/// What is told of the definition of a text in the ground history.
fn told_of(alloc: Global, text: &[u8]) -> Result<Vec<u8>, Fail> {
    let arena = Bump::new(alloc);
    let mut bank = Bank::new(alloc)?;
    let history = History::ground(&mut bank)?;
    let forms = forms_of(alloc, &arena, text)?;
    match forms.as_slice() {
        [form] => Ok(told_of_form(alloc, &mut bank, &history, form)?),
        _ => Ok(b"not one form".to_vec(alloc)?),
    }
}

#[test]
fn first_faults_are_told(rt: HostRuntime) -> Result<(), Fail> {
    for (text, answer) in [
        (
            b"(DEFN PLUS (T T) Z)".as_slice(),
            b"60 NameInUse".as_slice(),
        ),
        (b"(DEFN CADR (X) Z)", b"60 NameInUse"),
        (b"(DEFN H (T T) Z)", b"63 FormalIsConstant T"),
        (b"(DEFN H (X X NIL F) Z)", b"63 FormalIsConstant NIL"),
        (b"(DEFN H (X X) Z)", b"61 RepeatedFormal X"),
        (b"(DEFN H (X) Z)", b"62 FreeVariable Z"),
        (b"(DEFN H (X) Z ((GREATERP X)))", b"62 FreeVariable Z"),
        (b"(DEFN H (X) (H X) ((GREATERP X)))", b"65 BadMeasureHint"),
        (b"(DEFN H (X) (H X))", b"accepted"),
    ] {
        assert_eq!(rt; told_of(rt.alloc(), text)?.as_slice(), answer);
    }
    Ok(())
}

#[test]
fn the_first_formal_that_stands_twice_is_told(rt: HostRuntime) -> Result<(), Fail> {
    for (text, answer) in [
        (
            b"(DEFN H (X Y Y X) X)".as_slice(),
            b"61 RepeatedFormal X".as_slice(),
        ),
        (b"(DEFN H (X Y Z Y Z) X)", b"61 RepeatedFormal Y"),
        (b"(DEFN H (X Y Z) X)", b"accepted"),
        (b"(DEFN H NIL T)", b"accepted"),
    ] {
        assert_eq!(rt; told_of(rt.alloc(), text)?.as_slice(), answer);
    }
    Ok(())
}

#[test]
fn variables_are_those_of_the_translated_body(rt: HostRuntime) -> Result<(), Fail> {
    for (text, answer) in [
        (
            b"(DEFN H (X) (LET ((V Z)) (PLUS Y V)))".as_slice(),
            b"62 FreeVariable Y".as_slice(),
        ),
        (
            b"(DEFN H (X) (LET ((V Z)) (PLUS X V)))",
            b"62 FreeVariable Z",
        ),
        (b"(DEFN H (X) (LET ((V Z)) X))", b"accepted"),
        (b"(DEFN H (X) (LIST X 'Y 2))", b"accepted"),
    ] {
        assert_eq!(rt; told_of(rt.alloc(), text)?.as_slice(), answer);
    }
    Ok(())
}

#[test]
fn hints_are_tested_without_a_recursive_call_too(rt: HostRuntime) -> Result<(), Fail> {
    for (text, answer) in [
        (
            b"(DEFN H (X) X ((GREATERP X)))".as_slice(),
            b"65 BadMeasureHint".as_slice(),
        ),
        (
            b"(DEFN H (X) X ((LESSP X) (LESSP Z)))",
            b"65 BadMeasureHint",
        ),
        (b"(DEFN H (X) X ((LESSP (LET ((V Z)) X))))", b"accepted"),
        (
            b"(DEFN H (X) X ((LESSP X) (ORD-LESSP (COUNT X))))",
            b"accepted",
        ),
    ] {
        assert_eq!(rt; told_of(rt.alloc(), text)?.as_slice(), answer);
    }
    Ok(())
}

#[test]
fn a_body_may_call_its_function(rt: HostRuntime) -> Result<(), Fail> {
    for (text, answer) in [
        (
            b"(DEFN H (X) (IF X (PLUS 1 (H (CDR X))) 0))".as_slice(),
            b"accepted".as_slice(),
        ),
        (b"(DEFN H (X) (LET ((V (H X))) X))", b"accepted"),
        (b"(DEFN H (H) H)", b"accepted"),
        (b"(DEFN H (X) 'H)", b"accepted"),
    ] {
        assert_eq!(rt; told_of(rt.alloc(), text)?.as_slice(), answer);
    }
    Ok(())
}
