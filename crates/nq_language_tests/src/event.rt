//! Events, and why forms are refused.
use crate::texts::{forms_of, joined};
use bumpalo::Bump;
use nq_bank::Bank;
use nq_event::{Event, EventFault, Outline, Refusal, outline_of, parse_event};
use nq_history::History;
use nq_sexp::Sexp;
use std::alloc::{AllocError, Global};
use std::test::Fail;

/// The code and the words of a refusal.
fn told(alloc: Global, refusal: Refusal<'_>) -> Result<Vec<u8>, AllocError> {
    let words = refusal.words(alloc)?;
    joined(alloc, refusal.code(), words.as_slice())
}

/// The kind of an outline.
fn kind_of(outline: Outline<'_>) -> &'static [u8] {
    match outline {
        Outline::BootStrap => b"boot",
        Outline::AddShell(_) => b"shell",
        Outline::Dcl(_, _) => b"declaration",
        Outline::Defn(_, _, _, _) => b"definition",
        Outline::AddAxiom(_, _, _) => b"axiom",
        Outline::ProveLemma(_, _, _, _) => b"lemma",
        Outline::Toggle(_, _, true) => b"disabled",
        Outline::Toggle(_, _, false) => b"enabled",
        Outline::Switch(_, true) => b"switched off",
        Outline::Switch(_, false) => b"switched on",
        Outline::Undo(_) => b"undo",
        Outline::Skipped => b"skipped",
    }
}

/// What is told of the one form of a text: the kind of its outline, or its refusal.
fn told_of(alloc: Global, text: &[u8]) -> Result<Vec<u8>, Fail> {
    let arena = Bump::new(alloc);
    let forms = forms_of(alloc, &arena, text)?;
    match forms.as_slice() {
        [form] => match outline_of(form) {
            Ok(outline) => Ok(kind_of(outline).to_vec(alloc)?),
            Err(refusal) => Ok(told(alloc, refusal)?),
        },
        _ => Ok(b"not one form".to_vec(alloc)?),
    }
}

#[test]
fn words_are_told(rt: HostRuntime) -> Result<(), Fail> {
    for (text, answer) in [
        (b"X".as_slice(), b"20 NotAnEvent".as_slice()),
        (b"((A))", b"20 NotAnEvent"),
        (b"()", b"20 NotAnEvent"),
        (b"(FROB X)", b"20 NotAnEvent"),
        (b"(FROB . X)", b"20 NotAnEvent"),
        (b"'(DCL D (X))", b"20 NotAnEvent"),
        (b"(NOTE-LIB \"x\")", b"12 OutOfScope NOTE-LIB"),
        (b"(UNDO-NAME X)", b"12 OutOfScope UNDO-NAME"),
        (b"(DEFTHEORY . X)", b"12 OutOfScope DEFTHEORY"),
        (b"(setq a nil)", b"skipped"),
        (b"(COMPILE-UNCOMPILED-DEFNS \"tmp\")", b"skipped"),
        (b"(BOOT-STRAP)", b"boot"),
        (b"(boot-strap nqthm)", b"boot"),
        (b"(BOOT-STRAP THM)", b"boot"),
        (b"(DISABLE PLUS)", b"switched off"),
        (b"(ENABLE PLUS)", b"switched on"),
        (b"(TOGGLE OFF D T)", b"disabled"),
        (b"(TOGGLE OFF D NIL)", b"enabled"),
        (b"(TOGGLE OFF D ())", b"enabled"),
        (b"(UNDO-BACK-THROUGH E)", b"undo"),
    ] {
        assert_eq!(rt; told_of(rt.alloc(), text)?.as_slice(), answer);
    }
    Ok(())
}

#[test]
fn shapes_are_told(rt: HostRuntime) -> Result<(), Fail> {
    for (text, answer) in [
        (
            b"(BOOT-STRAP NIL)".as_slice(),
            b"21 BadShape form".as_slice(),
        ),
        (b"(BOOT-STRAP THM THM)", b"21 BadShape form"),
        (b"(DCL 7)", b"21 BadShape form"),
        (b"(DCL D . X)", b"21 BadShape form"),
        (b"(DCL D (X) (Y))", b"21 BadShape form"),
        (b"(DCL 7 X)", b"21 BadShape name"),
        (b"(DCL D (X 7))", b"21 BadShape formals"),
        (b"(DCL D NIL)", b"declaration"),
        (b"(DEFN D (X . Y) (FOO))", b"21 BadShape formals"),
        (b"(DEFN D (X) (FOO) ((LESSP)))", b"21 BadShape measure"),
        (
            b"(DEFN D (X) (FOO) ((LESSP X) (7 X)))",
            b"21 BadShape measure",
        ),
        (b"(DEFN D (X) X NIL)", b"definition"),
        (b"(DEFN PLUS (T T) Z)", b"definition"),
        (b"(ADD-AXIOM A REWRITE T)", b"21 BadShape types"),
        (b"(ADD-AXIOM L (REWRITE (META . X)) T)", b"axiom"),
        (b"(PROVE-LEMMA L ((META) FOO) T)", b"21 BadShape types"),
        (b"(PROVE-LEMMA L NIL (FOO) (USE))", b"21 BadShape hints"),
        (b"(PROVE-LEMMA L NIL (FOO) USE)", b"21 BadShape hints"),
        (b"(PROVE-LEMMA 7 FOO (FOO) USE)", b"21 BadShape name"),
        (b"(PROVE-LEMMA L NIL (FOO) ((GUESS . T)))", b"lemma"),
        (b"(ADD-SHELL A () R NIL)", b"21 BadShape name"),
        (b"(ADD-SHELL A NIL R ((B (ONE-OF))))", b"21 BadShape parts"),
        (b"(ADD-SHELL A NIL R ((B NIL ZERO)))", b"21 BadShape parts"),
        (b"(ADD-SHELL A NIL R ((B (ONE-OF) ZERO)))", b"shell"),
        (b"(TOGGLE OFF 7 T)", b"21 BadShape name"),
        (b"(UNDO-BACK-THROUGH)", b"21 BadShape form"),
    ] {
        assert_eq!(rt; told_of(rt.alloc(), text)?.as_slice(), answer);
    }
    Ok(())
}

/// What is told of the event of this word about a name of so many letters A.
fn told_of_long(alloc: Global, word: &[u8], letters: u16) -> Result<Vec<u8>, Fail> {
    let mut text = Vec::new(alloc);
    text.push(b'(')?;
    text.extend_from_slice(word)?;
    text.push(b' ')?;
    for _ in 0..letters {
        text.push(b'A')?;
    }
    text.push(b')')?;
    told_of(alloc, text.as_slice())
}

#[test]
fn long_names_are_told(rt: HostRuntime) -> Result<(), Fail> {
    for (word, letters, answer) in [
        (b"DISABLE".as_slice(), 240, b"switched off".as_slice()),
        (b"DISABLE", 241, b"21 BadShape name"),
        (b"UNDO-BACK-THROUGH", 241, b"undo"),
    ] {
        assert_eq!(rt; told_of_long(rt.alloc(), word, letters)?.as_slice(), answer);
    }
    Ok(())
}

/// The event of a form in the ground history, or what its refusal tells.
fn told_of_form(alloc: Global, form: &Sexp<'_>) -> Result<Vec<u8>, Fail> {
    let mut bank = Bank::new(alloc)?;
    let history = History::ground(&mut bank)?;
    match parse_event(&mut bank, &history, form) {
        Ok(_) => Ok(b"read".to_vec(alloc)?),
        Err(EventFault::Refused(code, words)) => Ok(joined(alloc, code, words.as_slice())?),
        Err(EventFault::Memory) => Ok(b"memory".to_vec(alloc)?),
    }
}

/// The same of the one form of a text.
fn told_in_ground(alloc: Global, text: &[u8]) -> Result<Vec<u8>, Fail> {
    let arena = Bump::new(alloc);
    let forms = forms_of(alloc, &arena, text)?;
    match forms.as_slice() {
        [form] => told_of_form(alloc, form),
        _ => Ok(b"not one form".to_vec(alloc)?),
    }
}

#[test]
fn first_refusals_are_told(rt: HostRuntime) -> Result<(), Fail> {
    for (text, answer) in [
        (
            b"(DEFN D (X) (FOO) ((LESSP)))".as_slice(),
            b"21 BadShape measure".as_slice(),
        ),
        (b"(DEFN D (X) (FOO X))", b"10 UnknownFunction FOO"),
        (b"(DEFN D (X) (D X X))", b"11 Arity D 2 1"),
        (
            b"(DEFN D (X) X ((LESSP (FOO X))))",
            b"10 UnknownFunction FOO",
        ),
        (b"(DEFN D (X) (IF X (D X) (PLUS X)))", b"11 Arity PLUS 1 2"),
        (b"(DEFN PLUS (X Y Z) (PLUS X Y Z))", b"read"),
        (b"(PROVE-LEMMA L ((META)) (FOO))", b"12 OutOfScope META"),
        (
            b"(PROVE-LEMMA L NIL (FOO) ((GUESS T)))",
            b"10 UnknownFunction FOO",
        ),
        (
            b"(PROVE-LEMMA L NIL T ((USE (NOPE)) (EXPAND (FOO))))",
            b"10 UnknownFunction FOO",
        ),
        (b"(PROVE-LEMMA L NIL T ((GUESS T)))", b"22 BadHint GUESS"),
        (b"(PROVE-LEMMA L NIL T ((USE (NOPE))))", b"22 BadHint USE"),
        (
            b"(PROVE-LEMMA L NIL T ((USE (CAR (X 1)))))",
            b"22 BadHint USE",
        ),
        (
            b"(PROVE-LEMMA L NIL T ((USE (PLUS (T X)))))",
            b"22 BadHint USE",
        ),
        (b"(PROVE-LEMMA L NIL T ((USE (PLUS (X 1)))))", b"read"),
        (
            b"(PROVE-LEMMA L NIL T ((ENABLE NOPE)))",
            b"22 BadHint ENABLE",
        ),
        (b"(PROVE-LEMMA L NIL T ((EXPAND X)))", b"22 BadHint EXPAND"),
        (
            b"(PROVE-LEMMA L NIL T ((EXPAND (CONS X X))))",
            b"22 BadHint EXPAND",
        ),
        (b"(PROVE-LEMMA L NIL T ((EXPAND (PLUS X Y))))", b"read"),
        (
            b"(PROVE-LEMMA L NIL T ((INDUCT (NOT X))))",
            b"22 BadHint INDUCT",
        ),
        (
            b"(PROVE-LEMMA L NIL T ((INDUCT (PLUS 1 Y))))",
            b"22 BadHint INDUCT",
        ),
        (b"(PROVE-LEMMA L NIL T ((INDUCT (PLUS X Y))))", b"read"),
        (
            b"(PROVE-LEMMA L NIL T ((HANDS-OFF NOPE)))",
            b"22 BadHint HANDS-OFF",
        ),
        (
            b"(PROVE-LEMMA L NIL T ((TIME 1) (TIME 2)))",
            b"22 BadHint TIME",
        ),
        (
            b"(PROVE-LEMMA L NIL T ((DO-NOT-INDUCT X)))",
            b"22 BadHint DO-NOT-INDUCT",
        ),
    ] {
        assert_eq!(rt; told_in_ground(rt.alloc(), text)?.as_slice(), answer);
    }
    Ok(())
}

/// Is the event of a form, in the ground history, a toggle of PLUS by this name?
fn toggles_plus(alloc: Global, form: &Sexp<'_>, name: &[u8], disabled: bool) -> Result<bool, Fail> {
    let mut bank = Bank::new(alloc)?;
    let history = History::ground(&mut bank)?;
    match parse_event(&mut bank, &history, form) {
        Ok(Event::Toggle(made, toggled, off)) => Ok(
            bank.find(name) == Some(made) && bank.find(b"PLUS") == Some(toggled) && off == disabled,
        ),
        _ => Ok(false),
    }
}

/// Is the event of the one form of a text so?
fn is_toggle(alloc: Global, text: &[u8], name: &[u8], disabled: bool) -> Result<bool, Fail> {
    let arena = Bump::new(alloc);
    let forms = forms_of(alloc, &arena, text)?;
    match forms.as_slice() {
        [form] => toggles_plus(alloc, form, name, disabled),
        _ => Ok(false),
    }
}

#[test]
fn names_are_made_up(rt: HostRuntime) -> Result<(), Fail> {
    for (text, name, disabled) in [
        (b"(DISABLE PLUS)".as_slice(), b"PLUS-OFF".as_slice(), true),
        (b"(ENABLE PLUS)", b"PLUS-ON", false),
        (b"(TOGGLE OFF PLUS T)", b"OFF", true),
        (b"(TOGGLE OFF PLUS NIL)", b"OFF", false),
    ] {
        assert!(rt; is_toggle(rt.alloc(), text, name, disabled)?);
    }
    Ok(())
}
