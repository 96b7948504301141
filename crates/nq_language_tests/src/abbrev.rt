//! The terms of forms.
ghost use Rattle.std.specs.Prelude.{nat_lt, if◌then◌else◌, Some, None, length, slice_index};

use crate::texts::{forms_of, joined};
use bumpalo::Bump;
use nq_abbrev::{Arities, Refusal, TranslateFault, translate};
use nq_bank::{Bank, Sym};
use nq_sexp::Sexp;
use std::alloc::{AllocError, Global};
use std::test::Fail;

/// How many arguments the ground functions take, in the order of their names.
const GROUND: [u64; 48] = [
    0, 0, 1, 1, 2, 3, 1, 1, 0, 1, 1, 2, 1, 1, 1, 1, 1, 1, 1, 1, 1, 1, 2, 2, 2, 2, 1, 1, 2, 2, 2, 2,
    2, 2, 2, 2, 2, 1, 2, 2, 2, 1, 1, 2, 2, 2, 2, 2,
];

/// Functions by the places of their names.
#[derive(Clone, Copy)]
struct Functions<'a> {
    arities: &'a [u64],
}

impl<'a> Arities for Functions<'a> {
    ghost at = { λ s f. if nat_lt f (length s.arities.now) then Some (slice_index s.arities.now f) else None };

    fn arity(&self, f: Sym) -> Option<u64> {
        if f.0 < self.arities.len() as u64 {
            Some(self.arities[f.0 as usize])
        } else {
            None
        }
    }
}

/// The code and the words of a refusal.
fn told(alloc: Global, refusal: Refusal<'_>) -> Result<Vec<u8>, AllocError> {
    let words = refusal.words(alloc)?;
    joined(alloc, refusal.code(), words.as_slice())
}

/// What is told of a form: why it is refused, or nothing where it has a term.
fn told_of_form(alloc: Global, form: &Sexp<'_>) -> Result<Vec<u8>, Fail> {
    let mut bank = Bank::new(alloc)?;
    let functions = Functions { arities: &GROUND };
    match translate(&mut bank, form, &functions) {
        Ok(_) => Ok(Vec::new(alloc)),
        Err(TranslateFault::Refused(refusal)) => Ok(told(alloc, refusal)?),
        Err(TranslateFault::Memory) => Ok(b"memory".to_vec(alloc)?),
    }
}

/// The same of the one form of a text.
fn told_of(alloc: Global, text: &[u8]) -> Result<Vec<u8>, Fail> {
    let arena = Bump::new(alloc);
    let forms = forms_of(alloc, &arena, text)?;
    match forms.as_slice() {
        [form] => told_of_form(alloc, form),
        _ => Ok(b"not one form".to_vec(alloc)?),
    }
}

/// Do two forms have one term?
fn have_one_term(alloc: Global, written: &Sexp<'_>, meant: &Sexp<'_>) -> Result<bool, Fail> {
    let mut bank = Bank::new(alloc)?;
    let functions = Functions { arities: &GROUND };
    let written = translate(&mut bank, written, &functions);
    let meant = translate(&mut bank, meant, &functions);
    Ok(written.is_ok() && written == meant)
}

/// Do the two forms of a text have one term?
fn are_same(alloc: Global, text: &[u8]) -> Result<bool, Fail> {
    let arena = Bump::new(alloc);
    let forms = forms_of(alloc, &arena, text)?;
    match forms.as_slice() {
        [written, meant] => have_one_term(alloc, written, meant),
        _ => Ok(false),
    }
}

#[test]
fn each_abbreviation_stands_for_its_term(rt: HostRuntime) -> Result<(), Fail> {
    for text in [
        b"T (TRUE)".as_slice(),
        b"F (FALSE)",
        b"3 (ADD1 (ADD1 (ADD1 (ZERO))))",
        b"-3 (MINUS 3)",
        b"-0 (ZERO)",
        b"NIL (PACK (CONS 78 (CONS 73 (CONS 76 0))))",
        b"() NIL",
        b"'A (PACK (CONS 65 0))",
        b"(QUOTE AB) (PACK (CONS 65 (CONS 66 0)))",
        b"'-3 (MINUS 3)",
        b"'NIL NIL",
        b"'(1 A) (CONS 1 (CONS 'A NIL))",
        b"'(1 2 . A) (CONS 1 (CONS 2 'A))",
        b"'('A) (CONS (CONS 'QUOTE (CONS 'A NIL)) NIL)",
        b"(CADR X) (CAR (CDR X))",
        b"(CDADR X) (CDR (CAR (CDR X)))",
        b"(LIST) NIL",
        b"(LIST X Y) (CONS X (CONS Y NIL))",
        b"(COND (T X)) X",
        b"(COND ((LISTP X) Y) (Z W) (T X)) (IF (LISTP X) Y (IF Z W X))",
        b"(CASE X (OTHERWISE Y)) Y",
        b"(CASE X (A 1) (2 Y) (OTHERWISE Z)) (IF (EQUAL X 'A) 1 (IF (EQUAL X 2) Y Z))",
        b"(LET () X) X",
        b"(LET ((X Y) (Y X)) (CONS X Y)) (CONS Y X)",
        b"(LET ((X Y)) (LET ((X (CAR X)) (Z X)) (CONS X Z))) (CONS (CAR Y) Y)",
        b"(AND X Y Z W) (AND X (AND Y (AND Z W)))",
        b"(OR X Y Z) (OR X (OR Y Z))",
        b"(PLUS 1 2 X) (PLUS 1 (PLUS 2 X))",
        b"(TIMES X Y X) (TIMES X (TIMES Y X))",
        b"(cond ((nlistp x) x) ((nlistp (cdr x)) x) (t (let ((a (car x)) (b (cadr x))) (list b a))))
          (IF (NLISTP X) X (IF (NLISTP (CDR X)) X (CONS (CAR (CDR X)) (CONS (CAR X) NIL))))",
    ] {
        assert!(rt; are_same(rt.alloc(), text)?);
    }
    Ok(())
}

#[test]
fn each_refusal_is_told(rt: HostRuntime) -> Result<(), Fail> {
    for (text, refusal) in [
        (b"(FOO X)".as_slice(), b"10 UnknownFunction FOO".as_slice()),
        (b"(CAR X X)", b"11 Arity CAR 2 1"),
        (b"(PLUS X)", b"11 Arity PLUS 1 2"),
        (b"(AND)", b"11 Arity AND 0 2"),
        (b"(CADR X Y)", b"11 Arity CADR 2 1"),
        (b"(EQUAL (EVAL$ T X A) X)", b"12 OutOfScope EVAL$"),
        (b"(V&C$ X)", b"12 OutOfScope V&C$"),
        (b"(APPLY$ X Y)", b"12 OutOfScope APPLY$"),
        (b"(SUBRP X)", b"12 OutOfScope SUBRP"),
        (b"(BODY X)", b"12 OutOfScope BODY"),
        (b"(FORMALS X)", b"12 OutOfScope FORMALS"),
        (b"(FOR X IN L COLLECT X)", b"12 OutOfScope FOR"),
        (b"(CONS \"a\" X)", b"12 OutOfScope STRING"),
        (b"'(A . (B \"a\"))", b"12 OutOfScope STRING"),
        (b"'(1 *1*TRUE)", b"12 OutOfScope *1*TRUE"),
        (b"(QUOTE *1*X)", b"12 OutOfScope *1*X"),
        (b"(CASE X (*1*K 1) (OTHERWISE 2))", b"12 OutOfScope *1*K"),
        (b"(COND)", b"13 BadAbbreviation COND"),
        (b"(COND (P X) (Q Y))", b"13 BadAbbreviation COND"),
        (b"(COND (P X) (T Y Z))", b"13 BadAbbreviation COND"),
        (b"(COND (P) (T Y))", b"13 BadAbbreviation COND"),
        (b"(CASE X)", b"13 BadAbbreviation CASE"),
        (b"(CASE X (A 1))", b"13 BadAbbreviation CASE"),
        (b"(LET X Y)", b"13 BadAbbreviation LET"),
        (b"(LET ((X Y Z)) X)", b"13 BadAbbreviation LET"),
        (b"(LET ((1 Y)) X)", b"13 BadAbbreviation LET"),
        (b"(LET ((X Y) (Z Y) (X Z)) X)", b"13 BadAbbreviation LET"),
        (b"(LET ((X Y)) X X)", b"13 BadAbbreviation LET"),
        (b"(QUOTE)", b"13 BadAbbreviation QUOTE"),
        (b"(QUOTE A B)", b"13 BadAbbreviation QUOTE"),
        (b"(CONS X . Y)", b"13 BadAbbreviation FORM"),
        (b"((CAR X) Y)", b"13 BadAbbreviation FORM"),
        (b"(1 X)", b"13 BadAbbreviation FORM"),
        (b"(LET ((T Y)) X)", b"14 BadVariable T"),
        (b"(LET ((X Y) (F Y)) X)", b"14 BadVariable F"),
        (b"(LET ((NIL Y)) X)", b"14 BadVariable NIL"),
    ] {
        assert_eq!(rt; told_of(rt.alloc(), text)?.as_slice(), refusal);
    }
    Ok(())
}

#[test]
fn the_first_refusal_is_told(rt: HostRuntime) -> Result<(), Fail> {
    for (text, refusal) in [
        (
            b"(FOO (BAR X))".as_slice(),
            b"10 UnknownFunction FOO".as_slice(),
        ),
        (b"(CONS (FOO X) (BAR X))", b"10 UnknownFunction FOO"),
        (b"(FOO . X)", b"13 BadAbbreviation FORM"),
        (
            b"(LET ((X Y) (T X) (X Y)) (FOO))",
            b"13 BadAbbreviation LET",
        ),
        (b"(LET ((T (FOO))) (BAR))", b"14 BadVariable T"),
        (b"(LET ((X (FOO))) (BAR))", b"10 UnknownFunction FOO"),
        (b"(COND ((CAR) (FOO)) (T (BAR)))", b"11 Arity CAR 0 1"),
        (
            b"(CASE X (\"a\" (FOO)) (OTHERWISE 2))",
            b"12 OutOfScope STRING",
        ),
        (
            b"(CASE (FOO) (\"a\" 1) (OTHERWISE 2))",
            b"10 UnknownFunction FOO",
        ),
        (
            b"(CASE X (A (FOO)) (OTHERWISE (BAR)))",
            b"10 UnknownFunction FOO",
        ),
    ] {
        assert_eq!(rt; told_of(rt.alloc(), text)?.as_slice(), refusal);
    }
    Ok(())
}

/// Appends the name of the variable of this number.
fn add_variable(alloc: Global, text: &mut Vec<u8>, number: u64) -> Result<(), AllocError> {
    text.extend_from_slice(b" X")?;
    text.extend_from_slice(number.to_string(alloc)?.as_bytes())
}

/// Begins a LET that binds the next variable to a call of this one.
fn open_let(
    alloc: Global,
    text: &mut Vec<u8>,
    number: u64,
    f: &[u8],
    twice: bool,
) -> Result<(), AllocError> {
    text.extend_from_slice(b"(LET ((")?;
    add_variable(alloc, text, number.saturating_add(1))?;
    text.extend_from_slice(b" (")?;
    text.extend_from_slice(f)?;
    add_variable(alloc, text, number)?;
    if twice {
        add_variable(alloc, text, number)?;
    }
    text.extend_from_slice(b"))) ")
}

/// Nested LETs, each of which binds the next variable to a call of the one before it, and a body in them.
fn lets(
    alloc: Global,
    count: u64,
    f: &[u8],
    twice: bool,
    body: &[u8],
) -> Result<Vec<u8>, AllocError> {
    let mut text = Vec::new(alloc);
    for k in 0..count {
        open_let(alloc, &mut text, k, f, twice)?;
    }
    text.extend_from_slice(body)?;
    for _ in 0..count {
        text.push(b')')?;
    }
    Ok(text)
}

#[test]
fn a_term_of_too_many_nodes_is_refused(rt: HostRuntime) -> Result<(), Fail> {
    for (count, body, refusal) in [
        (15, b"X15".as_slice(), b"".as_slice()),
        (16, b"X16", b"15 TooLarge"),
        (16, b"X15", b""),
        (100, b"X100", b"15 TooLarge"),
        (
            15,
            b"(NOT (CONS X4 (CONS X6 (CONS X8 (CONS X9 (CONS X14 X15))))))",
            b"",
        ),
        (
            15,
            b"(NOT (NOT (CONS X4 (CONS X6 (CONS X8 (CONS X9 (CONS X14 X15)))))))",
            b"15 TooLarge",
        ),
        (16, b"(CONS X16 (FOO X))", b"10 UnknownFunction FOO"),
    ] {
        let text = lets(rt.alloc(), count, b"CONS", true, body)?;
        assert_eq!(rt; told_of(rt.alloc(), text.as_slice())?.as_slice(), refusal);
    }
    Ok(())
}

/// The name of a nest of so many calls of CDR.
fn path(alloc: Global, letters: u64) -> Result<Vec<u8>, AllocError> {
    let mut name = b"C".to_vec(alloc)?;
    for _ in 0..letters {
        name.push(b'D')?;
    }
    name.push(b'R')?;
    Ok(name)
}

#[test]
fn a_term_that_is_too_deep_is_refused(rt: HostRuntime) -> Result<(), Fail> {
    let alloc = rt.alloc();
    for (count, letters, body, refusal) in [
        (8, 249, b"(CDDDDDDDR X8)".as_slice(), b"".as_slice()),
        (8, 249, b"(CDDDDDDDDR X8)", b"15 TooLarge"),
        (17, 250, b"X17", b"15 TooLarge"),
        (17, 250, b"(CASE X17 (OTHERWISE X1))", b""),
    ] {
        let f = path(alloc, letters)?;
        let text = lets(alloc, count, f.as_slice(), false, body)?;
        assert_eq!(rt; told_of(alloc, text.as_slice())?.as_slice(), refusal);
    }
    Ok(())
}

/// A call of so many variables.
fn call_of_many(alloc: Global, f: &[u8], count: u64) -> Result<Vec<u8>, AllocError> {
    let mut text = b"(".to_vec(alloc)?;
    text.extend_from_slice(f)?;
    for _ in 0..count {
        text.extend_from_slice(b" X")?;
    }
    text.push(b')')?;
    Ok(text)
}

#[test]
fn a_call_of_many_arguments_is_told(rt: HostRuntime) -> Result<(), Fail> {
    let alloc = rt.alloc();
    for (f, count, refusal) in [
        (b"PLUS".as_slice(), 2000, b"".as_slice()),
        (b"PLUS", 2001, b"15 TooLarge"),
        (b"AND", 5000, b"15 TooLarge"),
        (b"LIST", 1995, b""),
        (b"LIST", 1996, b"15 TooLarge"),
        (b"CONS", 5000, b"11 Arity CONS 5000 2"),
    ] {
        let text = call_of_many(alloc, f, count)?;
        assert_eq!(rt; told_of(alloc, text.as_slice())?.as_slice(), refusal);
    }
    Ok(())
}
