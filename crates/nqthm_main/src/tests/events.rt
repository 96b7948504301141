// Definitions, axioms, toggles, undo, and instances.
use super::shells::{has_part, logged_and_checked};
use super::{Given, answer_to, joined};
use std::test::Fail;

/// Two events, in whose history the cases of the tables are run.
const TWO_EVENTS: &[u8] = b"(DEFN D (X) (PLUS X X))\n(DCL E (X))\n";

const TWO_REPORTS: &[u8] = b"1. DEFN D\n   Accepted.\n2. DCL E\n   Accepted.\n";

#[test]
fn an_event_has_its_first_refusal(rt: HostRuntime) -> Result<(), Fail> {
    for (word, name, rest, answer) in [
        (
            b"DEFN".as_slice(),
            b"PLUS".as_slice(),
            b"(T T) Z".as_slice(),
            b"Refused 60 NameInUse PLUS.".as_slice(),
        ),
        (b"DEFN", b"D", b"(X) X", b"Refused 60 NameInUse D."),
        (b"DEFN", b"CADR", b"(X) X", b"Refused 60 NameInUse CADR."),
        (b"DEFN", b"H", b"(T T) Z", b"Refused 63 FormalIsConstant T."),
        (
            b"DEFN",
            b"H",
            b"(X NIL X) Z",
            b"Refused 63 FormalIsConstant NIL.",
        ),
        (b"DEFN", b"H", b"(X X) Z", b"Refused 61 RepeatedFormal X."),
        (
            b"DEFN",
            b"H",
            b"(X Y Y X) Z",
            b"Refused 61 RepeatedFormal X.",
        ),
        (b"DEFN", b"H", b"(X) Z", b"Refused 62 FreeVariable Z."),
        (
            b"DEFN",
            b"H",
            b"(X) (PLUS X (TIMES Z Y))",
            b"Refused 62 FreeVariable Z.",
        ),
        (
            b"DEFN",
            b"H",
            b"(X) (CAR X X)",
            b"Refused 11 Arity CAR 2 1.",
        ),
        (b"DEFN", b"H", b"(X) (H X X)", b"Refused 11 Arity H 2 1."),
        (
            b"DEFN",
            b"H",
            b"(X) (H X) ((GREATERP X))",
            b"Refused 65 BadMeasureHint.",
        ),
        (
            b"DEFN",
            b"H",
            b"(X) X ((LESSP Y))",
            b"Refused 65 BadMeasureHint.",
        ),
        (
            b"DEFN",
            b"H",
            b"(X) (H X)",
            b"Tried (COUNT X): (ORD-LESSP (COUNT X) (COUNT X)) failed.\n   Refused 64 NoMeasure.",
        ),
        (
            b"DEFN",
            b"H",
            b"(X) X ((LESSP X) (ORD-LESSP (D X)))",
            b"Accepted.",
        ),
        (b"DEFN", b"H", b"(X) (D (E X)) NIL", b"Accepted."),
        (b"DEFN", b"H", b"NIL 7", b"Accepted."),
        (b"DCL", b"PLUS", b"(X)", b"Refused 32 NameInUse PLUS."),
        (b"DCL", b"F", b"(X)", b"Refused 32 NameInUse F."),
        (b"DCL", b"G", b"(X T)", b"Refused 63 FormalIsConstant T."),
        (b"DCL", b"G", b"(X Y X)", b"Refused 61 RepeatedFormal X."),
        (b"DCL", b"G", b"(X . Y)", b"Refused 21 BadShape formals."),
        (b"DCL", b"G", b"()", b"Accepted."),
        (
            b"ADD-AXIOM",
            b"D",
            b"(REWRITE) T",
            b"Refused 32 NameInUse D.",
        ),
        (b"ADD-AXIOM", b"A", b"(REWRITE) (D X)", b"Accepted."),
        (
            b"ADD-AXIOM",
            b"A",
            b"NIL (FOO X)",
            b"Refused 10 UnknownFunction FOO.",
        ),
        (b"ADD-AXIOM", b"A", b"NIL (EQUAL T F)", b"Accepted."),
        (b"TOGGLE", b"D", b"NONE T", b"Refused 32 NameInUse D."),
        (b"TOGGLE", b"K", b"NONE T", b"Refused 30 NoSuchEvent NONE."),
        (b"TOGGLE", b"K", b"PLUS NIL", b"Accepted."),
        (b"DISABLE", b"D", b"", b"Accepted."),
        (b"ENABLE", b"SUB1", b"", b"Refused 30 NoSuchEvent SUB1."),
        (
            b"UNDO-BACK-THROUGH",
            b"NONE",
            b"",
            b"Refused 30 NoSuchEvent NONE.",
        ),
        (
            b"UNDO-BACK-THROUGH",
            b"PLUS",
            b"",
            b"Refused 31 GroundEvent PLUS.",
        ),
        (b"UNDO-BACK-THROUGH", b"E", b"", b"Undone 1."),
        (b"UNDO-BACK-THROUGH", b"D", b"", b"Undone 2."),
    ] {
        let text = joined(
            rt.alloc(),
            &[TWO_EVENTS, b"(", word, b" ", name, b" ", rest, b")"],
        )?;
        let front = joined(
            rt.alloc(),
            &[
                TWO_REPORTS,
                b"3. ",
                word,
                b" ",
                name,
                b"\n   ",
                answer,
                b"\nForms 3, ",
            ],
        )?;
        let answered = answer_to(rt.alloc(), Given::run(text.as_slice()))?;
        assert!(rt; answered.out.as_slice().starts_with(front.as_slice()));
    }
    Ok(())
}

#[test]
fn an_undo_gives_names_back(rt: HostRuntime) -> Result<(), Fail> {
    let text = joined(
        rt.alloc(),
        &[
            TWO_EVENTS,
            b"(TOGGLE OFF D T)(UNDO-BACK-THROUGH E)(DEFN E (X Y) X)(TOGGLE OFF D T)(DISABLE D)(DISABLE D)(PROVE-LEMMA L NIL (IMPLIES (E X Y) (E X Y)))",
        ],
    )?;
    let want = joined(
        rt.alloc(),
        &[
            TWO_REPORTS,
            b"3. TOGGLE OFF\n   Accepted.\n4. UNDO-BACK-THROUGH E\n   Undone 2.\n5. DEFN E\n   Accepted.\n6. TOGGLE OFF\n   Accepted.\n7. DISABLE D\n   Accepted.\n8. DISABLE D\n   Accepted.\n9. PROVE-LEMMA L\n   By TAUT.\n   Proved.\nForms 9, accepted 9, refused 0, failed 0, skipped 0.\n",
        ],
    )?;
    let answered = answer_to(rt.alloc(), Given::run(text.as_slice()))?;
    assert_eq!(rt; answered.out.as_slice(), want.as_slice());
    assert_eq!(rt; answered.status, 0);
    Ok(())
}

#[test]
fn an_instance_of_an_axiom_or_lemma_is_proved(rt: HostRuntime) -> Result<(), Fail> {
    let axioms =
        b"(DCL G (X Y))(ADD-AXIOM PAIRS NIL (IMPLIES (LISTP X) (EQUAL (CONS (CAR X) (CDR X)) X)))(ADD-AXIOM LESS NIL (EQUAL (DIFFERENCE (ADD1 X) Y) (G X Y)))(ADD-AXIOM SAME NIL (IMPLIES P P))(ADD-AXIOM FIRST NIL (G (CONS X Y) X))".as_slice();
    for (lemma, answer) in [
        // each variable has one term in its place
        (
            b"(IMPLIES (LISTP (CDR Y)) (EQUAL (CONS (CADR Y) (CDDR Y)) (CDR Y)))".as_slice(),
            b"By INST.\n   Proved.".as_slice(),
        ),
        (b"(G (CONS 2 Z) 2)", b"By INST.\n   Proved."),
        (
            b"(G (CONS Y Z) Z)",
            b"0. GOAL: (G (CONS Y Z) Z)\n   Failed, no induction.",
        ),
        (
            b"(IMPLIES (LISTP X) (EQUAL (CONS (CAR X) (CDR X)) X))",
            b"By INST.\n   Proved.",
        ),
        // a numeral above 0 is a call of ADD1
        (b"(EQUAL (DIFFERENCE 5 Z) (G 4 Z))", b"By INST.\n   Proved."),
        (
            b"(EQUAL (DIFFERENCE 5 Z) (G 5 Z))",
            b"0. GOAL: (EQUAL (DIFFERENCE 5 Z) (G 5 Z))\n   Failed, no induction.",
        ),
        (
            b"(EQUAL (DIFFERENCE 0 Z) (G 0 Z))",
            b"0. GOAL: (EQUAL (DIFFERENCE 0 Z) (G 0 Z))\n   Failed, no induction.",
        ),
        // a tautology comes first
        (b"(IMPLIES (G Y Y) (G Y Y))", b"By TAUT.\n   Proved."),
    ] {
        let text = joined(rt.alloc(), &[axioms, b"(PROVE-LEMMA L NIL ", lemma, b")"])?;
        let report = joined(
            rt.alloc(),
            &[b"6. PROVE-LEMMA L\n   ", answer, b"\nForms 6, "],
        )?;
        let answered = answer_to(rt.alloc(), Given::run(text.as_slice()))?;
        assert!(rt; has_part(answered.out.as_slice(), report.as_slice()));
    }
    Ok(())
}

#[test]
fn an_undone_axiom_proves_nothing_more(rt: HostRuntime) -> Result<(), Fail> {
    let text =
        b"(DCL E (X))(ADD-AXIOM A NIL (E X))(PROVE-LEMMA L NIL (E (CONS Y Z)))(UNDO-BACK-THROUGH L)(PROVE-LEMMA M NIL (E 3))(UNDO-BACK-THROUGH A)(PROVE-LEMMA L NIL (E (CONS Y Z)))(PROVE-LEMMA M NIL (E Y))";
    let want =
        b"1. DCL E\n   Accepted.\n2. ADD-AXIOM A\n   Accepted.\n3. PROVE-LEMMA L\n   By INST.\n   Proved.\n4. UNDO-BACK-THROUGH L\n   Undone 1.\n5. PROVE-LEMMA M\n   By INST.\n   Proved.\n6. UNDO-BACK-THROUGH A\n   Undone 2.\n7. PROVE-LEMMA L\n   0. GOAL: (E (CONS Y Z))\n   Failed, no induction.\n8. PROVE-LEMMA M\n   0. GOAL: (E Y)\n   Failed, no induction.\nForms 8, accepted 6, refused 0, failed 2, skipped 0.\n".as_slice();
    let answered = answer_to(rt.alloc(), Given::run(text.as_slice()))?;
    assert_eq!(rt; answered.out.as_slice(), want);
    Ok(())
}

#[test]
fn each_event_is_told_by_its_log(rt: HostRuntime) -> Result<(), Fail> {
    let forms =
        b"(DEFN D (X) (PLUS X X))(DCL E (X))(ADD-AXIOM A NIL (EQUAL (E X) (D X)))(PROVE-LEMMA L NIL (EQUAL (E 3) (D 3)))(TOGGLE OFF D T)(DISABLE E)(UNDO-BACK-THROUGH L)(PROVE-LEMMA L NIL (EQUAL (E 4) (D 4)))(DEFN K NIL (LIST T NIL))".as_slice();
    let claims =
        b"DEFN D: (EQUAL (D X) (PLUS X X))\nDCL E\nAXIOM A: (EQUAL (E X) (D X))\nLEMMA L: (EQUAL (E 3) (D 3))\nTOGGLE OFF\nTOGGLE E-OFF\nUNDO L\nLEMMA L: (EQUAL (E 4) (D 4))\nDEFN K: (EQUAL (K) (CONS T '(NIL)))\nAccepted, 9 claims.\n".as_slice();
    let checked = logged_and_checked(rt.alloc(), forms)?;
    assert_eq!(rt; checked.claims.as_slice(), claims);
    assert_eq!(rt; checked.status, 0);
    Ok(())
}

// The three steps of an ELIM: the denied hypothesis stands in the goal already; the destructor's call becomes V1, and X the rule's left side of V1.
#[test]
fn a_rule_of_an_axiom_eliminates(rt: HostRuntime) -> Result<(), Fail> {
    let declared =
        b"(DCL D (X))(DCL C (Y))(DCL P (X))(DCL H (X))(ADD-AXIOM RULE (ELIM) (IMPLIES (P X) (EQUAL (C (D X)) X)))".as_slice();
    for (lemma, answer) in [
        (
            b"(IMPLIES (P X) (H (D X)))".as_slice(),
            b"1. SIMP from 0: (NOT (P X)) OR (H (D X))\n   2. ELIM from 1: (NOT (P (C V1))) OR (H V1)\n   Failed, no induction.\n".as_slice(),
        ),
        // no destructor is called
        (
            b"(IMPLIES (P X) (H (C X)))",
            b"1. SIMP from 0: (NOT (P X)) OR (H (C X))\n   Failed, no induction.\n",
        ),
        // it is called on no variable
        (
            b"(IMPLIES (P X) (H (D (C X))))",
            b"1. SIMP from 0: (NOT (P X)) OR (H (D (C X)))\n   Failed, no induction.\n",
        ),
    ] {
        let text = joined(rt.alloc(), &[declared, b"(PROVE-LEMMA L NIL ", lemma, b")"])?;
        let answered = answer_to(rt.alloc(), Given::run(text.as_slice()))?;
        assert!(rt; has_part(answered.out.as_slice(), answer));
    }
    Ok(())
}
