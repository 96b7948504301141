// Each way of the rewriter at work: lemmas that it proves without an induction, beside lemmas like them that it does not.
use super::shells::has_part;
use super::{Given, answer_to, joined};
use std::alloc::{AllocError, Global};
use std::test::Fail;

/// The functions of the lemmas.
const DECLARED: &[u8] =
    b"(DCL H (X))(DCL P (X))(DCL Q (X))(DCL S (X))(DCL U (X))(DCL V (X))(DEFN PLISTP (X) (IF (LISTP X) (PLISTP (CDR X)) (EQUAL X NIL)))(DEFN REVERSE (X) (IF (LISTP X) (APPEND (REVERSE (CDR X)) (CONS (CAR X) NIL)) NIL))(DEFN LENGTH (X) (IF (LISTP X) (ADD1 (LENGTH (CDR X))) 0))";

/// Whether a lemma with these hints is proved behind these events, or fails with goals left over, where none is refused. There is
/// no answer where steps run out.
fn is_shown(
    alloc: Global,
    events: &[u8],
    lemma: &[u8],
    hints: &[u8],
) -> Result<Option<bool>, AllocError> {
    let text = joined(
        alloc,
        &[
            DECLARED,
            events,
            b"(PROVE-LEMMA L NIL ",
            lemma,
            b" ((DO-NOT-INDUCT T) ",
            hints,
            b"))",
        ],
    )?;
    let answered = answer_to(alloc, Given::run(text.as_slice()))?;
    let out = answered.out.as_slice();
    if out.ends_with(b"refused 0, failed 0, skipped 0.\n") {
        Ok(Some(true))
    } else if has_part(out, b"   Failed, ") && out.ends_with(b"refused 0, failed 1, skipped 0.\n") {
        Ok(Some(false))
    } else {
        Ok(None)
    }
}

#[test]
fn what_is_known_of_a_term_takes_its_place(rt: HostRuntime) -> Result<(), Fail> {
    for (events, lemma, hints, proved) in [
        // a call on values has its value
        (
            b"".as_slice(),
            b"(IMPLIES (H '(3 2 1)) (H (REVERSE '(1 2 3))))".as_slice(),
            b"".as_slice(),
            true,
        ),
        (
            b"",
            b"(IMPLIES (H '(1 2 3)) (H (REVERSE '(1 2 3))))",
            b"",
            false,
        ),
        // a call is known by the kind of its values
        (b"", b"(IMPLIES (H F) (H (LISTP (LENGTH X))))", b"", true),
        (b"", b"(IMPLIES (H T) (H (LISTP (LENGTH X))))", b"", false),
        // a test that is assumed chooses
        (
            b"",
            b"(IMPLIES (AND (LISTP X) (H Y)) (H (IF (LISTP X) Y Z)))",
            b"",
            true,
        ),
        (
            b"",
            b"(IMPLIES (AND (LISTP X) (H Y)) (H (IF (LISTP X) Z Y)))",
            b"",
            false,
        ),
        // an equation that is assumed rewrites, whichever way round it stands
        (
            b"",
            b"(IMPLIES (AND (EQUAL (LENGTH X) 2) (H 2)) (H (LENGTH X)))",
            b"",
            true,
        ),
        (
            b"",
            b"(IMPLIES (AND (EQUAL 2 (LENGTH X)) (H 2)) (H (LENGTH X)))",
            b"",
            true,
        ),
        (
            b"",
            b"(IMPLIES (AND (EQUAL (LENGTH X) 2) (H 3)) (H (LENGTH X)))",
            b"",
            false,
        ),
        // a part of an object just made
        (b"", b"(IMPLIES (H X) (H (CAR (CONS X Y))))", b"", true),
        (b"", b"(IMPLIES (H X) (H (CDR (CONS X Y))))", b"", false),
        // a test that linear arithmetic decides
        (
            b"",
            b"(IMPLIES (AND (LESSP X Y) (H 1)) (H (IF (LESSP X (ADD1 Y)) 1 2)))",
            b"",
            true,
        ),
        (
            b"",
            b"(IMPLIES (AND (LESSP X Y) (H 1)) (H (IF (LESSP Y X) 1 2)))",
            b"",
            false,
        ),
    ] {
        let shown = is_shown(rt.alloc(), events, lemma, hints)?;
        assert!(rt; shown == Some(proved));
    }
    Ok(())
}

#[test]
fn rules_rewrite_where_they_may(rt: HostRuntime) -> Result<(), Fail> {
    for (events, lemma, hints, proved) in [
        // an axiom is a rule where its class says so
        (
            b"(ADD-AXIOM RULE (REWRITE) (EQUAL (APPEND (APPEND X Y) Z) (APPEND X (APPEND Y Z))))".as_slice(),
            b"(IMPLIES (H (APPEND X (APPEND Y Z))) (H (APPEND (APPEND X Y) Z)))".as_slice(),
            b"".as_slice(),
            true,
        ),
        (
            b"(ADD-AXIOM RULE NIL (EQUAL (APPEND (APPEND X Y) Z) (APPEND X (APPEND Y Z))))",
            b"(IMPLIES (H (APPEND X (APPEND Y Z))) (H (APPEND (APPEND X Y) Z)))",
            b"",
            false,
        ),
        // a hypothesis is relieved by what is assumed or by another rule, or the rule does not serve
        (
            b"(ADD-AXIOM RULE (REWRITE) (IMPLIES (PLISTP X) (EQUAL (APPEND X NIL) X)))",
            b"(IMPLIES (AND (PLISTP X) (H X)) (H (APPEND X NIL)))",
            b"",
            true,
        ),
        (
            b"(ADD-AXIOM RULE (REWRITE) (IMPLIES (PLISTP X) (EQUAL (APPEND X NIL) X)))(ADD-AXIOM PLISTP-REVERSE (REWRITE) (PLISTP (REVERSE X)))",
            b"(IMPLIES (H (REVERSE X)) (H (APPEND (REVERSE X) NIL)))",
            b"",
            true,
        ),
        (
            b"(ADD-AXIOM RULE (REWRITE) (IMPLIES (PLISTP X) (EQUAL (APPEND X NIL) X)))",
            b"(IMPLIES (H X) (H (APPEND X NIL)))",
            b"",
            false,
        ),
        // a variable that the left side lacks is that of an assumption
        (
            b"(DCL SUBSETP (X Y))(ADD-AXIOM RULE (REWRITE) (IMPLIES (AND (MEMBER E X) (SUBSETP X Y)) (MEMBER E Y)))",
            b"(IMPLIES (AND (MEMBER E A) (SUBSETP A B) (H 1)) (H (IF (MEMBER E B) 1 2)))",
            b"",
            true,
        ),
        (
            b"(DCL SUBSETP (X Y))(ADD-AXIOM RULE (REWRITE) (IMPLIES (AND (MEMBER E X) (SUBSETP X Y)) (MEMBER E Y)))",
            b"(IMPLIES (AND (MEMBER E A) (SUBSETP B A) (H 1)) (H (IF (MEMBER E B) 1 2)))",
            b"",
            false,
        ),
        // a rule that permutes goes one way
        (
            b"(ADD-AXIOM RULE (REWRITE) (EQUAL (PLUS X Y) (PLUS Y X)))",
            b"(EQUAL (H (PLUS A B)) (H (PLUS B A)))",
            b"",
            true,
        ),
        (
            b"(ADD-AXIOM RULE (REWRITE) (EQUAL (PLUS X Y) (PLUS Y X)))",
            b"(EQUAL (H (PLUS A B)) (H (PLUS A A)))",
            b"",
            false,
        ),
        // a hint or an event disables a rule
        (
            b"(ADD-AXIOM RULE (REWRITE) (EQUAL (APPEND (APPEND X Y) Z) (APPEND X (APPEND Y Z))))",
            b"(IMPLIES (H (APPEND X (APPEND Y Z))) (H (APPEND (APPEND X Y) Z)))",
            b"(DISABLE RULE)",
            false,
        ),
        (
            b"(ADD-AXIOM RULE (REWRITE) (EQUAL (APPEND (APPEND X Y) Z) (APPEND X (APPEND Y Z))))(DISABLE RULE)",
            b"(IMPLIES (H (APPEND X (APPEND Y Z))) (H (APPEND (APPEND X Y) Z)))",
            b"",
            false,
        ),
        // a hint enables it again
        (
            b"(ADD-AXIOM RULE (REWRITE) (EQUAL (APPEND (APPEND X Y) Z) (APPEND X (APPEND Y Z))))(DISABLE RULE)",
            b"(IMPLIES (H (APPEND X (APPEND Y Z))) (H (APPEND (APPEND X Y) Z)))",
            b"(ENABLE RULE)",
            true,
        ),
    ] {
        let shown = is_shown(rt.alloc(), events, lemma, hints)?;
        assert!(rt; shown == Some(proved));
    }
    Ok(())
}

#[test]
fn calls_are_opened_where_that_serves(rt: HostRuntime) -> Result<(), Fail> {
    for (events, lemma, hints, proved) in [
        // a function that is not recursive
        (
            b"(DEFN TWICE (X) (CONS X X))".as_slice(),
            b"(IMPLIES (H (CONS X X)) (H (TWICE X)))".as_slice(),
            b"".as_slice(),
            true,
        ),
        // a hint forbids that
        (
            b"(DEFN TWICE (X) (CONS X X))",
            b"(IMPLIES (H (CONS X X)) (H (TWICE X)))",
            b"(HANDS-OFF TWICE)",
            false,
        ),
        // a recursive function, where what is left is smaller
        (
            b"",
            b"(IMPLIES (H (CONS X (APPEND Y Z))) (H (APPEND (CONS X Y) Z)))",
            b"",
            true,
        ),
        (
            b"",
            b"(IMPLIES (H (APPEND Y Z)) (H (APPEND (CONS X Y) Z)))",
            b"",
            false,
        ),
        // a hint asks for an opening that would not be kept
        (
            b"(ADD-AXIOM RULE (REWRITE) (H (ADD1 X)))",
            b"(IMPLIES (LISTP X) (H (LENGTH X)))",
            b"(EXPAND (LENGTH X))",
            true,
        ),
        (
            b"(ADD-AXIOM RULE (REWRITE) (H (ADD1 X)))",
            b"(IMPLIES (LISTP X) (H (LENGTH X)))",
            b"",
            false,
        ),
    ] {
        let shown = is_shown(rt.alloc(), events, lemma, hints)?;
        assert!(rt; shown == Some(proved));
    }
    Ok(())
}

#[test]
fn hypotheses_are_not_relieved_without_end(rt: HostRuntime) -> Result<(), Fail> {
    for (events, lemma, proved) in [
        // a hypothesis that only its own rule would relieve
        (
            b"(ADD-AXIOM A1 (REWRITE) (IMPLIES (P X) (P X)))".as_slice(),
            b"(P A)".as_slice(),
            false,
        ),
        // two that would relieve each other, and three; where one is assumed, the other is relieved
        (
            b"(ADD-AXIOM A1 (REWRITE) (IMPLIES (P X) (Q X)))(ADD-AXIOM A2 (REWRITE) (IMPLIES (Q X) (P X)))",
            b"(P A)",
            false,
        ),
        (
            b"(ADD-AXIOM A1 (REWRITE) (IMPLIES (P X) (Q X)))(ADD-AXIOM A2 (REWRITE) (IMPLIES (Q X) (P X)))",
            b"(IMPLIES (AND (Q A) (H 1)) (H (IF (P A) 1 2)))",
            true,
        ),
        (
            b"(ADD-AXIOM A1 (REWRITE) (IMPLIES (Q X) (P X)))(ADD-AXIOM A2 (REWRITE) (IMPLIES (S X) (Q X)))(ADD-AXIOM A3 (REWRITE) (IMPLIES (P X) (S X)))",
            b"(IMPLIES (H 1) (H (IF (P A) 1 2)))",
            false,
        ),
        // hypotheses that grow without end, and hypotheses of parts of parts
        (
            b"(ADD-AXIOM A1 (REWRITE) (IMPLIES (P (CONS X X)) (P X)))",
            b"(P A)",
            false,
        ),
        (
            b"(ADD-AXIOM A1 (REWRITE) (IMPLIES (P (CONS X X)) (P X)))",
            b"(IMPLIES (AND (P (CONS A A)) (H 1)) (H (IF (P A) 1 2)))",
            true,
        ),
        (
            b"(ADD-AXIOM A1 (REWRITE) (IMPLIES (P (CDR X)) (P X)))",
            b"(P A)",
            false,
        ),
        (
            b"(ADD-AXIOM A1 (REWRITE) (IMPLIES (P (CDR X)) (P X)))",
            b"(IMPLIES (AND (P (CDR A)) (H 1)) (H (IF (P A) 1 2)))",
            true,
        ),
        // a hypothesis with the left side within it
        (
            b"(ADD-AXIOM A1 (REWRITE) (IMPLIES (EQUAL (U (U X)) X) (EQUAL (U X) X)))",
            b"(EQUAL (U A) A)",
            false,
        ),
        (
            b"(ADD-AXIOM A1 (REWRITE) (IMPLIES (EQUAL (U (U X)) X) (EQUAL (U X) X)))",
            b"(IMPLIES (AND (EQUAL (U (U A)) A) (H A)) (H (U A)))",
            true,
        ),
    ] {
        let shown = is_shown(rt.alloc(), events, lemma, b"")?;
        assert!(rt; shown == Some(proved));
    }
    Ok(())
}

/// Whether a lemma is proved by a hypothesis with an IF, in both branches of which (U A) stands, where that is (V A) under this
/// condition, and where this is said of the branches.
fn is_forked(alloc: Global, condition: &[u8], said: &[u8]) -> Result<Option<bool>, AllocError> {
    let events = joined(
        alloc,
        &[
            b"(ADD-AXIOM R1 (REWRITE) (IMPLIES ".as_slice(),
            condition,
            b" (EQUAL (U X) (V X))))(ADD-AXIOM R2 (REWRITE) (IMPLIES (Q (IF (P X) (CONS (U X) 1) (CONS (U X) 2))) (S X)))(ADD-AXIOM R3 (REWRITE) (Q (IF (P X) ",
            said,
            b")))",
        ],
    )?;
    is_shown(alloc, events.as_slice(), b"(S A)", b"")
}

#[test]
fn what_is_known_of_a_term_serves_under_its_assumptions(rt: HostRuntime) -> Result<(), Fail> {
    // the term stands in a hypothesis of a rule, so that no goal is split on the test
    for (condition, said, proved) in [
        // nothing rewrites (U A) under the test, and then (V A) takes its place under the denial of the test
        (
            b"(NOT (P X))".as_slice(),
            b"(CONS (U X) 1) (CONS (V X) 2)".as_slice(),
            true,
        ),
        (b"(NOT (P X))", b"(CONS (V X) 1) (CONS (V X) 2)", false),
        // it takes its place under the test, and then not under the denial
        (b"(P X)", b"(CONS (V X) 1) (CONS (U X) 2)", true),
        (b"(P X)", b"(CONS (V X) 1) (CONS (V X) 2)", false),
    ] {
        let shown = is_forked(rt.alloc(), condition, said)?;
        assert!(rt; shown == Some(proved));
    }
    Ok(())
}

#[test]
fn nothing_is_known_from_the_proof_before(rt: HostRuntime) -> Result<(), Fail> {
    // a lemma without a rule that it needs, the same with it, and one like it without it again
    let text = joined(
        rt.alloc(),
        &[
            DECLARED,
            b"(ADD-AXIOM R1 (REWRITE) (EQUAL (U X) (V X)))(ADD-AXIOM R2 (REWRITE) (IMPLIES (Q (U X)) (S X)))(ADD-AXIOM R3 (REWRITE) (Q (V X)))",
            b"(PROVE-LEMMA L1 NIL (S A) ((DISABLE R1)))(PROVE-LEMMA L2 NIL (S A))(PROVE-LEMMA L3 NIL (IMPLIES (H A) (S A)) ((DISABLE R1)))",
        ],
    )?;
    let answered = answer_to(rt.alloc(), Given::run(text.as_slice()))?;
    for report in [
        b"13. PROVE-LEMMA L1\n   0. GOAL: (S A)\n   Failed, no induction.\n".as_slice(),
        b"14. PROVE-LEMMA L2\n   0. GOAL: (S A)\n   Proved.\n",
        b"Failed, no induction.\nForms 15, ",
    ] {
        assert!(rt; has_part(answered.out.as_slice(), report));
    }
    Ok(())
}
