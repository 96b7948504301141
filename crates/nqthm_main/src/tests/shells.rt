// Shells that are added, refused, and told by logs.
use super::{Given, answer_to, joined};
use std::alloc::{AllocError, Global};
use std::test::Fail;

/// A shell with a base, whose parts have restrictions with bases for their defaults.
pub(super) const STACKS: &[u8] =
    b"(ADD-SHELL PUSH EMPTY-STACK STACKP ((TOP (ONE-OF NUMBERP) ZERO) (POP (ONE-OF STACKP) EMPTY-STACK)))\n";

const STACKS_REPORT: &[u8] = b"1. ADD-SHELL PUSH\n   Accepted.\n";

/// The log of an event file, and what its check writes.
#[derive(Drop)]
pub(super) struct Checked {
    log: Vec<u8>,
    pub(super) claims: Vec<u8>,
    pub(super) status: u8,
}

pub(super) fn logged_and_checked(alloc: Global, forms: &[u8]) -> Result<Checked, AllocError> {
    let given = Given {
        words: &["nqthm", "log"],
        ..Given::run(forms)
    };
    let logged = answer_to(alloc, given)?;
    let given = Given {
        words: &["nqthm", "check"],
        ..Given::run(logged.out.as_slice())
    };
    let checked = answer_to(alloc, given)?;
    Ok(Checked {
        log: logged.out,
        claims: checked.out,
        status: checked.status,
    })
}

#[test]
fn a_shell_after_stacks_has_its_first_refusal(rt: HostRuntime) -> Result<(), Fail> {
    for (names, parts, answer) in [
        (
            b"BOX NIL BOXP".as_slice(),
            b"NIL".as_slice(),
            b"Accepted.\n".as_slice(),
        ),
        (
            b"BOX NIL BOXP",
            b"((UNBOX (ONE-OF LISTP) ZERO))",
            b"Refused 43 BadDefault ZERO.\n",
        ),
        (
            b"BOX NIL BOXP",
            b"((UNBOX (ONE-OF FOOP) ZERO))",
            b"Refused 42 UnknownRecognizer FOOP.\n",
        ),
        (
            b"BOX NIL BOXP",
            b"((UNBOX (ONE-OF BOXP) ZERO))",
            b"Refused 43 BadDefault ZERO.\n",
        ),
        (
            b"BOX NIL BOXP",
            b"((UNBOX (ONE-OF TRUEP) T))",
            b"Refused 43 BadDefault T.\n",
        ),
        (
            b"BOX NIL BOXP",
            b"((UNBOX (ONE-OF TRUEP FALSEP) FALSE))",
            b"Accepted.\n",
        ),
        (
            b"BOX NIL BOXP",
            b"((UNBOX (NONE-OF NUMBERP) EMPTY-STACK))",
            b"Accepted.\n",
        ),
        (
            b"BOX NIL BOXP",
            b"((UNBOX (NONE-OF STACKP) EMPTY-STACK))",
            b"Refused 43 BadDefault EMPTY-STACK.\n",
        ),
        (
            b"BOX NO-BOX BOXP",
            b"((UNBOX (ONE-OF BOXP) NO-BOX))",
            b"Accepted.\n",
        ),
        (
            b"PUSH EMPTY-STACK BOXP",
            b"NIL",
            b"Refused 40 NameInUse PUSH.\n",
        ),
        (
            b"BOX EMPTY-STACK TOP",
            b"NIL",
            b"Refused 40 NameInUse EMPTY-STACK.\n",
        ),
        (
            b"BOX NIL TOP",
            b"((BOX (ONE-OF FOOP) ZERO))",
            b"Refused 40 NameInUse TOP.\n",
        ),
        (
            b"BOX NIL BOXP",
            b"((BOX (NONE-OF) ZERO) (POP (NONE-OF) ZERO))",
            b"Refused 40 NameInUse POP.\n",
        ),
        (b"NIL NIL BOXP", b"NIL", b"Refused 40 NameInUse NIL.\n"),
        (b"BOX BOX BOXP", b"NIL", b"Refused 41 RepeatedName BOX.\n"),
        (
            b"BOX NIL BOXP",
            b"((UNBOX (ONE-OF FOOP) ZERO) (UNBOX (NONE-OF) ZERO))",
            b"Refused 41 RepeatedName UNBOX.\n",
        ),
        (b"BOX () BOXP", b"NIL", b"Refused 21 BadShape name.\n"),
        (
            b"BOX NIL BOXP",
            b"((UNBOX (SOME-OF NUMBERP) ZERO))",
            b"Refused 21 BadShape parts.\n",
        ),
    ] {
        let text = joined(
            rt.alloc(),
            &[STACKS, b"(ADD-SHELL ", names, b" ", parts, b")"],
        )?;
        let report = joined(rt.alloc(), &[b"   ", answer, b"Forms 2, accepted "])?;
        let answered = answer_to(rt.alloc(), Given::run(text.as_slice()))?;
        assert!(rt; answered.out.as_slice().starts_with(STACKS_REPORT));
        assert!(rt; has_part(answered.out.as_slice(), report.as_slice()));
    }
    Ok(())
}

/// Does a part stand in a text?
pub(super) fn has_part(text: &[u8], part: &[u8]) -> bool {
    (0..text.len()).any(|at| text[at..].starts_with(part))
}

#[test]
fn a_shell_is_told_by_its_log(rt: HostRuntime) -> Result<(), Fail> {
    for (rest, log, claims) in [
        (
            b"".as_slice(),
            b"NQTHM-LOG 1\nPART TOP ONE-OF ZERO NUMBERP\nPART POP ONE-OF EMPTY-STACK STACKP\nSHELL PUSH EMPTY-STACK STACKP\nEND\n".as_slice(),
            b"SHELL PUSH\nAccepted, 1 claims.\n".as_slice(),
        ),
        (
            b"(ADD-SHELL BOX NIL BOXP ((UNBOX (ONE-OF LISTP) ZERO)))",
            b"NQTHM-LOG 1\nPART TOP ONE-OF ZERO NUMBERP\nPART POP ONE-OF EMPTY-STACK STACKP\nSHELL PUSH EMPTY-STACK STACKP\nEND\n",
            b"SHELL PUSH\nAccepted, 1 claims.\n",
        ),
        (
            b"(ADD-SHELL BOX NIL BOXP ((UNBOX (NONE-OF) ZERO)))(BOOT-STRAP)(ADD-SHELL BOX NIL BOXP NIL)",
            b"NQTHM-LOG 1\nPART TOP ONE-OF ZERO NUMBERP\nPART POP ONE-OF EMPTY-STACK STACKP\nSHELL PUSH EMPTY-STACK STACKP\nPART UNBOX NONE-OF ZERO\nSHELL BOX NIL BOXP\nBOOT-STRAP\nSHELL BOX NIL BOXP\nEND\n",
            b"SHELL PUSH\nSHELL BOX\nBOOT-STRAP\nSHELL BOX\nAccepted, 4 claims.\n",
        ),
    ] {
        let forms = joined(rt.alloc(), &[STACKS, rest])?;
        let checked = logged_and_checked(rt.alloc(), forms.as_slice())?;
        assert_eq!(rt; checked.log.as_slice(), log);
        assert_eq!(rt; checked.claims.as_slice(), claims);
        assert_eq!(rt; checked.status, 0);
    }
    Ok(())
}

#[test]
fn a_lemma_may_speak_of_a_shell(rt: HostRuntime) -> Result<(), Fail> {
    let lemma = b"(PROVE-LEMMA P NIL (IMPLIES (STACKP (PUSH X Y)) (STACKP (PUSH X Y))))".as_slice();
    let before = answer_to(rt.alloc(), Given::run(lemma))?;
    assert!(rt;
        before.out.as_slice().starts_with(
            b"1. PROVE-LEMMA P\n   Refused 10 UnknownFunction STACKP.\n"
        )
    );
    let forms = joined(rt.alloc(), &[STACKS, lemma])?;
    let checked = logged_and_checked(rt.alloc(), forms.as_slice())?;
    assert_eq!(rt;
        checked.claims.as_slice(),
        b"SHELL PUSH\nLEMMA P: (IMPLIES (STACKP (PUSH X Y)) (STACKP (PUSH X Y)))\nAccepted, 2 claims.\n".as_slice()
    );
    assert_eq!(rt; checked.status, 0);
    Ok(())
}

/// A shell without a base, whose parts have restrictions of several kinds.
const NODES: &[u8] =
    b"(ADD-SHELL NODE NIL NODEP ((LEFT (NONE-OF) ZERO) (MARK (ONE-OF LITATOM TRUEP) TRUE) (RIGHT (NONE-OF NUMBERP LISTP) FALSE)))\n";

#[test]
fn what_is_structural_by_a_users_shell_needs_no_step(rt: HostRuntime) -> Result<(), Fail> {
    for (rest, answer) in [
        // a stack that is not the base has a smaller one; without a test for either the obligation is not derivable
        (
            b"(X) (IF (STACKP X) (IF (EQUAL X (EMPTY-STACK)) 0 (H (POP X))) 0)".as_slice(),
            b"Accepted by (COUNT X).".as_slice(),
        ),
        (
            b"(X) (IF (EQUAL (EMPTY-STACK) X) 0 (IF (STACKP X) (H (POP X)) 0))",
            b"Accepted by (COUNT X).",
        ),
        (
            b"(X) (IF (STACKP X) (H (POP X)) 0)",
            b"Tried (COUNT X): (NOT (STACKP X)) OR (ORD-LESSP (COUNT (POP X)) (COUNT X)) out of steps.\n   Refused 64 NoMeasure.",
        ),
        (
            b"(X) (IF (EQUAL X (EMPTY-STACK)) 0 (H (POP X)))",
            b"Tried (COUNT X): (NOT (NOT (EQUAL X (EMPTY-STACK)))) OR (ORD-LESSP (COUNT (POP X)) (COUNT X)) out of steps.\n   Refused 64 NoMeasure.",
        ),
        // parts of each restriction, and nests of them under a test at each level, without which they need not be smaller
        (
            b"(X) (IF (NODEP X) (PLUS (H (LEFT X)) (PLUS (H (MARK X)) (H (RIGHT X)))) 0)",
            b"Accepted by (COUNT X).",
        ),
        (
            b"(X) (IF (NODEP X) (IF (NODEP (LEFT X)) (H (RIGHT (LEFT X))) 0) 0)",
            b"Accepted by (COUNT X).",
        ),
        (
            b"(X) (IF (NODEP X) (H (RIGHT (LEFT X))) 0)",
            b"Tried (COUNT X): (NOT (NODEP X)) OR (ORD-LESSP (COUNT (RIGHT (LEFT X))) (COUNT X)) out of steps.\n   Refused 64 NoMeasure.",
        ),
        // the formal that is structural
        (
            b"(X Y) (IF (NODEP Y) (H X (RIGHT Y)) X)",
            b"Accepted by (COUNT Y).",
        ),
    ] {
        let text = joined(rt.alloc(), &[STACKS, NODES, b"(DEFN H ", rest, b")"])?;
        let report = joined(rt.alloc(), &[b"3. DEFN H\n   ", answer, b"\nForms 3, "])?;
        let given = Given {
            words: &["nqthm", "run", "--steps", "1"],
            ..Given::run(text.as_slice())
        };
        let answered = answer_to(rt.alloc(), given)?;
        assert!(rt; has_part(answered.out.as_slice(), report.as_slice()));
    }
    Ok(())
}

/// So many shells without parts, under names of their own.
fn many_shells(alloc: Global, count: u64) -> Result<Vec<u8>, AllocError> {
    let mut text = Vec::new(alloc);
    for n in 0..count {
        let number = (n + 1).to_string(alloc)?;
        let digits = number.as_bytes();
        let shell = joined(
            alloc,
            &[b"(ADD-SHELL C", digits, b" NIL C", digits, b"P ())\n"],
        )?;
        text.extend_from_slice(shell.as_slice())?;
    }
    Ok(text)
}

#[test]
fn there_is_room_for_twenty_six_shells(rt: HostRuntime) -> Result<(), Fail> {
    let text = many_shells(rt.alloc(), 27)?;
    let answered = answer_to(rt.alloc(), Given::run(text.as_slice()))?;
    assert!(rt;
        answered.out.as_slice().ends_with(
            b"26. ADD-SHELL C26\n   Accepted.\n27. ADD-SHELL C27\n   Refused 44 TooManyShells.\nForms 27, accepted 26, refused 1, failed 0, skipped 0.\n"
        )
    );
    assert_eq!(rt; answered.status, 1);
    Ok(())
}
