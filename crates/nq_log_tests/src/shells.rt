//! Shells.
use crate::checked::{Begun, expect_refused, expect_rows};
use std::test::Fail;

/// The stacks of the Handbook: a part that is a number, and one that is a stack.
const STACK: Begun = Begun {
    log: "NQTHM-LOG 1
PART TOP ONE-OF ZERO NUMBERP
PART POP ONE-OF EMPTY-STACK STACKP
SHELL PUSH EMPTY-STACK STACKP
",
    claims: "SHELL PUSH\n",
};

/// What stands behind these lines, and what is written for it.
const BEHIND: [(&str, &str); 14] = [
    ("END\n", "Accepted, 1 claims.\n"),
    (
        "A EMPTY-STACK\nA STACKP 1\nAXIOM PUSH 3 0\nLEMMA L 2 1\nEND\n",
        "LEMMA L: (STACKP (EMPTY-STACK))\nAccepted, 2 claims.\n",
    ),
    (
        "N 0\nA EMPTY-STACK\nA TOP 2\nA EQUAL 3 1\nAXIOM PUSH 9 1\nLEMMA L 4 1\nEND\n",
        "LEMMA L: (EQUAL (TOP (EMPTY-STACK)) 0)\nAccepted, 2 claims.\n",
    ),
    (
        "A EMPTY-STACK\nA POP 1\nA EQUAL 2 1\nAXIOM PUSH 9 2\nLEMMA L 3 1\nEND\n",
        "LEMMA L: (EQUAL (POP (EMPTY-STACK)) (EMPTY-STACK))\nAccepted, 2 claims.\n",
    ),
    ("AXIOM PUSH 9 3\n", "Refused, line 5: not allowed.\n"),
    (
        "UNDO PUSH\nSHELL PUSH NIL STACKP\nAXIOM PUSH 3 0\n",
        "UNDO PUSH\nSHELL PUSH\nRefused, line 7: not allowed.\n",
    ),
    (
        "PART UNBOX ONE-OF EMPTY-STACK STACKP\nSHELL BOX NIL BOXP\nEND\n",
        "SHELL BOX\nAccepted, 2 claims.\n",
    ),
    (
        "PART UNBOX NONE-OF EMPTY-STACK STACKP\nSHELL BOX NIL BOXP\n",
        "Refused, line 6: not allowed.\n",
    ),
    (
        "V X\nREFL 1\nSHELL BOX NIL BOXP\nEND\n",
        "SHELL BOX\nAccepted, 2 claims.\n",
    ),
    (
        "PART UNBOX NONE-OF ZERO\nUNDO PUSH\n",
        "Refused, line 6: not allowed.\n",
    ),
    ("DCL PUSH 1\n", "Refused, line 5: not allowed.\n"),
    ("DCL EMPTY-STACK 0\n", "Refused, line 5: not allowed.\n"),
    ("DCL STACKP 1\n", "Refused, line 5: not allowed.\n"),
    ("DCL POP 1\n", "Refused, line 5: not allowed.\n"),
];

/// Lines behind the first that are refused.
const REFUSED: [(&str, u64); 21] = [
    // a name is in use or stands twice, a recognizer is unknown, or a default is none or fails its restriction
    ("SHELL PLUS NIL BOXP", 2),
    ("SHELL NIL NIL BOXP", 2),
    ("SHELL BOX ZERO BOXP", 2),
    ("SHELL BOX NIL LISTP", 2),
    ("PART CAR NONE-OF ZERO\nSHELL BOX NIL BOXP", 3),
    ("SHELL BOX BOX BOXP", 2),
    ("PART BOXP NONE-OF ZERO\nSHELL BOX NIL BOXP", 3),
    (
        "PART UNBOX NONE-OF ZERO\nPART UNBOX NONE-OF ZERO\nSHELL BOX NIL BOXP",
        4,
    ),
    ("PART UNBOX ONE-OF ZERO FOOP\nSHELL BOX NIL BOXP", 3),
    ("PART UNBOX ONE-OF ZERO LISTP\nSHELL BOX NIL BOXP", 3),
    ("PART UNBOX ONE-OF TRUE NUMBERP\nSHELL BOX NIL BOXP", 3),
    ("PART UNBOX NONE-OF ZERO NUMBERP\nSHELL BOX NIL BOXP", 3),
    ("PART UNBOX ONE-OF ZERO\nSHELL BOX NIL BOXP", 3),
    ("PART UNBOX NONE-OF PLUS\nSHELL BOX NIL BOXP", 3),
    ("PART UNBOX ONE-OF EMPTY BOXP\nSHELL BOX NIL BOXP", 3),
    // a line that may not stand behind lines that wait for another
    ("PART UNBOX NONE-OF ZERO\nDCL E 1", 3),
    ("V X\nPART UNBOX NONE-OF ZERO\nAXIOMATIZE AX 1", 4),
    ("PART UNBOX NONE-OF ZERO\nTOGGLE OFF PLUS 1", 3),
    ("PART UNBOX NONE-OF ZERO\nBOOT-STRAP", 3),
    ("PART UNBOX NONE-OF ZERO\nEND", 3),
    ("V X\nREFL 1\nCASE 1 1\nSHELL BOX NIL BOXP", 5),
];

#[test]
fn a_shell_brings_its_axioms_and_names(rt: HostRuntime) -> Result<(), Fail> {
    expect_rows(&rt, rt.alloc(), STACK, &BEHIND)
}

#[test]
fn shells_have_conditions(rt: HostRuntime) -> Result<(), Fail> {
    let first = Begun {
        log: "NQTHM-LOG 1\n",
        claims: "",
    };
    expect_refused(&rt, rt.alloc(), first, &REFUSED)
}
