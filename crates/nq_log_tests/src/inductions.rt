//! An induction.
use crate::checked::{Begun, expect_rows};
use std::test::Fail;

/// The lines before an induction that shows `(P X)`: its axioms, and 23 lines in all.
const INDUCTION: Begun = Begun {
    log: "NQTHM-LOG 1
DCL P 1
DCL Q 1
DCL E 0
V X
A P 1
AXIOMATIZE PX 2
V X
A Q 1
A NOT 2
AXIOMATIZE NQX 3
A E
A ORDINALP 1
AXIOMATIZE ORD 2
V X
A P 1
A Q 1
A E
A NOT 2
EVENT ORD
EVENT PX
TAUT 2 5
EVENT NQX
",
    claims: "DCL P
DCL Q
DCL E
AXIOM PX: (P X)
AXIOM NQX: (NOT (Q X))
AXIOM ORD: (ORDINALP (E))
",
};

/// What stands behind these lines, and what is written for it.
const CASES: [(&str, &str); 6] = [
    (
        "CASE 3 3\nHYP 4 1 1\nINDUCT 2 4 1 2\nLEMMA PXX 2 5\nEND\n",
        "LEMMA PXX: (P X)\nAccepted, 7 claims.\n",
    ),
    (
        "CASE 3 3\nHYP 3 1 1\nINDUCT 2 4 1 2\n",
        "Refused, line 26: not allowed.\n",
    ),
    (
        "HYP 4 1 1\nINDUCT 2 4 1 2\n",
        "Refused, line 25: not allowed.\n",
    ),
    ("CASE 3 5\n", "Refused, line 24: not allowed.\n"),
    (
        "CASE 3 3\nLEMMA PXX 2 2\n",
        "Refused, line 25: not allowed.\n",
    ),
    ("INDUCT 2 4 2 2\n", "Refused, line 24: not allowed.\n"),
];

#[test]
fn an_induction_uses_its_cases(rt: HostRuntime) -> Result<(), Fail> {
    expect_rows(&rt, rt.alloc(), INDUCTION, &CASES)
}
