//! First and last lines, closing lines and values.
use crate::checked::{Begun, expect_refused, expect_rows};
use std::test::Fail;

/// The first line.
const FIRST: Begun = Begun {
    log: "NQTHM-LOG 1\n",
    claims: "",
};

/// Whole logs, and what is written for them.
const ENDS: [(&str, &str); 7] = [
    ("NQTHM-LOG 1\r\nEND\n", "Refused, line 1: malformed.\n"),
    ("END\n", "Refused, line 1: not allowed.\n"),
    (
        "NQTHM-LOG 1\nNQTHM-LOG 1\n",
        "Refused, line 2: not allowed.\n",
    ),
    ("NQTHM-LOG 1\nEND", "Refused, line 2: unexpected end.\n"),
    ("NQTHM-LOG 1\nEND\n", "Accepted, 0 claims.\n"),
    ("NQTHM-LOG 1\nEND\n\n", "Refused, line 3: malformed.\n"),
    ("NQTHM-LOG 1\nEND\nEND\n", "Refused, line 3: malformed.\n"),
];

/// Lines behind the first, and what is written for them.
const CLAIMS: [(&str, &str); 3] = [
    // each kind of claim
    (
        "DCL E 1\nV X\nA E 1\nAXIOMATIZE AX 2\nEVENT AX\nV X\nA E 1\nLEMMA LX 2 1\nTOGGLE OFF AX 1\nUNDO E\nDCL E 2\nBOOT-STRAP\nDCL E 0\nEND\n",
        "DCL E\nAXIOM AX: (E X)\nLEMMA LX: (E X)\nTOGGLE OFF\nUNDO E\nDCL E\nBOOT-STRAP\nDCL E\nAccepted, 8 claims.\n",
    ),
    // a value is the number of the sum
    (
        "N 2\nN 3\nA PLUS 1 2\nN 5\nA EQUAL 3 4\nVALUE 3\nLEMMA FIVE 5 1\nEND\n",
        "LEMMA FIVE: (EQUAL (PLUS 2 3) 5)\nAccepted, 1 claims.\n",
    ),
    (
        "N 2\nN 3\nA PLUS 1 2\nN 6\nA EQUAL 3 4\nVALUE 3\nLEMMA FIVE 5 1\nEND\n",
        "Refused, line 8: not allowed.\n",
    ),
];

/// Terms that are no calls with a row of the table, and none.
const VALUES: [(&str, u64); 6] = [
    ("VALUE 1", 7),
    ("VALUE 2", 7),
    ("VALUE 3", 7),
    ("VALUE 4", 7),
    ("VALUE 5", 7),
    ("VALUE 6", 7),
];

/// Closing lines of the first block that are not allowed.
const CLOSINGS: [(&str, u64); 10] = [
    ("DCL PLUS 2", 3),
    ("DCL NIL 0", 3),
    ("DCL CADR 1", 3),
    ("DCL E 4294967296", 3),
    ("AXIOMATIZE AX 2", 3),
    ("TOGGLE OFF NONE 1", 3),
    ("TOGGLE OFF PLUS 2", 3),
    ("TOGGLE PLUS PLUS 1", 3),
    ("UNDO NONE", 3),
    ("UNDO PLUS", 3),
];

#[test]
fn first_and_last_lines_are_told(rt: HostRuntime) -> Result<(), Fail> {
    expect_rows(
        &rt,
        rt.alloc(),
        Begun {
            log: "",
            claims: "",
        },
        &ENDS,
    )
}

#[test]
fn each_claim_has_its_line(rt: HostRuntime) -> Result<(), Fail> {
    expect_rows(&rt, rt.alloc(), FIRST, &CLAIMS)
}

#[test]
fn a_term_without_a_row_has_no_value(rt: HostRuntime) -> Result<(), Fail> {
    let terms = Begun {
        log: "NQTHM-LOG 1\nN 3\nA MINUS 1\nA CONS 1 2\nV X\nA PLUS 1 4\n",
        claims: "",
    };
    expect_refused(&rt, rt.alloc(), terms, &VALUES)
}

#[test]
fn closing_lines_have_conditions(rt: HostRuntime) -> Result<(), Fail> {
    let terms = Begun {
        log: "NQTHM-LOG 1\nV X\n",
        claims: "",
    };
    expect_refused(&rt, rt.alloc(), terms, &CLOSINGS)
}
