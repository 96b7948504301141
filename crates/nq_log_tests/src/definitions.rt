//! Definitions.
use crate::checked::{Begun, expect_refused, expect_rows};
use std::test::Fail;

/// Lines behind the first, and what is written for them.
const DEFINITIONS: [(&str, &str); 12] = [
    (
        "V X\nDEFN G 1 1\nEND\n",
        "DEFN G: (EQUAL (G X) X)\nAccepted, 1 claims.\n",
    ),
    (
        "N 3\nDEFN THREE 1\nEND\n",
        "DEFN THREE: (EQUAL (THREE) 3)\nAccepted, 1 claims.\n",
    ),
    (
        "V X\nV Y\nV Z\nA PLUS 2 1\nDEFN G 4 1 2 3\nEND\n",
        "DEFN G: (EQUAL (G X Y Z) (PLUS Y X))\nAccepted, 1 claims.\n",
    ),
    (
        "V X\nDEFN G 1 1\nV X\nA G 1\nA EQUAL 2 1\nAXIOM G 1 0\nLEMMA L 3 1\nEND\n",
        "DEFN G: (EQUAL (G X) X)\nLEMMA L: (EQUAL (G X) X)\nAccepted, 2 claims.\n",
    ),
    (
        "V X\nDEFN G 1 1\nV X\nA G 1\nDEFN H 2 1\nAXIOM H 1 0\nUNDO G\nDEFN G 1\n",
        "DEFN G: (EQUAL (G X) X)\nDEFN H: (EQUAL (H X) (G X))\nUNDO G\nRefused, line 9: not allowed.\n",
    ),
    (
        "V X\nDEFN G 1 1\nUNDO G\nN 1\nDEFN G 1\nEND\n",
        "DEFN G: (EQUAL (G X) X)\nUNDO G\nDEFN G: (EQUAL (G) 1)\nAccepted, 3 claims.\n",
    ),
    (
        "V X\nDEFN G 1 1\nV X\nDEFN G 1 1\n",
        "DEFN G: (EQUAL (G X) X)\nRefused, line 5: not allowed.\n",
    ),
    (
        "V X\nDEFN G 1 1\nUNDO G\nAXIOM G 1 0\n",
        "DEFN G: (EQUAL (G X) X)\nUNDO G\nRefused, line 5: not allowed.\n",
    ),
    ("V X\nA G 1\n", "Refused, line 3: not allowed.\n"),
    (
        "V X\nPART UNBOX NONE-OF ZERO\nDEFN G 1 1\n",
        "Refused, line 4: not allowed.\n",
    ),
    (
        "V X\nREFL 1\nCASE 1 1\nDEFN G 1 1\n",
        "Refused, line 5: not allowed.\n",
    ),
    (
        "V X\nREFL 1\nDEFN G 1 1\nEND\n",
        "DEFN G: (EQUAL (G X) X)\nAccepted, 1 claims.\n",
    ),
];

/// Closing lines behind the terms X, Y, `(PLUS X Y)` and 0, which are not allowed.
const CONDITIONS: [(&str, u64); 14] = [
    // a name in use
    ("DEFN PLUS 3 1 2", 6),
    ("DEFN NIL 4", 6),
    ("DEFN ADD1 4", 6),
    ("DEFN CADR 3 1 2", 6),
    // terms that are not there
    ("DEFN G 5 1 2", 6),
    ("DEFN G 0 1 2", 6),
    ("DEFN G 3 1 2 5", 6),
    // formals that stand twice, or are no variables
    ("DEFN G 4 1 1", 6),
    ("DEFN G 3 1 2 1", 6),
    ("DEFN G 4 3", 6),
    ("DEFN G 4 1 4", 6),
    // other variables
    ("DEFN G 1", 6),
    ("DEFN G 2 1", 6),
    ("DEFN G 3 1", 6),
];

#[test]
fn a_definition_opens_and_is_undone(rt: HostRuntime) -> Result<(), Fail> {
    let first = Begun {
        log: "NQTHM-LOG 1\n",
        claims: "",
    };
    expect_rows(&rt, rt.alloc(), first, &DEFINITIONS)
}

#[test]
fn definitions_have_conditions(rt: HostRuntime) -> Result<(), Fail> {
    let terms = Begun {
        log: "NQTHM-LOG 1\nV X\nV Y\nA PLUS 1 2\nN 0\n",
        claims: "",
    };
    expect_refused(&rt, rt.alloc(), terms, &CONDITIONS)
}
